// A stored string, and also what is left of one: a name without its first byte is a name.
ghost use Rattle.std.specs.Prelude.{◌≡◌, false, ◌++◌};
ghost use Rattle.text.specs.Ascii.{ascii};
ghost use Rattle.text.specs.Compare.{same};
ghost use Rattle.spans.specs.Span.{bytes, ◌⋯◌};
ghost use Rattle.names.specs.Name.{named, entry_of, stands, quotes, slash, name_of, is_word, form_got, step_of, Makes};
ghost use Rattle.spans.specs.Memory.{memory};

use entries::byte::first_byte;
use spans::span::{Memory, Span, first};

// How a word is read: as it stands, as an entry of a list, or as a quoted entry.
#[derive(Clone, Copy)]
pub enum Form {
    Word,
    Entry,
    Quoted,
}

// The bytes of the scope, a slash where `sep` is set, and the word in its form.
#[derive(Clone, Copy)]
pub struct Name {
    pub scope: Span,
    pub word: Span,
    pub sep: bool,
    pub form: Form,
}

// The first byte of a word or an entry.
#[inline(always)]
#[tactic(auto, using(crate::proofs::Firsts::formed))]
fn first_formed(mem: &Memory, s: Span, form: Form) -> Option<(u8, Span)>
    ensures { entry_of form (bytes (memory mem.now) s) ≡ form_got form (memory mem.now) result }
{
    if stands(form) {
        return first(mem, s);
    }
    first_byte(mem, s, is_quoted(form))
}

// The first byte of what stands behind the scope.
#[inline(always)]
#[tactic(auto, using(crate::proofs::Firsts::steps))]
fn behind_scope(mem: &Memory, n: Name) -> Option<(u8, Name)>
    ensures { slash n.sep ++ entry_of n.form (bytes (memory mem.now) n.word) ≡ step_of (memory mem.now) result }
{
    if n.sep {
        return Some((b'/', alone(n.word, n.form)));
    }
    let (b, word) = first_formed(mem, n.word, n.form)?;
    Some((b, alone(word, n.form)))
}

// The first byte of what is left, and what is left then.
#[inline(always)]
#[tactic(auto, using(crate::proofs::Firsts::steps))]
pub fn next(mem: &Memory, n: Name) -> Option<(u8, Name)>
    ensures { name_of (memory mem.now) n ≡ step_of (memory mem.now) result }
{
    match first(mem, n.scope) {
        Some((b, scope)) => Some((b, Name { scope, ..n })),
        None => behind_scope(mem, n),
    }
}

// A name, read byte by byte: what is left of it.
#[derive(Drop)]
pub struct Stream<'a> {
    pub mem: &'a Memory<'a>,
    pub left: Name,
}

impl Iterator for Stream<'_> {
    ghost use Rattle.std.specs.Iterator.{item_count, YieldsFirst};
    ghost use Rattle.names.specs.Stream.{left_of};

    type Item = u8;

    ghost next_gives = { YieldsFirst left_of };

    ghost remaining = { item_count left_of };

    #[inline(always)]
    fn next(&mut self) -> Option<u8> {
        let (b, left) = next(self.mem, self.left)?;
        self.left = left;
        Some(b)
    }
}

// A word or an entry alone.
pub fn alone(w: Span, form: Form) -> Name
    ensures { result ≡ named (0 ⋯ 0) false w form }
{
    Name {
        scope: Span { at: 0, len: 0 },
        sep: false,
        word: w,
        form,
    }
}

// Whether a word is read as it stands.
pub fn stands(form: Form) -> bool
    ensures { result ≡ stands form }
{
    matches!(form, Form::Word)
}

// Whether a word is read as a quoted entry.
fn is_quoted(form: Form) -> bool
    ensures { result ≡ quotes form }
{
    matches!(form, Form::Quoted)
}

// Whether a name is a word as it stands.
pub fn is_word(n: Name) -> bool
    ensures { result ≡ is_word n }
{
    n.scope.len == 0 && !n.sep && stands(n.form)
}

// Whether a word or an entry is `.`.
#[tactic(auto, using(crate::proofs::Firsts::dots))]
fn is_dot(mem: &Memory, w: Span, form: Form) -> bool
    ensures { result ≡ same (entry_of form (bytes (memory mem.now) w)) (ascii ".") }
{
    let Some((b, t)) = first_formed(mem, w, form) else {
        return false;
    };
    match first_formed(mem, t, form) {
        Some((_, _)) => false,
        None => b == b'.',
    }
}

// The name of a word or an entry below a scope: the scope itself for `.`.
#[tactic(auto, using(crate::proofs::Firsts::scopes))]
pub fn scoped(mem: &Memory, scope: Span, w: Span, form: Form) -> Name
    ensures { Makes (memory mem.now) scope w form result }
{
    if is_dot(mem, w, form) {
        return alone(scope, Form::Word);
    }
    match first(mem, scope) {
        None => alone(w, form),
        Some((_, _)) => Name {
            scope,
            sep: true,
            word: w,
            form,
        },
    }
}
