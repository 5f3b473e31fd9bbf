// The parts of a name between its slashes, one after the other: a lookup by them copies nothing.
ghost use Rattle.std.specs.Prelude.{◌≡◌, true, ◌++◌};
ghost use Rattle.text.specs.Compare.{same};
ghost use Rattle.spans.specs.Span.{bytes};
ghost use Rattle.names.specs.Name.{name_of};
ghost use Rattle.names.specs.Parts.{parts, first_part, behind, unslashed, part_of};
ghost use Rattle.spans.specs.Memory.{memory};

use super::name::{Form, Name, alone, is_word, next};
use spans::span::{Memory, Span, size};
use text::compare::starts_with;
use text::part::part;
use text::scan::find;

// The first part is the one looked for, with what is left behind its slash, or as the last part; or it is another.
// An option of an option is no plainer: its two `None` would have to be told apart by where they stand.
#[derive(Clone, Copy)]
pub enum Part {
    Same(Name),
    Last,
    Other,
}

// Whether the first part of a name is w, and what is left then, byte by byte.
#[tactic(auto, using(crate::proofs::Parted::takes))]
fn stepped_part(mem: &Memory, n: Name, w: &[u8]) -> Part
    ensures { part_of (memory mem.now) result ≡ behind w.now (parts (name_of (memory mem.now) n)) }
{
    let mut x = n;
    for c in w {
        let Some((b, u)) = next(mem, x) else {
            return Part::Other;
        };
        if b == b'/' || b != *c {
            return Part::Other;
        }
        x = u;
    }
    match next(mem, x) {
        None => Part::Last,
        Some((b, u)) => {
            if b == b'/' {
                return Part::Same(u);
            }
            Part::Other
        }
    }
}

// Whether the first part of p is w.
#[tactic(auto, using(crate::proofs::Cuts::begins))]
fn begins_part(p: &[u8], w: &[u8]) -> bool
    ensures { result ≡ same (first_part (parts p.now)) w.now }
{
    starts_with(p, w) && find(p, 0, b'/') == w.len()
}

// Whether the first part of a string is w; few strings cross from the files into the area.
#[tactic(auto, using(crate::proofs::Cuts::spans))]
fn begins_span(mem: &Memory, s: Span, w: &[u8]) -> bool
    ensures { result ≡ same (first_part (parts (bytes (memory mem.now) s))) w.now }
{
    if s.len <= mem.files.len().saturating_sub(s.at) {
        return begins_part(part(mem.files, s.at, s.len), w);
    }
    if mem.files.len() <= s.at {
        return begins_part(part(mem.area, s.at - mem.files.len(), s.len), w);
    }
    match stepped_part(mem, alone(s, Form::Word), w) {
        Part::Same(_) => true,
        Part::Last => true,
        Part::Other => false,
    }
}

// Whether the first part of a word is w, and what is left then.
#[inline(always)]
#[tactic(auto, using(crate::proofs::Cuts::cuts))]
fn word_part(mem: &Memory, s: Span, w: &[u8]) -> Part
    ensures { part_of (memory mem.now) result ≡ behind w.now (parts (bytes (memory mem.now) s)) }
{
    if !begins_span(mem, s, w) {
        return Part::Other;
    }
    let e = w.len();
    if e == size(mem, s) {
        return Part::Last;
    }
    let rest = Span {
        at: s.at + e + 1,
        len: s.len - e - 1,
    };
    Part::Same(alone(rest, Form::Word))
}

// The same for a name with a slash behind its scope: the part lies in the scope.
#[inline(always)]
#[tactic(auto, using(crate::proofs::Cuts::scopes))]
fn scope_part(mem: &Memory, n: Name, w: &[u8]) -> Part
    requires { n.sep ≡ true }
    ensures { part_of (memory mem.now) result ≡ behind w.now (parts (name_of (memory mem.now) n)) }
{
    let s = n.scope;
    if !begins_span(mem, s, w) {
        return Part::Other;
    }
    let e = w.len();
    if e == size(mem, s) {
        return Part::Same(alone(n.word, n.form));
    }
    let scope = Span {
        at: s.at + e + 1,
        len: s.len - e - 1,
    };
    Part::Same(Name { scope, ..n })
}

// Whether the first part of a name is w, and what is left then.
#[inline(always)]
#[tactic(auto, using(crate::proofs::Cuts::words))]
pub fn next_part(mem: &Memory, n: Name, w: &[u8]) -> Part
    ensures { part_of (memory mem.now) result ≡ behind w.now (parts (name_of (memory mem.now) n)) }
{
    if is_word(n) {
        return word_part(mem, n.word, w);
    }
    if n.sep {
        return scope_part(mem, n, w);
    }
    stepped_part(mem, n, w)
}

// A name without the slashes at its start.
#[inline(always)]
pub fn past_slashes(mem: &Memory, n: Name) -> Name
    ensures { name_of (memory mem.now) result ≡ unslashed (name_of (memory mem.now) n) }
{
    let mut x = n;
    while let Some((b, u)) = next(mem, x) {
        if b != b'/' {
            return x;
        }
        x = u;
    }
    x
}
