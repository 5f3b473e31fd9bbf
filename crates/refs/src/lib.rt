// A text in pieces: a stored name, or its first bytes; a slash; another stored name; and a part of the job. A text without its first byte is a text.
#![tactic(auto)]

ghost use Rattle.std.specs.Prelude.{◌≡◌, ◌++◌, take, drop};
ghost use Rattle.text.specs.Compare.{same as Compare·same};
ghost use Rattle.out.specs.Text.{Writes};
ghost use Rattle.out.specs.Bytewise.{flat as Bytewise·flat, becomes as Bytewise·becomes};
ghost use Rattle.names.specs.Name.{name_of, slash};
ghost use Rattle.refs.specs.Text.{front_of, text_of, step_of, Starts, no_name, whole_ref, front_ref, job_ref, dot_of, as_dots};
ghost use Rattle.refs.specs.Heads.{is_there, head_ref, is_bare, is_name, is_plain, one_slash, Apart};
ghost use Rattle.spans.specs.Memory.{memory};

use names::compare::same_names;
use names::name::{Form, Name, is_word, stands};
use names::put::{put_mapped, put_span};
use out::bytewise::Mode;
use out::emit::Text;
use spans::span::Memory;
use text::compare::same;
use text::part::part;

// The bytes of the name, the first `upto` of them where `cut` is set; a slash where `sep` is set; the bytes of `last`; `len` bytes of the job from `at`
// on.
#[derive(Clone, Copy)]
pub struct Ref {
    pub name: Name,
    pub last: Name,
    pub upto: usize,
    pub at: usize,
    pub len: usize,
    pub cut: bool,
    pub sep: bool,
}

// No name.
pub fn no_name() -> Name
    ensures { result ≡ no_name }
{
    names::name::alone(spans::span::Span { at: 0, len: 0 }, Form::Word)
}

// A whole name.
pub fn whole(n: Name) -> Ref
    ensures { result ≡ whole_ref n }
{
    Ref {
        name: n,
        cut: false,
        upto: 0,
        sep: false,
        last: no_name(),
        at: 0,
        len: 0,
    }
}

// The first bytes of a name.
pub fn front(n: Name, upto: usize) -> Ref
    ensures { result ≡ front_ref n upto }
{
    Ref {
        name: n,
        cut: true,
        upto,
        sep: false,
        last: no_name(),
        at: 0,
        len: 0,
    }
}

// A part of the job.
pub fn of_job(at: usize, len: usize) -> Ref
    ensures { result ≡ job_ref at len }
{
    Ref {
        name: no_name(),
        cut: false,
        upto: 0,
        sep: false,
        last: no_name(),
        at,
        len,
    }
}

// The first byte of a part of the job.
#[inline(always)]
fn of_part(job: &[u8], at: usize, len: usize) -> Option<(u8, Ref)>
    ensures { Starts job.now at len result }
{
    if len == 0 {
        return None;
    }
    if job.len() <= at {
        return None;
    }
    Some((job[at], of_job(at + 1, len - 1)))
}

// The first byte of what stands behind the name and the slash.
#[inline(always)]
fn of_last(job: &[u8], mem: &Memory, r: Ref) -> Option<(u8, Ref)>
    ensures { name_of (memory mem.now) r.last ++ take r.len (drop r.at job.now) ≡ step_of job.now (memory mem.now) result }
{
    let rest = of_job(r.at, r.len);
    match names::name::next(mem, r.last) {
        None => of_part(job, r.at, r.len),
        Some((b, last)) => Some((b, Ref { last, ..rest })),
    }
}

// The first byte of what stands behind the name.
#[inline(always)]
fn behind(job: &[u8], mem: &Memory, r: Ref) -> Option<(u8, Ref)>
    ensures { slash r.sep ++ (name_of (memory mem.now) r.last ++ take r.len (drop r.at job.now)) ≡ step_of job.now (memory mem.now) result }
{
    if r.sep {
        let rest = of_job(r.at, r.len);
        let last = r.last;
        return Some((b'/', Ref { last, ..rest }));
    }
    of_last(job, mem, r)
}

// The first byte of what is left, and what is left then.
#[inline(always)]
pub fn next(job: &[u8], mem: &Memory, r: Ref) -> Option<(u8, Ref)>
    ensures { text_of job.now (memory mem.now) r ≡ step_of job.now (memory mem.now) result }
{
    if r.cut & (r.upto == 0) {
        return behind(job, mem, r);
    }
    let upto = r.upto.saturating_sub(1);
    match names::name::next(mem, r.name) {
        None => behind(job, mem, r),
        Some((b, name)) => Some((b, Ref { name, upto, ..r })),
    }
}

// A text, read byte by byte: what is left of it.
#[derive(Drop)]
pub struct Stream<'a> {
    pub job: &'a [u8],
    pub mem: &'a Memory<'a>,
    pub left: Ref,
}

impl Iterator for Stream<'_> {
    ghost use Rattle.std.specs.Iterator.{item_count, YieldsFirst};
    ghost use Rattle.refs.specs.Stream.{left_of};

    type Item = u8;

    ghost next_gives = { YieldsFirst left_of };

    ghost remaining = { item_count left_of };

    #[inline(always)]
    fn next(&mut self) -> Option<u8> {
        let (b, left) = next(self.job, self.mem, self.left)?;
        self.left = left;
        Some(b)
    }
}

// Whether two texts are the same, byte by byte.
fn same_streams(job: &[u8], mem: &Memory, a: Ref, b: Ref) -> bool
    ensures { result ≡ Compare·same (text_of job.now (memory mem.now) a) (text_of job.now (memory mem.now) b) }
{
    let x = Stream { job, mem, left: a };
    let y = Stream { job, mem, left: b };
    x.eq(y)
}

// The text without its part of the job.
fn head(r: Ref) -> Ref
    ensures { result ≡ head_ref r }
{
    Ref { at: 0, len: 0, ..r }
}

// Whether the name is whole and nothing but a slash stands behind it.
fn is_bare(r: Ref) -> bool
    ensures { result ≡ is_bare r }
{
    let l = r.last;
    !r.cut && ((l.scope.len == 0 && l.word.len == 0) && (!l.sep && stands(l.form)))
}

// Whether a text is a whole name.
pub fn is_name(r: Ref) -> bool
    ensures { result ≡ is_name r }
{
    is_bare(r) && (!r.sep && r.len == 0)
}

// Whether a slash is in both or in none.
fn one_slash(a: bool, b: bool) -> bool
    ensures { result ≡ one_slash a b }
{
    a == b
}

// Whether two texts are the same but for their parts of the job. No derive says this: texts at other places can be the same.
fn same_heads<'a>(job: &[u8], mem: &Memory<'a>, a: Ref, b: Ref) -> bool
    ensures { result ≡ Compare·same (text_of job.now (memory mem.now) (head_ref a)) (text_of job.now (memory mem.now) (head_ref b)) }
{
    if is_bare(a) & (is_bare(b) & one_slash(a.sep, b.sep)) {
        return same_names(mem, a.name, b.name);
    }
    same_streams(job, mem, head(a), head(b))
}

// Whether both have a last byte and these differ.
fn end_apart(u: &[u8], v: &[u8]) -> bool
    ensures { Apart u.now v.now result }
{
    if u.len() == 0 || v.len() == 0 {
        return false;
    }
    u[u.len() - 1] != v[v.len() - 1]
}

// Whether two texts are the same. Their parts of the job are looked at first: these tell most ports apart.
pub fn same_refs<'a>(job: &[u8], mem: &Memory<'a>, a: Ref, b: Ref) -> bool
    ensures { result ≡ Compare·same (text_of job.now (memory mem.now) a) (text_of job.now (memory mem.now) b) }
{
    let u = part(job, a.at, a.len);
    let v = part(job, b.at, b.len);
    if u.len() != v.len() {
        if end_apart(u, v) {
            return false;
        }
        return same_streams(job, mem, a, b);
    }
    if !same(u, v) {
        return false;
    }
    same_heads(job, mem, a, b)
}

// A slash as a dot, where dots are wanted.
pub fn dot(dots: bool, b: u8) -> u8
    ensures { result ≡ dot_of dots b }
{
    if dots && b == b'/' {
        return b'.';
    }
    b
}

// Writes a text byte by byte in one of the modes of `becomes`, with `/` as `.` where dots are wanted.
fn put_stream(to: &mut Text, m: Mode, dots: bool, job: &[u8], mem: &Memory, r: Ref)
    ensures { Writes to.old (Bytewise·flat (Bytewise·becomes m) (as_dots dots (text_of job.now (memory mem.now) r))) to.new }
{
    let left = r;
    for b in (Stream { job, mem, left }) {
        to.becomes(m, dot(dots, b));
    }
}

// Writes what stands behind the name and the slash in one of the modes of `becomes`.
fn put_last(to: &mut Text, m: Mode, job: &[u8], mem: &Memory, r: Ref)
    ensures { Writes to.old (Bytewise·flat (Bytewise·becomes m) (name_of (memory mem.now) r.last ++ take r.len (drop r.at job.now))) to.new }
{
    put_mapped(to, m, mem, r.last);
    to.flat(m, part(job, r.at, r.len))
}

// Writes the first bytes of a name in one of the modes of `becomes`.
fn put_front(to: &mut Text, m: Mode, mem: &Memory, n: Name, upto: usize)
    ensures { Writes to.old (Bytewise·flat (Bytewise·becomes m) (take upto (name_of (memory mem.now) n))) to.new }
{
    let mut x = n;
    for _i in 0..upto {
        let Some((b, u)) = names::name::next(mem, x) else {
            return;
        };
        to.becomes(m, b);
        x = u;
    }
}

// Writes what stands before the slash.
fn put_named(to: &mut Text, m: Mode, mem: &Memory, r: Ref)
    ensures { Writes to.old (Bytewise·flat (Bytewise·becomes m) (front_of r.cut r.upto (name_of (memory mem.now) r.name))) to.new }
{
    let n = r.name;
    if r.cut {
        return put_front(to, m, mem, n, r.upto);
    }
    put_mapped(to, m, mem, n)
}

// Whether a text is a word as it stands.
fn is_plain(r: Ref) -> bool
    ensures { result ≡ is_plain r }
{
    is_name(r) && is_word(r.name)
}

// Writes a text in one of the modes of `becomes`.
fn put_plain(to: &mut Text, m: Mode, job: &[u8], mem: &Memory, r: Ref)
    ensures { Writes to.old (Bytewise·flat (Bytewise·becomes m) (text_of job.now (memory mem.now) r)) to.new }
{
    if is_plain(r) {
        return put_span(to, m, mem, r.name.word);
    }
    put_named(to, m, mem, r);
    if r.sep {
        to.becomes(m, b'/');
        return put_last(to, m, job, mem, r);
    }
    put_last(to, m, job, mem, r)
}

// Writes a text in one of the modes of `becomes`, with `/` as `.` where dots are wanted.
pub fn put(to: &mut Text, m: Mode, dots: bool, job: &[u8], mem: &Memory, r: Ref)
    ensures { Writes to.old (Bytewise·flat (Bytewise·becomes m) (as_dots dots (text_of job.now (memory mem.now) r))) to.new }
{
    if !dots {
        return put_plain(to, m, job, mem, r);
    }
    match m {
        Mode::Same => put_plain(to, Mode::Dotted, job, mem, r),
        _ => put_stream(to, m, dots, job, mem, r),
    }
}

// Whether a name is not empty.
fn has_name(mem: &Memory, n: Name) -> bool
    ensures { result ≡ is_there (name_of (memory mem.now) n) }
{
    names::name::next(mem, n).is_some()
}

// Whether a text is not empty. Its part of the job and its name are looked at first: one of them mostly is there.
pub fn has_bytes(job: &[u8], mem: &Memory, r: Ref) -> bool
    ensures { result ≡ is_there (text_of job.now (memory mem.now) r) }
{
    let u = part(job, r.at, r.len);
    if u.len() != 0 {
        return true;
    }
    if r.sep | has_name(mem, r.last) {
        return true;
    }
    if r.cut & (r.upto == 0) {
        return false;
    }
    has_name(mem, r.name)
}
