// Names compared. `eq` and `lt` of the library's iterators compare; a derive would compare places, and two names at other places can be the same.
ghost use Rattle.std.specs.Prelude.{◌≡◌, ◌&&◌, ◌||◌, not, ◌++◌};
ghost use Rattle.text.specs.Compare.{same as Compare·same, less as Compare·less};
ghost use Rattle.text.specs.Classes.{dot_of};
ghost use Rattle.spans.specs.Span.{bytes};
ghost use Rattle.out.specs.Bytewise.{dotted};
ghost use Rattle.names.specs.Name.{stands, slash, name_of};
ghost use Rattle.spans.specs.Memory.{memory};

use super::name::{Form, Name, Stream, alone, stands};
use spans::span::{Memory, Span, fetch, same_spans};

// Whether two names are the same, byte by byte.
fn same_streams(mem: &Memory, a: Name, b: Name) -> bool
    ensures { result ≡ Compare·same (name_of (memory mem.now) a) (name_of (memory mem.now) b) }
{
    let x = Stream { mem, left: a };
    let y = Stream { mem, left: b };
    x.eq(y)
}

// Whether the first name comes before the second, byte by byte.
// As `same_streams` with another method: one function for both takes the comparison as a closure, which is no plainer.
fn less_streams(mem: &Memory, a: Name, b: Name) -> bool
    ensures { result ≡ Compare·less (name_of (memory mem.now) a) (name_of (memory mem.now) b) }
{
    let x = Stream { mem, left: a };
    let y = Stream { mem, left: b };
    x.lt(y)
}

// A byte with `/` as `.`.
pub fn dot(b: u8) -> u8
    ensures { result ≡ dot_of b }
{
    if b == b'/' {
        return b'.';
    }
    b
}

// Whether a name with `/` as `.` is w.
pub fn is_dotted(mem: &Memory, n: Name, w: &[u8]) -> bool
    ensures { result ≡ Compare·same (dotted (name_of (memory mem.now) n)) w.now }
{
    let left = n;
    Stream { mem, left }.map(dot).eq(w.iter().copied())
}

// Whether the parts of two names stand beside each other: the words as they are written, and a slash in both or in none.
fn alike(a: Name, b: Name) -> bool
    ensures { result ≡ (stands a.form && stands b.form) && not ((a.sep && not b.sep) || (b.sep && not a.sep)) }
{
    stands(a.form) && stands(b.form) && a.sep == b.sep
}

// Whether two names are the same.
#[tactic(auto, using(crate::proofs::Sames::fast))]
pub fn same_names<'a>(mem: &Memory<'a>, a: Name, b: Name) -> bool
    ensures { result ≡ Compare·same (name_of (memory mem.now) a) (name_of (memory mem.now) b) }
{
    if !alike(a, b) {
        return same_streams(mem, a, b);
    }
    if same_spans(mem, a.scope, b.scope) {
        return same_spans(mem, a.word, b.word);
    }
    same_streams(mem, a, b)
}

// Whether the first string comes before the second.
#[tactic(auto, using(crate::proofs::Sames::orders))]
fn less_spans<'a>(mem: &Memory<'a>, s: Span, t: Span) -> bool
    ensures { result ≡ Compare·less (bytes (memory mem.now) s) (bytes (memory mem.now) t) }
{
    let p = fetch(mem, s);
    let q = fetch(mem, t);
    if (p.len() == s.len) & (q.len() == t.len) {
        return text::compare::less(p, q);
    }
    less_streams(mem, alone(s, Form::Word), alone(t, Form::Word))
}

// Whether the first name comes before the second, by their bytes.
#[tactic(auto, using(crate::proofs::Sames::orders))]
pub fn less<'a>(mem: &Memory<'a>, a: Name, b: Name) -> bool
    ensures { result ≡ Compare·less (name_of (memory mem.now) a) (name_of (memory mem.now) b) }
{
    if !alike(a, b) {
        return less_streams(mem, a, b);
    }
    if same_spans(mem, a.scope, b.scope) {
        return less_spans(mem, a.word, b.word);
    }
    less_streams(mem, a, b)
}
