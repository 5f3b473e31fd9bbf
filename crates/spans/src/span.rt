// Spans: a stored string is a place and a length in one list, the files' bytes followed by the area's. Every function is total: a span that
// runs past the end has the bytes that are there.
ghost use Rattle.std.specs.Prelude.{◌≡◌, ◌++◌, length, take};
ghost use Rattle.text.specs.Compare.{same as Compare·same};
ghost use Rattle.spans.specs.Span.{bytes, got_of, pair_at};
ghost use Rattle.spans.specs.Memory.{memory};

use text::compare::same;
use text::part::{num, part};

// The memory that strings lie in: the files' bytes, followed by the area's.
#[derive(Clone, Copy)]
pub struct Memory<'a> {
    pub files: &'a [u8],
    pub area: &'a [u8],
}

#[derive(Clone, Copy, PartialEq, Eq)]
pub struct Span {
    pub at: usize,
    pub len: usize,
}

// The first byte of what is left of a string.
#[inline(always)]
#[tactic(auto, using(crate::proofs::Spans::spans))]
pub fn first(mem: &Memory, s: Span) -> Option<(u8, Span)>
    ensures { bytes (memory mem.now) s ≡ got_of (memory mem.now) result }
{
    let at = s.at;
    if s.len == 0 {
        return None;
    }
    if at < mem.files.len() {
        return Some((
            mem.files[at],
            Span {
                at: at + 1,
                len: s.len - 1,
            },
        ));
    }
    let k = at - mem.files.len();
    if k < mem.area.len() {
        return Some((
            mem.area[k],
            Span {
                at: at + 1,
                len: s.len - 1,
            },
        ));
    }
    None
}

// A string, read byte by byte: what is left of it.
#[derive(Drop)]
pub struct Stream<'a> {
    pub mem: &'a Memory<'a>,
    pub left: Span,
}

impl Iterator for Stream<'_> {
    ghost use Rattle.std.specs.Iterator.{item_count, YieldsFirst};
    ghost use Rattle.spans.specs.Stream.{left_of};

    type Item = u8;

    ghost next_gives = { YieldsFirst left_of };

    ghost remaining = { item_count left_of };

    #[inline(always)]
    fn next(&mut self) -> Option<u8> {
        let (b, left) = first(self.mem, self.left)?;
        self.left = left;
        Some(b)
    }
}

// How many bytes a string has.
#[tactic(auto, using(crate::proofs::Spans::size_is))]
pub fn size(mem: &Memory, s: Span) -> usize
    ensures { result ≡ length (bytes (memory mem.now) s) }
{
    let there = (mem.files.len() + mem.area.len()).saturating_sub(s.at);
    s.len.min(there)
}

// The string as a part of whichever slice holds it: all of it, where it does not cross from one to the other.
#[inline(always)]
#[tactic(auto, using(crate::proofs::Spans::fetches))]
pub fn fetch<'a>(mem: &Memory<'a>, s: Span) -> &'a [u8]
    ensures { result.now ≡ take (length result.now) (bytes (memory mem.now) s) }
{
    let at = s.at;
    if at < mem.files.len() {
        return part(mem.files, at, s.len);
    }
    let k = at - mem.files.len();
    part(mem.area, k, s.len)
}

// Whether the string is w, byte by byte: seldom asked, where a string crosses from the files into the area.
#[inline(never)]
fn is_stream(mem: &Memory, s: Span, w: &[u8]) -> bool
    ensures { result ≡ Compare·same (bytes (memory mem.now) s) w.now }
{
    let left = s;
    Stream { mem, left }.eq(w.iter().copied())
}

// Whether the string is w.
#[inline(always)]
#[tactic(auto, using(crate::proofs::Spans::is_whole))]
pub fn is<'a>(mem: &Memory<'a>, s: Span, w: &[u8]) -> bool
    ensures { result ≡ Compare·same (bytes (memory mem.now) s) w.now }
{
    let p = fetch(mem, s);
    if p.len() == s.len {
        return same(p, w);
    }
    is_stream(mem, s, w)
}

// Whether two strings are the same, byte by byte.
// As in `names::compare` with another type of stream: one function for both is generic in the stream, which is no plainer.
fn same_streams(mem: &Memory, s: Span, t: Span) -> bool
    ensures { result ≡ Compare·same (bytes (memory mem.now) s) (bytes (memory mem.now) t) }
{
    let x = Stream { mem, left: s };
    let y = Stream { mem, left: t };
    x.eq(y)
}

// Whether two strings are the same. `==` of the spans says only that they lie at one place.
#[tactic(auto, using(crate::proofs::Spans::same_ways))]
pub fn same_spans<'a>(mem: &Memory<'a>, s: Span, t: Span) -> bool
    ensures { result ≡ Compare·same (bytes (memory mem.now) s) (bytes (memory mem.now) t) }
{
    if s == t {
        return true;
    }
    let p = fetch(mem, s);
    let q = fetch(mem, t);
    if (p.len() == s.len) & (q.len() == t.len) {
        return same(p, q);
    }
    same_streams(mem, s, t)
}

// The k-th span of a list of numbers, two numbers each.
pub fn pair(nums: &[u32], k: usize) -> Span
    ensures { result ≡ pair_at nums.now k }
{
    if nums.len() <= k {
        return Span { at: 0, len: 0 };
    }
    Span {
        at: num(nums, 2 * k) as usize,
        len: num(nums, 2 * k + 1) as usize,
    }
}
