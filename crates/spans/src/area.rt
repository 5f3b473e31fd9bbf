// Appending to an area: what stands before the place is kept, and so is what stands behind what is written.
ghost use Rattle.std.specs.Prelude.{◌≡◌, ◌+◌, ◌-◌, ◌≤◌, min, ◌++◌, length, take, drop};
ghost use Rattle.spans.specs.Span.{bytes, ◌⋯◌};
ghost use Rattle.spans.specs.Area.{Wrote};

use super::span::Span;
use text::part::{copy, part};

// Writes src to the area from o on, and returns where it ends.
pub fn append(src: &[u8], area: &mut [u8], o: usize) -> usize
    requires { o + length src.now ≤ length area.old }
    ensures { Wrote area.old area.new o src.now result }
{
    let e = o + src.len();
    copy(&mut area[o..e], src);
    e
}

// Copies the n bytes of the area from a on to o, which stands behind them, and returns where the copy ends.
pub fn append_own(area: &mut [u8], a: usize, n: usize, o: usize) -> usize
    requires { (a + n ≤ o) × (o + n ≤ length area.old) }
    ensures { Wrote area.old area.new o (take n (drop a area.old)) result }
{
    for i in 0..n {
        area[o + i] = area[a + i];
    }
    o + n
}

// The part of a string that lies in the area before m, where n bytes stand before the area.
fn own(n: usize, m: usize, s: Span) -> Span
    ensures { result ≡ (s.at - n) ⋯ min (s.len - (n - s.at)) (m - (s.at - n)) }
{
    let at = s.at.saturating_sub(n);
    let here = m.saturating_sub(at);
    let len = s.len.saturating_sub(n.saturating_sub(s.at)).min(here);
    Span { at, len }
}

// Writes a string that lies in the files or before m in the area itself to the area from o on, and returns where it ends.
pub fn append_span(files: &[u8], area: &mut [u8], m: usize, s: Span, o: usize) -> usize
    requires { (m ≤ o) × (o + length (bytes (files.now ++ take m area.old) s) ≤ length area.old) }
    ensures { Wrote area.old area.new o (bytes (files.now ++ take m area.old) s) result }
{
    let p = part(files, s.at, s.len);
    let e = append(p, area, o);
    let q = own(files.len(), m, s);
    if q.len == 0 {
        return e;
    }
    append_own(area, q.at, q.len, e)
}
