// The bytes of an entry: its lines joined, and of a quoted one the backslashes dropped, as it is read.
ghost use Rattle.std.specs.Prelude.{◌≡◌, ◌++◌, drop};
ghost use Rattle.spans.specs.Span.{bytes};
ghost use Rattle.tcl.specs.Join.{join};
ghost use Rattle.entries.specs.Entry.{entry_bytes};
ghost use Rattle.entries.specs.View.{entry_got, join_got, next_of};
ghost use Rattle.spans.specs.Memory.{memory};

use spans::span::{Memory, Span, first};
use tcl::join::{joined_by, joint};

// The byte at i of an entry that lies in one slice.
pub fn next_byte(raw: &[u8], i: usize, quoted: bool) -> Option<(u8, usize)>
    ensures { entry_bytes quoted (drop i raw.now) ≡ next_of quoted raw.now result }
{
    if raw.len() <= i {
        return None;
    }
    let n = joint(raw, i);
    let b = joined_by(n, raw[i]);
    let j = i + 1 + n;
    if !quoted {
        return Some((b, j));
    }
    if b != b'\\' {
        return Some((b, j));
    }
    if raw.len() <= j {
        return Some((b, j));
    }
    let m = joint(raw, j);
    let c = joined_by(m, raw[j]);
    Some((c, j + 1 + m))
}

// The first byte of a string whose lines are joined.
fn first_joined(mem: &Memory, s: Span) -> Option<(u8, Span)>
    ensures { join (bytes (memory mem.now) s) ≡ join_got (memory mem.now) result }
{
    let (a, t) = first(mem, s)?;
    if a != b'\\' {
        return Some((a, t));
    }
    let Some((b, u)) = first(mem, t) else {
        return Some((a, t));
    };
    if b == b'\n' {
        return Some((b' ', u));
    }
    if b != b'\r' {
        return Some((a, t));
    }
    let Some((c, w)) = first(mem, u) else {
        return Some((a, t));
    };
    if c == b'\n' {
        return Some((b' ', w));
    }
    Some((a, t))
}

// The first byte of an entry that is a span of the files and the area. Seldom met, since an entry without a backslash is read as a word: kept out of the
// loops over names.
#[inline(never)]
pub fn first_byte(mem: &Memory, s: Span, quoted: bool) -> Option<(u8, Span)>
    ensures { entry_bytes quoted (bytes (memory mem.now) s) ≡ entry_got quoted (memory mem.now) result }
{
    let (b, t) = first_joined(mem, s)?;
    if !quoted {
        return Some((b, t));
    }
    if b != b'\\' {
        return Some((b, t));
    }
    first_joined(mem, t).or(Some((b, t)))
}
