// The entries of a value, one after the other.
ghost use Rattle.std.specs.Prelude.{◌≡◌, false, length, drop};
ghost use Rattle.tcl.specs.Lists.{list};
ghost use Rattle.entries.specs.Entry.{entries_left};
ghost use Rattle.entries.specs.View.{Begins, Finds};

use super::scan::scan;
use spans::span::Span;
use tcl::join::{joined_by, joint};
use text::class::is_space;

// An entry: where it lies in the value, whether it is quoted, and where to read on (not before a command's first word any more).
#[derive(Clone, Copy)]
pub struct Item {
    pub entry: Span,
    pub quoted: bool,
    pub next: usize,
}

// The entry that begins at i with the byte b.
fn entry_at(v: &[u8], i: usize, b: u8) -> Option<Item>
    requires { Begins v.now i b }
    ensures { Finds v.now (entries_left false (drop i v.now)) result }
{
    let a = i + 1;
    if b == b'{' {
        let e = scan(v, a, b'{');
        return Some(Item {
            entry: Span { at: a, len: e - a },
            quoted: false,
            next: e + 1,
        });
    }
    if b == b'"' {
        let e = scan(v, a, b'"');
        return Some(Item {
            entry: Span { at: a, len: e - a },
            quoted: true,
            next: e + 1,
        });
    }
    if b == b'[' {
        let e = scan(v, a, b'[');
        let z = (e + 1).min(v.len());
        return Some(Item {
            entry: Span { at: i, len: z - i },
            quoted: false,
            next: e + 1,
        });
    }
    let e = scan(v, a, b' ');
    Some(Item {
        entry: Span { at: i, len: e - i },
        quoted: false,
        next: e,
    })
}

// The first entry from `at` on; `first`: no word of the command stands before it.
pub fn next_entry(v: &[u8], at: usize, first: bool) -> Option<Item>
    ensures { Finds v.now (entries_left first (drop at v.now)) result }
{
    let mut i = at;
    let mut f = first;
    // Counted by hand: the place moves on by a whole piece, so an iterator is no plainer.
    while i < v.len() {
        let n = joint(v, i);
        let b = joined_by(n, v[i]);
        if (b == b'\n') | (b == b';') {
            f = true;
            i = i + 1 + n;
            continue;
        }
        if is_space(b) {
            i = i + 1 + n;
            continue;
        }
        if (b == b'#') & f {
            i = scan(v, i + 1 + n, b'#');
            continue;
        }
        return entry_at(v, i, b);
    }
    None
}

// How many entries the value has.
pub fn count(v: &[u8]) -> usize
    ensures { result ≡ length (list v.now) }
{
    let mut n = 0;
    let mut at = 0;
    let mut f = true;
    while let Some(item) = next_entry(v, at, f) {
        n += 1;
        at = item.next;
        f = false;
    }
    n
}

// Entry k of the value, from 0, with what is left behind it.
pub fn entry(v: &[u8], k: usize) -> Option<Item>
    ensures { Finds v.now (drop k (list v.now)) result }
{
    let mut left = k;
    let mut at = 0;
    let mut f = true;
    while let Some(item) = next_entry(v, at, f) {
        if left == 0 {
            return Some(item);
        }
        left -= 1;
        at = item.next;
        f = false;
    }
    None
}
