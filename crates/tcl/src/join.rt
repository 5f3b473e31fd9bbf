// A file's text with its continuations joined: `\` LF and `\` CR LF become a space.
ghost use Rattle.std.specs.Prelude.{◌≡◌, ◌+◌, ◌≤◌, ◌<◌, ◌&&◌, not, eqb, get_or, length, drop};
ghost use Rattle.text.specs.Ascii.{byte};
ghost use Rattle.spans.specs.Area.{Wrote};
ghost use Rattle.tcl.specs.Join.{joint_by, joint as Join·joint, joined_by, join as Join·join};

use spans::area::append;
use text::part::peek;
use text::scan::find_far;

// How many bytes a continuation has besides its backslash, by the three bytes that stand there.
fn joint_by(a: u8, b: u8, c: u8) -> usize
    ensures { (result ≡ joint_by a b c) × (result ≤ 2) }
{
    if (a == b'\\') & (b == b'\n') {
        return 1;
    }
    if (a == b'\\') & ((b == b'\r') & (c == b'\n')) {
        return 2;
    }
    0
}

// The same at i.
pub fn joint(s: &[u8], i: usize) -> usize
    requires { i < length s.now }
    ensures { (result ≡ Join·joint (drop i s.now)) × ((result ≤ 2) × (i + result < length s.now)) }
{
    if s[i] != b'\\' {
        return 0;
    }
    joint_by(peek(s, i), peek(s, i + 1), peek(s, i + 2))
}

// What is written for a piece that begins with b and has n bytes more.
pub fn joined_by(n: usize, b: u8) -> u8
    ensures { result ≡ joined_by n b }
{
    if n == 0 {
        return b;
    }
    b' '
}

// Whether no backslash stands at i or behind it: then it is worth while to look how far the next one is.
fn is_far(body: &[u8], i: usize) -> bool
    requires { i < length body.now }
    ensures { result ≡ not (eqb (get_or body.now i 0) (byte "\\")) && not (eqb (get_or body.now (i + 1) 0) (byte "\\")) }
{
    body[i] != b'\\' && peek(body, i + 1) != b'\\'
}

// Writes body to the area from `at` on, with a space for each continuation, and returns where it ends.
pub fn join(body: &[u8], area: &mut [u8], at: usize) -> usize
    requires { at + length body.now ≤ length area.old }
    ensures { Wrote area.old area.new at (Join·join body.now) result }
{
    let mut i = 0;
    let mut o = at;
    // Counted by hand: the place moves on by a run or a piece, so an iterator is no plainer.
    while i < body.len() {
        if is_far(body, i) {
            let e = find_far(body, i, b'\\');
            o = append(&body[i..e], area, o);
            i = e;
            continue;
        }
        let n = joint(body, i);
        area[o] = joined_by(n, body[i]);
        o += 1;
        i = i + 1 + n;
    }
    o
}
