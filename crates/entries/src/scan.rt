// Where something ends in a value whose lines are joined as it is read.
ghost use Rattle.std.specs.Prelude.{◌≡◌, ◌+◌, ◌≤◌, ◌<◌, ◌^◌, length, drop};
ghost use Rattle.text.specs.Scan.{Ends};
ghost use Rattle.tcl.specs.Join.{join};
ghost use Rattle.tcl.specs.Words.{span};
ghost use Rattle.entries.specs.Raw.{raw, until as Raw·until, state_of};

use tcl::join::{joined_by, joint};
use tcl::word::{deeper, quote_state};
use text::class::ends_plain;

// 1 as long as the byte that ends it is not there.
fn until(stop: bool) -> usize
    ensures { result ≡ Raw·until stop }
{
    if stop {
        return 0;
    }
    1
}

// The state behind a byte of what began with k: 0 where it ends. k is the byte itself, and a state counts open braces, so an enum is no plainer.
fn state(k: u8, d: usize, b: u8) -> usize
    requires { (1 ≤ d) × (d + 1 < 2 ^ 64) }
    ensures { (result ≡ state_of k d b) × (result ≤ d + 1) }
{
    if k == b'{' {
        return deeper(b'{', b'}', d, b);
    }
    if k == b'"' {
        return quote_state(d, b);
    }
    if k == b'[' {
        return deeper(b'[', b']', d, b);
    }
    if k == b'#' {
        return until(b == b'\n');
    }
    until(ends_plain(b))
}

// Where what began with k before `at` ends: the byte that ends it, or the end.
pub fn scan(v: &[u8], at: usize, k: u8) -> usize
    requires { at ≤ length v.now }
    ensures { Ends (at + raw (span (state_of k) 1 (join (drop at v.now))) (drop at v.now)) (length v.now) result }
{
    let mut i = at;
    let mut d: usize = 1;
    // Counted by hand: the place moves on by a whole piece, so an iterator is no plainer.
    while i < v.len() {
        let n = joint(v, i);
        d = state(k, d, joined_by(n, v[i]));
        if d == 0 {
            return i;
        }
        i = i + 1 + n;
    }
    i
}
