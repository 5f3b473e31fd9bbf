// Scanning for a byte.
ghost use Rattle.std.specs.Prelude.{◌+◌, ◌≤◌, length, drop};
ghost use Rattle.text.specs.Scan.{Ends, up_to};

use memchr::memchr;

// The place of the first b from `at` on; the end where there is none.
pub fn find(s: &[u8], at: usize, b: u8) -> usize
    requires { at ≤ length s.now }
    ensures { Ends (at + up_to b (drop at s.now)) (length s.now) result }
{
    let after = &s[at..];
    at + after.iter().position(|x| *x == b).unwrap_or(after.len())
}

// The same as `find`, for a byte that is mostly far: many bytes at a time.
pub fn find_far(s: &[u8], at: usize, b: u8) -> usize
    requires { at ≤ length s.now }
    ensures { Ends (at + up_to b (drop at s.now)) (length s.now) result }
{
    let after = &s[at..];
    at + memchr(b, after).unwrap_or(after.len())
}
