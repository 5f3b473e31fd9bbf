// Parts of byte strings, and single elements: nothing, or 0, where there is none.
ghost use Rattle.std.specs.Prelude.{◌≡◌, take, drop, get_or, length};

// A table of n rows in lent numbers.
#[derive(Clone, Copy)]
pub struct Rows<'a> {
    pub rows: &'a [u32],
    pub n: usize,
}

// The bytes of s from at on: len of them, or all that are there.
pub fn part(s: &[u8], at: usize, len: usize) -> &[u8]
    ensures { result.now ≡ take len (drop at s.now) }
{
    let after = rest(s, at);
    &after[..len.min(after.len())]
}

// The bytes of s from at on.
pub fn rest(s: &[u8], at: usize) -> &[u8]
    ensures { result.now ≡ drop at s.now }
{
    &s[at.min(s.len())..]
}

// The element at i, or d.
pub fn get_or<T: Copy>(s: &[T], i: usize, d: T) -> T
    ensures { result ≡ get_or s.now i d }
{
    s.get(i).copied().unwrap_or(d)
}

// The byte at i.
pub fn peek(s: &[u8], i: usize) -> u8
    ensures { result ≡ get_or s.now i 0 }
{
    get_or(s, i, 0)
}

// The number at i.
pub fn num(s: &[u32], i: usize) -> u32
    ensures { result ≡ get_or s.now i 0 }
{
    get_or(s, i, 0)
}

// A number as a place.
pub fn wide(x: u32) -> usize
    ensures { result ≡ x }
{
    x as usize
}

// The number at i, as a place.
pub fn place(s: &[u32], i: usize) -> usize
    ensures { result ≡ get_or s.now i 0 }
{
    wide(num(s, i))
}

// Writes `from` over `to`, which has as many bytes: a loop and no call of `memcpy`, so that what is exported from it asks nothing of its caller's program
// (`tests/oracle/layer` looks).
pub fn copy(to: &mut [u8], from: &[u8])
    requires { length to.old ≡ length from.now }
    ensures { to.new ≡ from.now }
{
    for i in 0..from.len() {
        to[i] = from[i];
    }
}
