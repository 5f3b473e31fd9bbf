// The words of a joined text, each as a part of the text.
ghost use Rattle.std.specs.Prelude.{◌≡◌, false, ◌+◌, ◌≤◌, ◌<◌, ◌^◌, length, take, drop, get_or};
ghost use Rattle.text.specs.Ascii.{byte};
ghost use Rattle.text.specs.Classes.{ends_plain};
ghost use Rattle.text.specs.Scan.{Ends, before};
ghost use Rattle.tcl.specs.Words.{depth, inside, quote_state, quote_size, kind_of, size_of};

use text::class::ends_plain;

// How deep a nest is behind a byte.
pub fn deeper(op: u8, cl: u8, d: usize, b: u8) -> usize
    requires { (1 ≤ d) × (d + 1 < 2 ^ 64) }
    ensures { (result ≡ depth op cl d b) × (result ≤ d + 1) }
{
    if b == op {
        return d + 1;
    }
    if b == cl {
        return d - 1;
    }
    d
}

// Where the nest that was opened before `at` is closed: the end, where it is not.
fn close_at(s: &[u8], at: usize, op: u8, cl: u8) -> usize
    requires { at ≤ length s.now }
    ensures { Ends (at + inside op cl (drop at s.now)) (length s.now) result }
{
    let mut d: usize = 1;
    for i in at..s.len() {
        d = deeper(op, cl, d, s[i]);
        if d == 0 {
            return i;
        }
    }
    s.len()
}

// In a quoted word: 1, or 2 behind a backslash; 0 where it is closed.
pub fn quote_state(d: usize, b: u8) -> usize
    ensures { result ≡ quote_state d b }
{
    if d == 2 {
        return 1;
    }
    if b == b'"' {
        return 0;
    }
    if b == b'\\' {
        return 2;
    }
    1
}

// Where the quoted word whose body begins at `at` is closed: the end, where it is not.
// A loop of its own beside `close_at`: its step takes no brackets, and a step that is passed in is no plainer.
fn quote_end(s: &[u8], at: usize) -> usize
    requires { at ≤ length s.now }
    ensures { Ends (at + quote_size (drop at s.now)) (length s.now) result }
{
    let mut d: usize = 1;
    for i in at..s.len() {
        d = quote_state(d, s[i]);
        if d == 0 {
            return i;
        }
    }
    s.len()
}

// Where the plain word from `at` on ends.
// As `run_end_each` of `out::template` with another test: one function for both takes the test as a closure, which is no plainer.
fn plain_end(s: &[u8], at: usize) -> usize
    requires { at ≤ length s.now }
    ensures { Ends (at + before ends_plain (drop at s.now)) (length s.now) result }
{
    for i in at..s.len() {
        if ends_plain(s[i]) {
            return i;
        }
    }
    s.len()
}

// The braced word whose `{` is at `at`, without its braces.
pub fn braced(text: &[u8], at: usize) -> &[u8]
    requires { at < length text.now }
    ensures { result.now ≡ take (inside (byte "{") (byte "}") (drop (at + 1) text.now)) (drop (at + 1) text.now) }
{
    let a = at + 1;
    let e = close_at(text, a, b'{', b'}');
    &text[a..e]
}

// The quoted word whose `"` is at `at`, as it is written between its quotes.
pub fn quoted(text: &[u8], at: usize) -> &[u8]
    requires { at < length text.now }
    ensures { result.now ≡ take (quote_size (drop (at + 1) text.now)) (drop (at + 1) text.now) }
{
    let a = at + 1;
    let e = quote_end(text, a);
    &text[a..e]
}

// What the brackets of the word whose `[` is at `at` hold.
pub fn bracketed(text: &[u8], at: usize) -> &[u8]
    requires { at < length text.now }
    ensures { result.now ≡ take (inside (byte "[") (byte "]") (drop (at + 1) text.now)) (drop (at + 1) text.now) }
{
    let a = at + 1;
    let e = close_at(text, a, b'[', b']');
    &text[a..e]
}

// The plain word that goes on at `at`.
pub fn plain(text: &[u8], at: usize) -> &[u8]
    requires { at ≤ length text.now }
    ensures { result.now ≡ take (before ends_plain (drop at text.now)) (drop at text.now) }
{
    let e = plain_end(text, at);
    &text[at..e]
}

// How many bytes the word at `at` has with its marks; an unclosed one counts the byte that would close it.
pub fn size(text: &[u8], at: usize) -> usize
    requires { (at < length text.now) × (ends_plain (get_or text.now at 0) ≡ false) }
    ensures { (result ≡ 1 + size_of (kind_of false (get_or text.now at 0)) (drop (at + 1) text.now)) × (at + result ≤ length text.now + 1) }
{
    let c = text[at];
    if c == b'{' {
        return braced(text, at).len() + 2;
    }
    if c == b'"' {
        return quoted(text, at).len() + 2;
    }
    if c == b'[' {
        return bracketed(text, at).len() + 2;
    }
    plain(text, at + 1).len() + 1
}
