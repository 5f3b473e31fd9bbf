// Templates in the Rust's own syntax, filled: see specs/Fill.antt for the places.
ghost use Rattle.std.specs.Prelude.{◌≡◌, true, [], ◌+◌, ◌≤◌, ◌<◌, length, drop};
ghost use Rattle.text.specs.Scan.{Ends, Free, before};
ghost use Rattle.out.specs.Emit.{◌▸◌, emit};
ghost use Rattle.out.specs.Text.{Writes};
ghost use Rattle.out.specs.Fill.{asked, arg, is_template, is_brace, mark_text, mark_size, fill as Fill·fill};

use super::bytewise::Mode;
use super::emit::Text;
use text::part::peek;

// What a letter between braces asks for: how its argument is written, and that argument's number.
pub fn asked(k: u8) -> Option<(Mode, usize)>
    ensures { result ≡ asked k }
{
    if (b'0' <= k) & (k <= b'4') {
        return Some((Mode::Same, (k - b'0') as usize));
    }
    if (b'A' <= k) & (k <= b'E') {
        return Some((Mode::Quoted, (k - b'A') as usize));
    }
    if (b'a' <= k) & (k <= b'e') {
        return Some((Mode::Mangled, (k - b'a') as usize));
    }
    if (b'p' <= k) & (k <= b't') {
        return Some((Mode::Dotted, (k - b'p') as usize));
    }
    None
}

fn is_brace(b: u8) -> bool
    ensures { result ≡ is_brace b }
{
    (b == b'{') | (b == b'}')
}

// Whether eight bytes of t from i on all stand before the braces in ASCII: then none is a brace.
fn eight_plain(t: &[u8], i: usize) -> bool
    requires { i + 8 ≤ length t.now }
    ensures { Free is_brace t.now i 8 result }
{
    (t[i] < b'{')
        & (t[i + 1] < b'{')
        & (t[i + 2] < b'{')
        & (t[i + 3] < b'{')
        & (t[i + 4] < b'{')
        & (t[i + 5] < b'{')
        & (t[i + 6] < b'{')
        & (t[i + 7] < b'{')
}

// Where the run of plain bytes that begins at `at` ends, byte by byte.
// As `plain_end` of `tcl::word` with another test: one function for both takes the test as a closure, which is no plainer.
fn run_end_each(t: &[u8], at: usize) -> usize
    requires { at ≤ length t.now }
    ensures { Ends (at + before is_brace (drop at t.now)) (length t.now) result }
{
    for i in at..t.len() {
        if is_brace(t[i]) {
            return i;
        }
    }
    t.len()
}

// Where the run of plain bytes that begins at `at` ends.
pub fn run_end(t: &[u8], at: usize) -> usize
    requires { at ≤ length t.now }
    ensures { Ends (at + before is_brace (drop at t.now)) (length t.now) result }
{
    // Counted by hand: eight bytes at a time are faster than a scan byte by byte.
    let mut i = at;
    while 8 <= t.len() - i {
        if !eight_plain(t, i) {
            return run_end_each(t, i);
        }
        i += 8;
    }
    run_end_each(t, i)
}

// Where the mark at i ends.
pub fn mark_end(t: &[u8], i: usize) -> usize
    requires { i ≤ length t.now }
    ensures { result ≡ i + mark_size (drop i t.now) }
{
    if t.len() <= i {
        return i;
    }
    if t[i] == b'}' {
        return i + 2;
    }
    if peek(t, i + 1) == b'{' {
        return i + 2;
    }
    i + 3
}

impl Text<'_> {
    // What a byte between braces stands for.
    fn argument<'a>(
        &mut self,
        k: u8,
        a: &'a [u8],
        b: &'a [u8],
        c: &'a [u8],
        d: &'a [u8],
        e: &'a [u8],
    )
        ensures { Writes self.old (arg a.now b.now c.now d.now e.now k) self.new }
    {
        let Some((m, j)) = asked(k) else {
            return;
        };
        let all = [a, b, c, d, e];
        let p = all[j];
        match m {
            Mode::Same => self.put(p),
            _ => self.flat(m, p),
        }
    }

    // What the mark at i adds: nothing at the end.
    fn mark<'a>(
        &mut self,
        t: &[u8],
        i: usize,
        a: &'a [u8],
        b: &'a [u8],
        c: &'a [u8],
        d: &'a [u8],
        e: &'a [u8],
    )
        requires { i ≤ length t.now }
        ensures { Writes self.old (mark_text (arg a.now b.now c.now d.now e.now) (drop i t.now)) self.new }
    {
        if t.len() <= i {
            return;
        }
        if t[i] == b'}' {
            return self.byte(b'}');
        }
        let k = peek(t, i + 1);
        if k == b'{' {
            return self.byte(b'{');
        }
        self.argument(k, a, b, c, d, e)
    }

    // Writes the template t with its five arguments in their places.
    pub fn fill<'a>(
        &mut self,
        t: &[u8],
        a: &'a [u8],
        b: &'a [u8],
        c: &'a [u8],
        d: &'a [u8],
        e: &'a [u8],
    )
        requires { is_template 5 t.now ≡ true }
        ensures { Writes self.old (Fill·fill t.now a.now b.now c.now d.now e.now) self.new }
    {
        self.write(t, a, b, c, d, e)
    }

    // The same of any text.
    fn write<'a>(
        &mut self,
        t: &[u8],
        a: &'a [u8],
        b: &'a [u8],
        c: &'a [u8],
        d: &'a [u8],
        e: &'a [u8],
    )
        ensures { Writes self.old (Fill·fill t.now a.now b.now c.now d.now e.now) self.new }
    {
        // Counted by hand: the place moves by a run's and a mark's length, so an iterator is no plainer.
        let mut i = 0;
        while i < t.len() {
            let z = run_end(t, i);
            let run = &t[i..z];
            self.put(run);
            self.mark(t, z, a, b, c, d, e);
            i = mark_end(t, z);
        }
    }

    // With one argument. A name for each number of arguments: a clause can then name each argument.
    pub fn fill1(&mut self, t: &[u8], a: &[u8])
        requires { is_template 1 t.now ≡ true }
        ensures { Writes self.old (Fill·fill t.now a.now [] [] [] []) self.new }
    {
        self.write(t, a, b"", b"", b"", b"")
    }

    // With two.
    pub fn fill2<'a>(&mut self, t: &[u8], a: &'a [u8], b: &'a [u8])
        requires { is_template 2 t.now ≡ true }
        ensures { Writes self.old (Fill·fill t.now a.now b.now [] [] []) self.new }
    {
        self.write(t, a, b, b"", b"", b"")
    }

    // With three.
    pub fn fill3<'a>(&mut self, t: &[u8], a: &'a [u8], b: &'a [u8], c: &'a [u8])
        requires { is_template 3 t.now ≡ true }
        ensures { Writes self.old (Fill·fill t.now a.now b.now c.now [] []) self.new }
    {
        self.write(t, a, b, c, b"", b"")
    }

    // With four.
    pub fn fill4<'a>(&mut self, t: &[u8], a: &'a [u8], b: &'a [u8], c: &'a [u8], d: &'a [u8])
        requires { is_template 4 t.now ≡ true }
        ensures { Writes self.old (Fill·fill t.now a.now b.now c.now d.now []) self.new }
    {
        self.write(t, a, b, c, d, b"")
    }
}

// The same over a buffer and a place.
pub fn fill3<'a>(
    out: &mut [u8],
    at: usize,
    t: &[u8],
    a: &'a [u8],
    b: &'a [u8],
    c: &'a [u8],
) -> usize
    requires { is_template 3 t.now ≡ true }
    ensures { out.new ▸ result ≡ emit (out.old ▸ at) (Fill·fill t.now a.now b.now c.now [] []) }
{
    let mut to = Text::over(out, at);
    to.fill3(t, a, b, c);
    to.end()
}
