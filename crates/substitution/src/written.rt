// A word as it is written, read byte by byte: of a quoted one the backslashes are dropped.
ghost use Rattle.std.specs.Prelude.{◌≡◌, cond, ◌+◌, ◌≤◌, ◌<◌, eqb, length, drop, get_or};
ghost use Rattle.text.specs.Scan.{before};
ghost use Rattle.tcl.specs.Substitution.{no_variable};
ghost use Rattle.substitution.specs.Written.{written, dropped_by, IsRun};

use text::class::is_variable;

// Some bytes of a written word: how many, and where they end.
#[derive(Clone, Copy)]
pub struct Run {
    pub size: usize,
    pub end: usize,
}

// How many bytes are dropped at i: 1 for a backslash in a quoted word that has a byte behind it.
pub fn dropped(body: &[u8], i: usize, quoted: bool) -> usize
    requires { i < length body.now }
    ensures { (result ≡ dropped_by quoted (drop i body.now)) × (i + result < length body.now) }
{
    if i + 1 < body.len() {
        if quoted & (body[i] == b'\\') {
            return 1;
        }
        return 0;
    }
    0
}

// The byte x, where it is the next one.
pub fn mark(body: &[u8], at: usize, quoted: bool, x: u8) -> Run
    requires { (at ≤ length body.now) × (1 ≤ x) }
    ensures { IsRun quoted body.now at (cond (eqb (get_or (written quoted (drop at body.now)) 0 0) x) 1 0) result }
{
    if at < body.len() {
        let e = dropped(body, at, quoted);
        let k = at + e;
        if body[k] == x {
            return Run {
                size: 1,
                end: at + 1 + e,
            };
        }
        return Run { size: 0, end: at };
    }
    Run { size: 0, end: at }
}

// The bytes of a variable's name.
pub fn name_run(body: &[u8], at: usize, quoted: bool) -> Run
    requires { at ≤ length body.now }
    ensures { IsRun quoted body.now at (before no_variable (written quoted (drop at body.now))) result }
{
    let mut i = at;
    let mut n = 0;
    // Counted by hand: the place moves on past a dropped byte too, so an iterator is no plainer.
    while i < body.len() {
        let e = dropped(body, i, quoted);
        let k = i + e;
        if is_variable(body[k]) {
            n += 1;
            i = i + 1 + e;
            continue;
        }
        return Run { size: n, end: i };
    }
    Run { size: n, end: i }
}
