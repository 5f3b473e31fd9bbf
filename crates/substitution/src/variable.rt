// The variables: four numbers each, the spans of its name and of its value.
ghost use Rattle.std.specs.Prelude.{◌≡◌, ◌++◌, take, drop};
ghost use Rattle.text.specs.Compare.{same};
ghost use Rattle.spans.specs.Span.{bytes, found_of};
ghost use Rattle.tcl.specs.Substitution.{known as Substitution·known, lookup as Substitution·lookup};
ghost use Rattle.substitution.specs.Written.{written};
ghost use Rattle.substitution.specs.Stored.{name_at, value_at, variables};
ghost use Rattle.spans.specs.Memory.{memory};

use super::written::dropped;
use spans::span::{Memory, Span, first, is, pair};
use text::part::{Rows, part};

// The name of variable k.
pub fn name_of(vars: &[u32], k: usize) -> Span
    ensures { result ≡ name_at vars.now k }
{
    if vars.len() <= k {
        return Span { at: 0, len: 0 };
    }
    pair(vars, 2 * k)
}

// The value of variable k.
pub fn value_of(vars: &[u32], k: usize) -> Span
    ensures { result ≡ value_at vars.now k }
{
    if vars.len() <= k {
        return Span { at: 0, len: 0 };
    }
    pair(vars, 2 * k + 1)
}

// Whether `size` bytes of a written word from `at` on are the string s, byte by byte.
fn is_written(mem: &Memory, s: Span, body: &[u8], at: usize, size: usize, quoted: bool) -> bool
    ensures { result ≡ same (take size (written quoted (drop at body.now))) (bytes (memory mem.now) s) }
{
    let mut i = at;
    let mut left = size;
    let mut x = s;
    while let Some((b, u)) = first(mem, x) {
        if (left == 0) | (body.len() <= i) {
            return false;
        }
        let e = dropped(body, i, quoted);
        let k = i + e;
        if body[k] != b {
            return false;
        }
        i = i + 1 + e;
        left -= 1;
        x = u;
    }
    (left == 0) | (body.len() <= i)
}

// Whether `size` bytes of a written word from `at` on are the string s.
pub fn is_name<'a>(
    mem: &Memory<'a>,
    s: Span,
    body: &[u8],
    at: usize,
    size: usize,
    quoted: bool,
) -> bool
    ensures { result ≡ same (take size (written quoted (drop at body.now))) (bytes (memory mem.now) s) }
{
    if quoted {
        return is_written(mem, s, body, at, size, quoted);
    }
    is(mem, s, part(body, at, size))
}

// The value of the last of the first n variables that has this name.
fn last<'a>(
    mem: &Memory<'a>,
    vars: &Rows,
    body: &[u8],
    at: usize,
    size: usize,
    quoted: bool,
) -> Option<Span>
    ensures { found_of (memory mem.now) result ≡ Substitution·lookup (variables (memory mem.now) vars.now.rows.now vars.now.n) (take size (written quoted (drop at body.now))) }
{
    for k in (0..vars.n).rev() {
        if is_name(mem, name_of(vars.rows, k), body, at, size, quoted) {
            return Some(value_of(vars.rows, k));
        }
    }
    None
}

// The value of a name: none of an unknown or empty one.
pub fn lookup<'a>(
    mem: &Memory<'a>,
    vars: &Rows,
    body: &[u8],
    at: usize,
    size: usize,
    quoted: bool,
) -> Option<Span>
    ensures { found_of (memory mem.now) result ≡ Substitution·known (variables (memory mem.now) vars.now.rows.now vars.now.n) (take size (written quoted (drop at body.now))) }
{
    if (size == 0) | (body.len() <= at) {
        return None;
    }
    last(mem, vars, body, at, size, quoted)
}
