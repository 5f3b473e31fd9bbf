// Which words are options, flags and positional: decided here alone.
ghost use Rattle.std.specs.Prelude.{◌≡◌, ◌++◌, ◌+◌};
ghost use Rattle.spans.specs.Span.{bytes, pair_at};
ghost use Rattle.tcl.specs.Arguments.{is_option, with_value, role_of};
ghost use Rattle.args.specs.View.{words_from, role_as};
ghost use Rattle.spans.specs.Memory.{memory};

use spans::span::{Memory, Span, first, pair};
use text::class::is_digit;
use text::part::Rows;

// What a word is; an option has the word behind it as its value.
#[derive(Clone, Copy)]
pub enum Role {
    Positional,
    Flag,
    Option,
}

// Whether a word is `-` followed by a byte that is no digit.
#[inline(always)]
pub fn is_option(mem: &Memory, s: Span) -> bool
    ensures { result ≡ is_option (bytes (memory mem.now) s) }
{
    let Some((a, t)) = first(mem, s) else {
        return false;
    };
    if a != b'-' {
        return false;
    }
    let Some((b, _)) = first(mem, t) else {
        return false;
    };
    !is_digit(b)
}

// What word i of n is, which is like an option: by the word behind it.
#[inline(always)]
fn with_value(mem: &Memory, command: &Rows, i: usize) -> Role
    ensures { with_value (words_from (memory mem.now) command.now.rows.now command.now.n (i + 1)) ≡ role_as (bytes (memory mem.now) (pair_at command.now.rows.now (i + 1))) result }
{
    if command.n.saturating_sub(i) <= 1 {
        return Role::Flag;
    }
    if is_option(mem, pair(command.rows, i + 1)) {
        return Role::Flag;
    }
    Role::Option
}

// What word i of n is, where it is not the value of the word before it.
#[inline(always)]
pub fn role_at(mem: &Memory, command: &Rows, i: usize) -> Role
    ensures { role_of (bytes (memory mem.now) (pair_at command.now.rows.now i)) (words_from (memory mem.now) command.now.rows.now command.now.n (i + 1)) ≡ role_as (bytes (memory mem.now) (pair_at command.now.rows.now (i + 1))) result }
{
    if is_option(mem, pair(command.rows, i)) {
        return with_value(mem, command, i);
    }
    Role::Positional
}
