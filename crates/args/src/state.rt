// The states of `create_power_switch` and `add_port_state`: the raw word behind each key, even one like an option.
ghost use Rattle.std.specs.Prelude.{◌++◌, ◌+◌};
ghost use Rattle.tcl.specs.Arguments.{state_of, states as Arguments·states};
ghost use Rattle.spans.specs.Span.{bytes, pair_at, strings};
ghost use Rattle.args.specs.View.{words_from, pick, StateHere, States};
ghost use Rattle.spans.specs.Memory.{memory};

use spans::span::{Memory, Span, is, pair};
use text::part::Rows;

// The state whose key word i of n is; none where it is no key, or the last word.
fn state_here<'a>(
    mem: &Memory<'a>,
    command: &Rows,
    one: &[u8],
    two: &[u8],
    i: usize,
) -> Option<(bool, Span)>
    ensures { StateHere (memory mem.now) command.now.rows.now command.now.n (state_of one.now two.now (bytes (memory mem.now) (pair_at command.now.rows.now i)) (words_from (memory mem.now) command.now.rows.now command.now.n (i + 1))) result }
{
    if command.n.saturating_sub(i) <= 1 {
        return None;
    }
    if is(mem, pair(command.rows, i), one) {
        return Some((true, pair(command.rows, i + 1)));
    }
    if is(mem, pair(command.rows, i), two) {
        return Some((false, pair(command.rows, i + 1)));
    }
    None
}

// State k of a command's words, its name included; where there is one key only it is given twice.
pub fn state_at<'a>(
    mem: &Memory<'a>,
    command: &Rows,
    one: &[u8],
    two: &[u8],
    k: usize,
) -> Option<(bool, Span)>
    ensures { States (memory mem.now) command.now.rows.now command.now.n (pick k (Arguments·states one.now two.now (strings (memory mem.now) command.now.rows.now 0 command.now.n))) result }
{
    let mut i = 0;
    let mut left = k;
    // Counted by hand: a key moves on by two words, so an iterator is no plainer.
    while i < command.n {
        match state_here(mem, command, one, two, i) {
            None => i += 1,
            Some((first, s)) => {
                if left == 0 {
                    return Some((first, s));
                }
                left -= 1;
                i += 2;
            }
        }
    }
    None
}
