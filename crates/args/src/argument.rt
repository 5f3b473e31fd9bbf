// The positional words, the options and the flags behind a command's name.
ghost use Rattle.std.specs.Prelude.{◌≡◌, ◌++◌, cond, ◌+◌, ◌<◌, ◌^◌};
ghost use Rattle.text.specs.Compare.{same};
ghost use Rattle.spans.specs.Span.{bytes, pair_at};
ghost use Rattle.tcl.specs.Arguments.{positionals as Arguments·positionals, name_of, last_positional, option_of, has_flag};
ghost use Rattle.args.specs.View.{words_from, pick, Reads, Finds};
ghost use Rattle.spans.specs.Memory.{memory};

use super::role::{Role, role_at};
use spans::span::{Memory, Span, is, pair};
use text::part::Rows;

// Positional word k, from 0.
pub fn positional(mem: &Memory, command: &Rows, k: usize) -> Option<Span>
    ensures { Finds (memory mem.now) command.now.rows.now command.now.n (pick k (Arguments·positionals (words_from (memory mem.now) command.now.rows.now command.now.n 1))) result }
{
    let mut i = 1;
    let mut left = k;
    // Counted by hand: an option moves on by two words, so an iterator is no plainer.
    while i < command.n {
        match role_at(mem, command, i) {
            Role::Flag => i += 1,
            Role::Option => i += 2,
            Role::Positional => {
                if left == 0 {
                    return Some(pair(command.rows, i));
                }
                left -= 1;
                i += 1;
            }
        }
    }
    None
}

// The first positional word, empty where there is none.
pub fn name(mem: &Memory, command: &Rows) -> Span
    ensures { Reads (memory mem.now) command.now.rows.now command.now.n (name_of (words_from (memory mem.now) command.now.rows.now command.now.n 1)) result }
{
    positional(mem, command, 0).unwrap_or(Span { at: 0, len: 0 })
}

// The last positional word, empty where there is none.
pub fn last_positional(mem: &Memory, command: &Rows) -> Span
    ensures { Reads (memory mem.now) command.now.rows.now command.now.n (last_positional (words_from (memory mem.now) command.now.rows.now command.now.n 1)) result }
{
    let mut i = 1;
    let mut found = Span { at: 0, len: 0 };
    // Counted by hand: an option moves on by two words, so an iterator is no plainer.
    while i < command.n {
        match role_at(mem, command, i) {
            Role::Flag => i += 1,
            Role::Option => i += 2,
            Role::Positional => {
                found = pair(command.rows, i);
                i += 1;
            }
        }
    }
    found
}

// The value of option word i, where its key is this one; else what was found before.
fn newer<'a>(
    mem: &Memory<'a>,
    words: &[u32],
    i: usize,
    key: &[u8],
    found: Option<Span>,
) -> Option<Span>
    requires { i + 1 < 2 ^ 64 }
    ensures { result ≡ cond (same (bytes (memory mem.now) (pair_at words.now i)) key.now) (Some (pair_at words.now (i + 1))) found }
{
    if is(mem, pair(words, i), key) {
        return Some(pair(words, i + 1));
    }
    found
}

// The value of the option with this key, the last one where there are several.
pub fn option<'a>(mem: &Memory<'a>, command: &Rows, key: &[u8]) -> Option<Span>
    ensures { Finds (memory mem.now) command.now.rows.now command.now.n (option_of key.now (words_from (memory mem.now) command.now.rows.now command.now.n 1)) result }
{
    let mut i = 1;
    let mut found = None;
    // Counted by hand: an option moves on by two words, so an iterator is no plainer.
    while i < command.n {
        match role_at(mem, command, i) {
            Role::Flag => i += 1,
            Role::Positional => i += 1,
            Role::Option => {
                found = newer(mem, command.rows, i, key, found);
                i += 2;
            }
        }
    }
    found
}

// Whether the flag with this key is there.
pub fn flag<'a>(mem: &Memory<'a>, command: &Rows, key: &[u8]) -> bool
    ensures { result ≡ has_flag key.now (words_from (memory mem.now) command.now.rows.now command.now.n 1) }
{
    let mut i = 1;
    // Counted by hand: an option moves on by two words, so an iterator is no plainer.
    while i < command.n {
        match role_at(mem, command, i) {
            Role::Positional => i += 1,
            Role::Option => i += 2,
            Role::Flag => {
                if is(mem, pair(command.rows, i), key) {
                    return true;
                }
                i += 1;
            }
        }
    }
    false
}
