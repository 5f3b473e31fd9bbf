// The values that a command reads as lists, and how many entries they have.
#![tactic(auto)]

ghost use Rattle.std.specs.Prelude.{◌≡◌, ◌++◌, ◌≤◌, ltb, length};
ghost use Rattle.spans.specs.Span.{bytes, pair_at, strings};
ghost use Rattle.spans.specs.Reach.{Held};
ghost use Rattle.tcl.specs.Lists.{list};
ghost use Rattle.tcl.specs.Arguments.{option_of, states as Arguments·states};
ghost use Rattle.args.specs.View.{words_from};
ghost use Rattle.model.specs.Numbers.{named_by};
ghost use Rattle.cmdnames.specs.Table.{number_of};
ghost use Rattle.model.specs.Within.{state_values, entries_of, lists_by};
ghost use Rattle.lists.specs.Count.{counted, and_one, size_of, Counts};
ghost use Rattle.lists.specs.Values.{Whole, optional, switch_values};
ghost use Rattle.spans.specs.Memory.{memory};

use args::argument::option;
use args::state::state_at;
use cmdnames::Command;
use entries::item::count;
use spans::span::{Memory, Span};
use text::part::{Rows, part};

// The value as a part of whichever slice holds it; all of it, where it does not cross from one to the other. `fetch` of `spans` promises a front of any
// string; a clause that says both is no plainer.
#[tactic(auto, using(crate::proofs::Laws::parts))]
pub fn value<'a>(mem: &Memory<'a>, v: Span) -> &'a [u8]
    ensures { Held (length mem.now.files.now) v → result.now ≡ bytes (memory mem.now) v }
{
    let at = v.at;
    if at < mem.files.len() {
        return part(mem.files, at, v.len);
    }
    let k = at - mem.files.len();
    part(mem.area, k, v.len)
}

// Whether a value has an entry.
pub fn has_entries<'a>(mem: &Memory<'a>, v: Span) -> bool
    ensures { Held (length mem.now.files.now) v → result ≡ ltb 0 (length (list (bytes (memory mem.now) v))) }
{
    0 < count(value(mem, v))
}

// The entries of a value more.
#[tactic(auto, using(crate::proofs::Laws::one_64))]
fn and_value<'a>(mem: &Memory<'a>, v: Span, c: Option<usize>) -> Option<usize>
    requires { Held (length mem.now.files.now) v × (size_of c ≤ 1024) }
    ensures { result ≡ and_one (length (list (bytes (memory mem.now) v))) c }
{
    let t = c?;
    let k = count(value(mem, v));
    if 64 < k {
        return None;
    }
    if 1024 < t + k {
        return None;
    }
    Some(t + k)
}

// The entries of an option's value more.
fn and_option<'a>(mem: &Memory<'a>, command: &Rows, key: &[u8], c: Option<usize>) -> Option<usize>
    requires { Whole mem.now.files.now mem.now.area.now command.now.rows.now command.now.n × (size_of c ≤ 1024) }
    ensures { Counts (entries_of (optional (option_of key.now (words_from (memory mem.now) command.now.rows.now command.now.n 1)))) c result }
{
    match option(mem, command, key) {
        None => c,
        Some(v) => and_value(mem, v, c),
    }
}

// The entries of the values of states more.
#[tactic(auto, using(crate::proofs::Laws::lefts))]
fn and_states<'a>(
    mem: &Memory<'a>,
    command: &Rows,
    one: &[u8],
    two: &[u8],
    c: Option<usize>,
) -> Option<usize>
    requires { Whole mem.now.files.now mem.now.area.now command.now.rows.now command.now.n × (size_of c ≤ 1024) }
    ensures { Counts (entries_of (state_values (Arguments·states one.now two.now (strings (memory mem.now) command.now.rows.now 0 command.now.n)))) c result }
{
    let mut t = c;
    for k in 0..command.n {
        let Some((_, v)) = state_at(mem, command, one, two, k) else {
            return t;
        };
        t = and_value(mem, v, t);
    }
    t
}

// The entries of all values of a switch more.
fn and_switch<'a>(mem: &Memory<'a>, command: &Rows, c: Option<usize>) -> Option<usize>
    requires { Whole mem.now.files.now mem.now.area.now command.now.rows.now command.now.n × (size_of c ≤ 1024) }
    ensures { Counts (entries_of (switch_values (words_from (memory mem.now) command.now.rows.now command.now.n 1) (strings (memory mem.now) command.now.rows.now 0 command.now.n))) c result }
{
    let c1 = and_option(mem, command, b"-control_port", c);
    let c2 = and_states(mem, command, b"-on_state", b"-off_state", c1);
    let c3 = and_option(mem, command, b"-input_supply_port", c2);
    and_option(mem, command, b"-output_supply_port", c3)
}

// The entries of all that command c reads as lists more, `before` being those so far.
#[tactic(auto, using(crate::proofs::Laws::numbers))]
pub fn entries<'a>(mem: &Memory<'a>, command: &Rows, c: Command, before: usize) -> Option<usize>
    requires { Whole mem.now.files.now mem.now.area.now command.now.rows.now command.now.n × (before ≤ 1024) }
    ensures { result ≡ counted before (entries_of (lists_by (named_by (number_of c)) (bytes (memory mem.now) (pair_at command.now.rows.now 0)) (words_from (memory mem.now) command.now.rows.now command.now.n 1))) }
{
    let b = Some(before);
    match c {
        Command::CreatePowerDomain => and_option(mem, command, b"-elements", b),
        Command::ConnectSupplyNet => and_option(mem, command, b"-ports", b),
        Command::CreatePowerSwitch => and_switch(mem, command, b),
        Command::SetIsolation => and_option(mem, command, b"-elements", b),
        Command::SetRetention => and_option(mem, command, b"-elements", b),
        Command::AddPortState => and_states(mem, command, b"-state", b"-state", b),
        Command::CreatePst => and_option(mem, command, b"-supplies", b),
        Command::AddPstState => and_option(mem, command, b"-state", b),
        _ => b,
    }
}
