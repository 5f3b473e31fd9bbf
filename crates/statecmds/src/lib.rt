// create_power_switch, add_port_state: their states are words of the store.
#![tactic(auto)]

ghost use Rattle.std.specs.Prelude.{◌≡◌, ◌++◌, ◌+◌, ◌<◌, length};
ghost use Rattle.text.specs.Ascii.{ascii};
ghost use Rattle.spans.specs.Span.{bytes, pair_at, strings};
ghost use Rattle.tcl.specs.Arguments.{states};
ghost use Rattle.args.specs.View.{words_from};
ghost use Rattle.model.specs.Records.{Model};
ghost use Rattle.model.specs.Commands.{switch_command, port_state_command};
ghost use Rattle.statecmds.specs.Chosen.{chosen};
ghost use Rattle.statecmds.specs.Puts.{PutRoom, SwitchRoom};
ghost use Rattle.statecmds.specs.Stated.{Puts, SwitchIs, WordRoom, WordsDid};
ghost use Rattle.spans.specs.Memory.{memory};

use args::argument::{name, option};
use args::state::state_at;
use made::{Brief, Deed};
use spans::span::Memory;
use store::state::{PortState, Switch};
use store::stored::{Below, Stored, as_maybe, narrow, or_empty};
use store::word::put_word;
use text::part::Rows;

// Puts the states with the first key (`want`), or those with the second, into the store from word `at` on, and returns where they end.
fn put_states<'a>(
    mem: &Memory<'a>,
    command: &Rows,
    one: &[u8],
    two: &[u8],
    want: bool,
    nums: &mut [u32],
    at: usize,
) -> usize
    requires { PutRoom command.now.rows.now command.now.n nums.old (at + length (chosen want (states one.now two.now (strings (memory mem.now) command.now.rows.now 0 command.now.n)))) }
    ensures { Puts (memory mem.now) command.now.rows.now command.now.n (chosen want (states one.now two.now (strings (memory mem.now) command.now.rows.now 0 command.now.n))) nums.old nums.new at result }
{
    let mut o = at;
    for k in 0..command.n {
        let Some((first, v)) = state_at(mem, command, one, two, k) else {
            return o;
        };
        if first != want {
            continue;
        }
        put_word(nums, o, narrow(v));
        o += 1;
    }
    o
}

// The switch that the words of a command name; its states stand in the store from `first` up to `mid`, then up to `end`.
fn switch<'a>(
    mem: &Memory<'a>,
    command: &Rows,
    scope: Stored,
    first: usize,
    mid: usize,
    end: usize,
) -> Switch
    requires { SwitchRoom command.now.rows.now command.now.n first mid end }
    ensures { SwitchIs (memory mem.now) command.now.rows.now command.now.n scope first mid end result }
{
    let named = name(mem, command);
    let domain = option(mem, command, b"-domain");
    let input = option(mem, command, b"-input_supply_port");
    let output = option(mem, command, b"-output_supply_port");
    let controls = option(mem, command, b"-control_port");
    Switch {
        name: narrow(named),
        domain: as_maybe(domain),
        scope: scope,
        input: or_empty(input),
        output: or_empty(output),
        controls: or_empty(controls),
        first: first as u32,
        ons: (mid - first) as u32,
        offs: (end - mid) as u32,
    }
}

// A switch more, and the words of its states.
pub fn create_power_switch<'a>(mem: &Memory<'a>, command: &Rows, nums: &mut [u32], b: Brief) -> Deed
    requires { WordRoom (ascii "-on_state") (ascii "-off_state") (memory mem.now) command.now.rows.now command.now.n nums.old b }
    ensures { WordsDid mem.now.files.now mem.now.area.now command.now.rows.now command.now.n nums.old nums.new b result (λ (m : Model). switch_command m (bytes (memory mem.now) (pair_at command.now.rows.now 0)) (words_from (memory mem.now) command.now.rows.now command.now.n 1)) }
{
    if 32 <= b.switches {
        return Deed::Full;
    }
    let first = b.words;
    let mid = put_states(mem, command, b"-on_state", b"-off_state", true, nums, first);
    let end = put_states(mem, command, b"-on_state", b"-off_state", false, nums, mid);
    let x = switch(mem, command, b.scope, first, mid, end);
    Deed::Switch(x, end)
}

// A port state more, and the words of its states.
pub fn add_port_state<'a>(mem: &Memory<'a>, command: &Rows, nums: &mut [u32], b: Brief) -> Deed
    requires { WordRoom (ascii "-state") (ascii "-state") (memory mem.now) command.now.rows.now command.now.n nums.old b }
    ensures { WordsDid mem.now.files.now mem.now.area.now command.now.rows.now command.now.n nums.old nums.new b result (λ (m : Model). port_state_command m (bytes (memory mem.now) (pair_at command.now.rows.now 0)) (words_from (memory mem.now) command.now.rows.now command.now.n 1)) }
{
    if 32 <= b.portstates {
        return Deed::Full;
    }
    let first = b.words;
    let end = put_states(mem, command, b"-state", b"-state", true, nums, first);
    let named = name(mem, command);
    let x = PortState {
        name: Below {
            scope: b.scope,
            word: narrow(named),
        },
        first: first as u32,
        count: (end - first) as u32,
    };
    Deed::PortState(x, end)
}
