// create_supply_port, connect_supply_net.
#![tactic(auto)]

ghost use Rattle.std.specs.Prelude.{◌++◌, ◌≡◌, ◌<◌, ◌^◌};
ghost use Rattle.spans.specs.Span.{pairs};
ghost use Rattle.spans.specs.Reach.{span_end, last_of};
ghost use Rattle.args.specs.View.{words_from};
ghost use Rattle.model.specs.Commands.{port_command, connect_command};
ghost use Rattle.made.specs.Made.{Line, brief_of, Does};
ghost use Rattle.model.specs.Records.{Model};
ghost use Rattle.store.specs.declared.state.State.{State};
ghost use Rattle.portcmds.specs.Named.{BelowIs};
ghost use Rattle.portcmds.specs.Ports.{PortIs};
ghost use Rattle.spans.specs.Memory.{memory};

use args::argument::{name, option};
use made::{Brief, Deed};
use spans::span::Memory;
use store::row::Row;
use store::state::Port;
use store::stored::{Below, Stored, as_maybe, narrow, or_empty};
use text::part::Rows;

// "supply ports .. 32 of each"
const MOST_PORTS: usize = 32;

// The first word of the command, below the scope.
pub fn named_below(mem: &Memory, command: &Rows, scope: Stored) -> Below
    requires { last_of span_end (pairs command.now.rows.now 0 command.now.n) < 2 ^ 32 }
    ensures { BelowIs (memory mem.now) command.now.rows.now command.now.n scope result }
{
    let named = name(mem, command);
    Below {
        scope: scope,
        word: narrow(named),
    }
}

// The port that the words of a command name.
fn port<'a>(mem: &Memory<'a>, command: &Rows, scope: Stored) -> Port
    requires { last_of span_end (pairs command.now.rows.now 0 command.now.n) < 2 ^ 32 }
    ensures { PortIs (memory mem.now) command.now.rows.now command.now.n scope result }
{
    let named = named_below(mem, command, scope);
    let direction = option(mem, command, b"-direction");
    Port {
        name: named,
        direction: as_maybe(direction),
    }
}

// A supply port more.
pub fn create_supply_port<'a>(mem: &Memory<'a>, command: &Rows, b: Brief) -> Deed
    requires { Line command.now.rows.now command.now.n }
    ensures { Does mem.now.files.now mem.now.area.now command.now.rows.now command.now.n (λ (s : State). brief_of s ≡ b) result (λ (m : Model). port_command m (words_from (memory mem.now) command.now.rows.now command.now.n 1)) }
{
    if MOST_PORTS <= b.ports {
        return Deed::Full;
    }
    let p = port(mem, command, b.scope);
    Deed::Port(p)
}

// A row of connections more.
pub fn connect_supply_net<'a>(mem: &Memory<'a>, command: &Rows, b: Brief) -> Deed
    requires { Line command.now.rows.now command.now.n }
    ensures { Does mem.now.files.now mem.now.area.now command.now.rows.now command.now.n (λ (s : State). brief_of s ≡ b) result (λ (m : Model). connect_command m (words_from (memory mem.now) command.now.rows.now command.now.n 1)) }
{
    let named = name(mem, command);
    let ports = option(mem, command, b"-ports");
    let r = Row {
        kind: 1,
        scope: b.scope,
        name: narrow(named),
        value: or_empty(ports),
    };
    Deed::Row(r)
}
