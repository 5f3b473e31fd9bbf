// create_pst, add_pst_state.
#![tactic(auto)]

ghost use Rattle.std.specs.Prelude.{◌++◌, ◌≡◌, ◌≤◌, ◌<◌, ◌^◌};
ghost use Rattle.spans.specs.Span.{pairs};
ghost use Rattle.spans.specs.Reach.{span_end, last_of};
ghost use Rattle.args.specs.View.{words_from};
ghost use Rattle.model.specs.Commands.{table_command, table_state_command};
ghost use Rattle.made.specs.Made.{Line, brief_of, Does};
ghost use Rattle.model.specs.Records.{Model};
ghost use Rattle.store.specs.declared.state.State.{State};
ghost use Rattle.tablecmds.specs.Tables.{TableIs};
ghost use Rattle.spans.specs.Memory.{memory};

use args::argument::{name, option};
use finddomain::first_named;
use made::{Brief, Deed};
use spans::span::Memory;
use store::row::Row;
use store::state::{Few, Table};
use store::stored::{Stored, narrow, or_empty};
use text::part::Rows;

// The table that the words of a command name.
fn table<'a>(mem: &Memory<'a>, command: &Rows, scope: Stored) -> Table
    requires { last_of span_end (pairs command.now.rows.now 0 command.now.n) < 2 ^ 32 }
    ensures { TableIs (memory mem.now) command.now.rows.now command.now.n scope result }
{
    let named = name(mem, command);
    let supplies = option(mem, command, b"-supplies");
    Table {
        name: narrow(named),
        scope: scope,
        supplies: or_empty(supplies),
    }
}

// A table more.
pub fn create_pst<'a>(mem: &Memory<'a>, command: &Rows, b: Brief) -> Deed
    requires { Line command.now.rows.now command.now.n }
    ensures { Does mem.now.files.now mem.now.area.now command.now.rows.now command.now.n (λ (s : State). brief_of s ≡ b) result (λ (m : Model). table_command m (words_from (memory mem.now) command.now.rows.now command.now.n 1)) }
{
    if 32 <= b.tables {
        return Deed::Full;
    }
    Deed::Table(table(mem, command, b.scope))
}

// A state of the first table of the name, as a row, or a warning.
pub fn add_pst_state<'a>(mem: &Memory<'a>, command: &Rows, b: Brief, t: Few<Table>) -> Deed
    requires { Line command.now.rows.now command.now.n × (t.n ≤ 32) }
    ensures { Does mem.now.files.now mem.now.area.now command.now.rows.now command.now.n (λ (s : State). (brief_of s ≡ b) × (s.tables ≡ t)) result (λ (m : Model). table_state_command m (words_from (memory mem.now) command.now.rows.now command.now.n 1)) }
{
    let table = or_empty(option(mem, command, b"-pst"));
    let i = first_named(mem, &t, table);
    if t.n <= i {
        return Deed::Warning(6, table);
    }
    let named = name(mem, command);
    let values = option(mem, command, b"-state");
    let of = Stored {
        at: i as u32,
        len: 0,
    };
    let r = Row {
        kind: 2,
        scope: of,
        name: narrow(named),
        value: or_empty(values),
    };
    Deed::Row(r)
}
