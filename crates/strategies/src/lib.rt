// A strategy with its elements: the ports that it covers, and its line.
#![tactic(auto)]

ghost use Rattle.std.specs.Prelude.{◌≤◌, ◌≡◌};
ghost use mathlib.Core.List.{◌++◌, flat_map};
ghost use Rattle.jobindex.specs.Index.{module_row};
ghost use Rattle.lookup.specs.Rows.{modules};
ghost use Rattle.names.specs.Name.{name_of};
ghost use Rattle.nametable.specs.Table.{table_names};
ghost use Rattle.store.specs.View.{isolation_of};
ghost use Rattle.isolated.specs.Table.{kept_in};
ghost use Rattle.keep.specs.Covered.{Ready, Answer};
ghost use Rattle.cover.specs.Found.{Asks};
ghost use Rattle.coverall.specs.Elements.{aims_for};
ghost use Rattle.strategies.specs.Gains.{covered_gain};
ghost use Rattle.strategies.specs.Values.{given_name, strategy_of};
ghost use Rattle.spans.specs.Memory.{memory};
ghost use Rattle.nametable.specs.Names.{names_in};
ghost use Rattle.lookup.specs.Design.{modules_in};
ghost use Rattle.jobindex.specs.Modules.{module_in};

use clamps::stored;
use cover::Strategy;
use coverall::cover_all;
use jobindex::Design;
use keep::Cover;
use names::name::Name;
use refs::no_name;
use remarks::line;
use spans::span::Memory;
use store::state::Isolation;
use store::stored::Stored;
use text::part::Rows;

// What is given, as a name.
pub fn given(m: Option<Stored>) -> Name
    ensures { result ≡ given_name m }
{
    m.map_or(no_name(), stored)
}

// A strategy by its number, with its name.
fn by_number(number: usize, x: Isolation) -> Strategy
    ensures { result ≡ strategy_of number x }
{
    let own = x.name;
    Strategy {
        number: number,
        name: stored(own),
    }
}

// A strategy with these elements, each an instance where `outputs` is set, and its line.
pub fn in_elements<'a>(
    out: &mut [u8],
    warn: bool,
    design: &Design,
    k: usize,
    mem: &Memory<'a>,
    ports: &mut [u32],
    c: Cover,
    number: usize,
    x: Isolation,
    signal: Name,
    outputs: bool,
    table: &Rows,
) -> Cover
    requires { Ready c ports.old × (Asks design.now.index.job.now mem.now.files.now mem.now.area.now design.now.count k number × (table.now.n ≤ 65536)) }
    ensures { Answer design.now.index.job.now (memory mem.now) warn c out.old (covered_gain number (isolation_of (memory mem.now) x) (name_of (memory mem.now) signal) (flat_map (aims_for outputs (modules_in design.now) (module_in design.now.index k)) (names_in (memory mem.now) table.now)) (kept_in design.now.index.job.now (memory mem.now) ports.old c.ports)) result out.new ports.new }
{
    let s = by_number(number, x);
    let a = cover_all(out, warn, design, k, mem, ports, c, s, outputs, table);
    if a.over {
        return a;
    }
    line(out, warn, design.index.job, mem, a, x, signal)
}
