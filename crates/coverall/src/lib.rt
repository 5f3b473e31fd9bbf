// The ports that a strategy covers, by a table of elements.
#![tactic(auto)]

ghost use Rattle.std.specs.Prelude.{◌≤◌};
ghost use mathlib.Core.List.{◌++◌, flat_map};
ghost use Rattle.jobindex.specs.Index.{module_row};
ghost use Rattle.lookup.specs.Rows.{modules};
ghost use Rattle.names.specs.Name.{name_of};
ghost use Rattle.nametable.specs.Table.{table_names};
ghost use Rattle.isolated.specs.Table.{kept_in};
ghost use Rattle.keep.specs.Covered.{Ready, Answer};
ghost use Rattle.keep.specs.Gains.{gains};
ghost use Rattle.cover.specs.Found.{Asks};
ghost use Rattle.coverall.specs.Elements.{aims_for};
ghost use Rattle.spans.specs.Memory.{memory};
ghost use Rattle.nametable.specs.Names.{names_in};
ghost use Rattle.lookup.specs.Design.{modules_in};
ghost use Rattle.jobindex.specs.Modules.{module_in};

use cover::{Strategy, cover_element, cover_outputs};
use jobindex::Design;
use keep::Cover;
use names::name::Name;
use nametable::row;
use spans::span::Memory;
use text::part::Rows;

// An element: its output ports where `outputs` is set, else as it is written.
fn cover_one<'a>(
    out: &mut [u8],
    warn: bool,
    design: &Design,
    k: usize,
    mem: &Memory<'a>,
    ports: &mut [u32],
    c: Cover,
    s: Strategy,
    outputs: bool,
    e: Name,
) -> Cover
    requires { Ready c ports.old × Asks design.now.index.job.now mem.now.files.now mem.now.area.now design.now.count k s.number }
    ensures { Answer design.now.index.job.now (memory mem.now) warn c out.old (gains s.number (name_of (memory mem.now) s.name) (aims_for outputs (modules_in design.now) (module_in design.now.index k) (name_of (memory mem.now) e)) (kept_in design.now.index.job.now (memory mem.now) ports.old c.ports)) result out.new ports.new }
{
    if outputs {
        return cover_outputs(out, warn, design, k, mem, ports, c, s, e);
    }
    cover_element(out, warn, design, k, mem, ports, c, s, e)
}

// Each of the first n elements of a table.
pub fn cover_all<'a>(
    out: &mut [u8],
    warn: bool,
    design: &Design,
    k: usize,
    mem: &Memory<'a>,
    ports: &mut [u32],
    c: Cover,
    s: Strategy,
    outputs: bool,
    table: &Rows,
) -> Cover
    requires { Ready c ports.old × (Asks design.now.index.job.now mem.now.files.now mem.now.area.now design.now.count k s.number × (table.now.n ≤ 65536)) }
    ensures { Answer design.now.index.job.now (memory mem.now) warn c out.old (gains s.number (name_of (memory mem.now) s.name) (flat_map (aims_for outputs (modules_in design.now) (module_in design.now.index k)) (names_in (memory mem.now) table.now)) (kept_in design.now.index.job.now (memory mem.now) ports.old c.ports)) result out.new ports.new }
{
    let mut x = c;
    for i in 0..table.n {
        let e = row(table.rows, i);
        x = cover_one(out, warn, design, k, mem, ports, x, s, outputs, e);
        if x.over {
            return x;
        }
    }
    x
}
