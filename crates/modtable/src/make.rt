// The table made.
ghost use Rattle.std.specs.Prelude.{cond, ◌≤◌, None};
ghost use Rattle.fields.specs.Meant.{dims_is};
ghost use Rattle.lines.specs.Cursors.{spanned};
ghost use Rattle.lookup.specs.Rows.{modules, ModuleSeen};
ghost use Rattle.design.specs.Lookup.{module_named};
ghost use Rattle.modtable.specs.Table.{Tabled};
ghost use Rattle.modtable.specs.Making.{NamesGiven, NamesPut, WaysGiven, WaysPut, MakeGiven};
ghost use Rattle.lookup.specs.Design.{modules_in};

use super::inputs::{is_listed, put_inputs};
use super::part::{low, put_part};
use fields::Dims;
use jobindex::{Design, Index, Span};

// The names that module k loses. The first n of `inputs` are its non-output ports.
// n inputs are there: the numbers are lent for the most that a module can have.
#[tactic(auto, using(crate::proofs::Names::names))]
fn put_names(index: &Index, k: usize, inputs: &[u32], n: usize, table: &mut [u32])
    requires { NamesGiven index.now.job.now index.now.rows.now k inputs.now n table.old }
    ensures { NamesPut index.now.job.now index.now.rows.now k table.old table.new }
{
    let from = 578 * k + 1;
    let mut i = 0;
    let mut c = ports::first(index.rows, k);
    while let Some(own) = ports::next_candidate(index, k, c) {
        if is_listed(index.job, inputs, n, lines::part_of(index.job, own.name)) {
            c = own.next;
            continue;
        }
        put_part(table, from + 2 * i, own.name);
        i += 1;
        c = own.next;
    }
    table[578 * k] = low(i);
}

// The row of the module that the walk enters through an instance.
#[tactic(auto, using(crate::proofs::Ways::enters))]
fn entering(design: &Design, dims: Dims, kind: Span) -> Option<usize>
    requires { design.now.count ≤ 128 }
    ensures { ModuleSeen design.now.index.job.now design.now.index.rows.now design.now.count (cond (dims_is dims) None (module_named (modules_in design.now) (spanned design.now.index.job.now kind))) result }
{
    match dims {
        Dims::One => None,
        Dims::Zero => lookup::module_named(design, lines::part_of(design.index.job, kind)),
    }
}

// The instances of module k through which the walk goes down.
#[tactic(auto, using(crate::proofs::Ways::ways))]
fn put_ways(design: &Design, k: usize, table: &mut [u32])
    requires { WaysGiven design.now.index.job.now design.now.index.rows.now design.now.count k table.old }
    ensures { WaysPut design.now.index.job.now design.now.index.rows.now design.now.count k table.old table.new }
{
    let from = 578 * k + 386;
    let end = lookup::insts_end(design.index.rows, k);
    let mut at = lookup::insts_from(design.index.rows, k);
    let mut j = 0;
    while let Some(inst) = lines::next_inst(design.index.job, at, end) {
        let Some(row) = entering(design, inst.dims, inst.kind) else {
            at = inst.next;
            continue;
        };
        put_part(table, from + 3 * j, inst.name);
        table[from + 3 * j + 2] = low(row);
        j += 1;
        at = inst.next;
    }
    table[578 * k + 385] = low(j);
}

// The table of the first `count` modules. `inputs` is for the ports of the module at hand.
#[tactic(auto, using(crate::proofs::Modules::mades))]
pub fn make(design: &Design, inputs: &mut [u32], table: &mut [u32])
    requires { MakeGiven design.now.index.job.now design.now.index.rows.now design.now.count inputs.old table.old }
    ensures { Tabled design.now.index.job.now design.now.index.rows.now design.now.count table.new }
{
    for k in 0..design.count {
        let n = put_inputs(&design.index, k, inputs);
        put_names(&design.index, k, inputs, n, table);
        put_ways(design, k, table);
    }
}
