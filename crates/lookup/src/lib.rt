// Modules and instances by name, over the job and its index (the Rust's `instances` and `module_at`). A module is the number of its row.
#![tactic(auto)]

ghost use Rattle.std.specs.Prelude.{◌≡◌, ◌≤◌};
ghost use Rattle.lookup.specs.Rows.{ModuleSeen, InstanceSeen, modules, below, insts_from, insts_end};
ghost use Rattle.jobindex.specs.Index.{module_row};
ghost use Rattle.design.specs.Lookup.{module_named};
ghost use Rattle.lookup.specs.Design.{modules_in};
ghost use Rattle.jobindex.specs.Modules.{module_in};

use jobindex::{Design, Index};
use lines::InstAt;

// Where the instance lines of module k begin.
pub fn insts_from(index: &[u32], k: usize) -> usize
    requires { k ≤ 128 }
    ensures { result ≡ insts_from index.now k }
{
    text::part::place(index, 128 + 8 * k + 5)
}

// Where module k ends.
pub fn insts_end(index: &[u32], k: usize) -> usize
    requires { k ≤ 128 }
    ensures { result ≡ insts_end index.now k }
{
    text::part::place(index, 128 + 8 * k + 6)
}

// The first module of a name among the first `count`.
#[inline(always)]
#[tactic(auto, using(crate::proofs::Turns::module_turns))]
pub fn module_named(design: &Design, name: &[u8]) -> Option<usize>
    requires { design.now.count ≤ 128 }
    ensures { ModuleSeen design.now.index.job.now design.now.index.rows.now design.now.count (module_named (modules_in design.now) name.now) result }
{
    for k in 0..design.count {
        if text::compare::same(jobindex::name_at(&design.index, k), name) {
            return Some(k);
        }
    }
    None
}

// The first instance of a name in module k, dimensions not looked at.
#[tactic(auto, using(crate::proofs::Turns::inst_turns))]
pub fn instance_named(index: &Index, k: usize, name: &[u8]) -> Option<InstAt>
    requires { k ≤ 128 }
    ensures { InstanceSeen index.now.job.now index.now.rows.now k name.now result }
{
    let end = insts_end(index.rows, k);
    let mut at = insts_from(index.rows, k);
    while let Some(inst) = lines::next_inst(index.job, at, end) {
        if text::compare::same(lines::part_of(index.job, inst.name), name) {
            return Some(inst);
        }
        at = inst.next;
    }
    None
}

// The module of the instance of a name in module k.
#[tactic(auto, using(crate::proofs::Turns::belows))]
pub fn module_below(design: &Design, k: usize, name: &[u8]) -> Option<usize>
    requires { (design.now.count ≤ 128) × (k ≤ 128) }
    ensures { ModuleSeen design.now.index.job.now design.now.index.rows.now design.now.count (below (modules_in design.now) (module_in design.now.index k) name.now) result }
{
    let inst = instance_named(&design.index, k, name)?;
    module_named(design, lines::part_of(design.index.job, inst.kind))
}
