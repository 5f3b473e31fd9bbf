// The module that an element leads to (the Rust's `module_at`, called for an element). The parts of the element between its slashes are
// looked up one after the other; the empty ones are left out.
#![tactic(auto)]

ghost use Rattle.std.specs.Prelude.{◌++◌, ◌<◌, ◌≤◌};
ghost use Rattle.names.specs.Name.{name_of};
ghost use Rattle.names.specs.Parts.{parts, first_part};
ghost use Rattle.jobindex.specs.Index.{module_row};
ghost use Rattle.design.specs.Lookup.{module_at};
ghost use Rattle.design.specs.Paths.{filled_parts};
ghost use Rattle.lookup.specs.Rows.{modules, ModuleSeen};
ghost use Rattle.memo.specs.Known.{slots, Known, Recalls, Asked, Begins};
ghost use Rattle.elements.specs.Down.{DownSeen, StepSeen};
ghost use Rattle.spans.specs.Memory.{memory};
ghost use Rattle.lookup.specs.Design.{modules_in};
ghost use Rattle.jobindex.specs.Modules.{module_in};

use jobindex::{Design, Index, Span};
use names::name::{Form, Name};
use names::part::Part;
use spans::span::Memory;

// An instance: where the lines begin whose first instance it is, its module's name, and what is left of the element behind its name.
#[derive(Clone, Copy)]
pub struct Down {
    pub at: usize,
    pub kind: Span,
    pub rest: Name,
}

// The slot of the memo for the first part of an element in module k.
#[tactic(auto, using(crate::proofs::Turns::slotted))]
fn slot(mem: &Memory, k: usize, e: Name) -> usize
    ensures { result < slots }
{
    let mut x = e;
    let mut h = k;
    while let Some((b, u)) = names::name::next(mem, x) {
        if b == b'/' {
            break;
        }
        h = h % 16777216 * 31 + b as usize;
        x = u;
    }
    h % 128
}

// Where to begin to look for the first part of an element in module k: at an instance of that name, where the memo has it.
#[inline(always)]
#[tactic(auto, using(crate::proofs::Turns::lookups))]
fn begin(index: &Index, k: usize, mem: &Memory, e: Name, memo: &[usize], h: usize) -> usize
    requires { Asked index.now.job.now index.now.rows.now memo.now k h }
    ensures { Begins index.now.job.now index.now.rows.now k (first_part (parts (name_of (memory mem.now) e))) result }
{
    let from = lookup::insts_from(index.rows, k);
    let Some(at) = memo::place_in(memo, h, k) else {
        return from;
    };
    let Some(inst) = lines::next_inst(index.job, at, lookup::insts_end(index.rows, k)) else {
        return from;
    };
    match names::part::next_part(mem, e, lines::part_of(index.job, inst.name)) {
        Part::Same(_) => at,
        Part::Last => at,
        Part::Other => from,
    }
}

// The first instance of module k whose name is the first part of an element, dimensions not looked at; none of that name is before `from`.
#[inline(always)]
#[tactic(auto, using(crate::proofs::Turns::downs))]
fn instance_at(index: &Index, k: usize, mem: &Memory, e: Name, from: usize) -> Option<Down>
    requires { Begins index.now.job.now index.now.rows.now k (first_part (parts (name_of (memory mem.now) e))) from }
    ensures { DownSeen index.now.job.now (memory mem.now) index.now.rows.now k (name_of (memory mem.now) e) result }
{
    let end = lookup::insts_end(index.rows, k);
    let mut at = from;
    while let Some(inst) = lines::next_inst(index.job, at, end) {
        let kind = inst.kind;
        match names::part::next_part(mem, e, lines::part_of(index.job, inst.name)) {
            Part::Same(rest) => return Some(Down { at, kind, rest }),
            Part::Last => {
                let none = spans::span::Span { at: 0, len: 0 };
                let rest = names::name::alone(none, Form::Word);
                return Some(Down { at, kind, rest });
            }
            Part::Other => at = inst.next,
        }
    }
    None
}

// The same with a memo, which then has the instance. A module of few lines is looked through without it.
#[inline(always)]
#[tactic(auto, using(crate::proofs::Turns::steps))]
fn step_down(index: &Index, k: usize, mem: &Memory, e: Name, memo: &mut [usize]) -> Option<Down>
    requires { Recalls index.now.job.now index.now.rows.now memo.old k }
    ensures { StepSeen index.now.job.now (memory mem.now) index.now.rows.now k (name_of (memory mem.now) e) result memo.new }
{
    let first = lookup::insts_from(index.rows, k);
    if lookup::insts_end(index.rows, k).saturating_sub(first) < 512 {
        return instance_at(index, k, mem, e, first);
    }
    let h = slot(mem, k, e);
    let from = begin(index, k, mem, e, memo, h);
    let down = instance_at(index, k, mem, e, from)?;
    memo::put(memo, h, k, down.at);
    Some(down)
}

// The module that an element leads to from module k, with a memo.
#[inline(always)]
#[tactic(auto, using(crate::proofs::Turns::goings))]
fn module_by(design: &Design, k: usize, mem: &Memory, e: Name, memo: &mut [usize]) -> Option<usize>
    requires { (design.now.count ≤ 128) × ((k < design.now.count) × Known design.now.index.job.now design.now.index.rows.now memo.old) }
    ensures { ModuleSeen design.now.index.job.now design.now.index.rows.now design.now.count (module_at (modules_in design.now) (module_in design.now.index k) (filled_parts (name_of (memory mem.now) e))) result }
{
    let mut m = k;
    let mut x = names::part::past_slashes(mem, e);
    while let Some((_, _)) = names::name::next(mem, x) {
        let down = step_down(&design.index, m, mem, x, memo)?;
        m = lookup::module_named(design, lines::part_of(design.index.job, down.kind))?;
        x = names::part::past_slashes(mem, down.rest);
    }
    Some(m)
}

// The module that an element leads to from module k. It and `targets::find_instance` have an empty memo alone in common: the walks give and promise
// other things, so that one function for both would be no plainer.
#[tactic(auto, using(crate::proofs::Turns::goings))]
pub fn element_module(design: &Design, k: usize, mem: &Memory, e: Name) -> Option<usize>
    requires { (design.now.count ≤ 128) × (k < design.now.count) }
    ensures { ModuleSeen design.now.index.job.now design.now.index.rows.now design.now.count (module_at (modules_in design.now) (module_in design.now.index k) (filled_parts (name_of (memory mem.now) e))) result }
{
    let mut memo = [0usize; 256];
    module_by(design, k, mem, e, &mut memo)
}
