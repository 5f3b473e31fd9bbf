// What a domain loses: the walk from its stored elements.
#![tactic(auto)]

ghost use Rattle.std.specs.Prelude.{◌++◌, ◌≤◌, length};
ghost use Rattle.jobindex.specs.Index.{module_row};
ghost use Rattle.lookup.specs.Rows.{modules};
ghost use Rattle.nametable.specs.Table.{table_names};
ghost use Rattle.domainpaths.specs.Losses.{OfWalk, Loses};
ghost use Rattle.spans.specs.Memory.{memory};
ghost use Rattle.lookup.specs.Design.{modules_in};
ghost use Rattle.jobindex.specs.Modules.{module_in};

use corrupt::domain_paths;
use domainlists::domain_elements;
use jobindex::Design;
use listing::Walk;
use spans::span::Memory;
use store::state::Domain;
use text::part::Rows;

// How far the walk of a domain has come, and how many elements the domain has.
#[derive(Clone, Copy)]
pub struct Loss {
    pub walk: Walk,
    pub elements: usize,
}

// A limit of the walk is passed; the domain's elements stand in the table all the same, as many as this.
#[derive(Clone, Copy, Debug, PartialEq, Eq)]
pub struct Passed {
    pub elements: usize,
}

// What a domain loses: its elements into a table, the listed paths into text and ends. `stamp` is no earlier walk's, so that fewer paths are compared.
pub fn lost<'a>(
    design: &Design,
    k: usize,
    table: &[u32],
    mem: &Memory<'a>,
    retained: &[u32],
    kept: usize,
    d: Domain,
    prefix: usize,
    elements: &mut [u32],
    tail: &mut [u8],
    text: &mut [u8],
    ends: &mut [u32],
    stamp: u32,
) -> Result<Loss, Passed>
    requires { OfWalk design.now.index.job.now design.now.index.rows.now design.now.count k table.now mem.now.files.now mem.now.area.now kept d prefix tail.old text.old ends.old × (325 ≤ length elements.old) }
    ensures { Loses (modules_in design.now) (module_in design.now.index k) (memory mem.now) (table_names (memory mem.now) retained.now kept) d prefix elements.new text.new ends.new result }
{
    let m = domain_elements(mem, d, elements);
    match domain_paths(
        design,
        k,
        table,
        mem,
        &Rows {
            rows: retained,
            n: kept,
        },
        0 < prefix,
        &Rows {
            rows: elements,
            n: m,
        },
        prefix,
        tail,
        text,
        ends,
        stamp,
    ) {
        Err(_) => Err(Passed { elements: m }),
        Ok(walk) => Ok(Loss { walk, elements: m }),
    }
}
