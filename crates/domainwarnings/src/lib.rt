// The warnings about elements of domains that lead to no module.
#![tactic(auto)]

ghost use mathlib.Core.List.{[], ◌∷◌, ◌++◌, flat_map};
ghost use Rattle.std.specs.Prelude.{◌≤◌, ◌<◌, ◌^◌, length, take};
ghost use Rattle.jobindex.specs.Index.{module_row};
ghost use Rattle.lookup.specs.Rows.{modules};
ghost use Rattle.names.specs.Name.{name_of};
ghost use Rattle.nametable.specs.Table.{table_names};
ghost use Rattle.store.specs.Strings.{string};
ghost use Rattle.store.specs.View.{domain_of};
ghost use Rattle.domainwarnings.specs.Missing.{missing, remarks, Tells, OfElements, OfDomains};
ghost use Rattle.spans.specs.Memory.{memory};
ghost use Rattle.nametable.specs.Names.{names_in};
ghost use Rattle.lookup.specs.Design.{modules_in};
ghost use Rattle.jobindex.specs.Modules.{module_in};

use clamps::stored;
use domainlists::domain_elements;
use jobindex::Design;
use names::name::Name;
use nametable::row;
use out::emit::Text;
use spans::span::Memory;
use store::state::{Domain, Few};
use store::stored::Stored;
use text::part::Rows;

// Writes the warning about an element of a domain, where it leads to no module, behind `count` others: how many there are then.
fn warn_missing(
    to: &mut Text,
    count: usize,
    design: &Design,
    k: usize,
    mem: &Memory,
    domain: Stored,
    e: Name,
) -> usize
    requires { ((design.now.count ≤ 128) × (k < design.now.count)) × (count ≤ 2 ^ 62) }
    ensures { Tells 1 to.old count (missing (modules_in design.now) (module_in design.now.index k) (string (memory mem.now) domain) (name_of (memory mem.now) e ∷ [])) to.new result }
{
    if elements::element_module(design, k, mem, e).is_some() {
        return count;
    }
    nametexts::fill2(
        to,
        b"warning: power domain '{0}': element '{1}' not found\n",
        mem,
        stored(domain),
        e,
    );
    count + 1
}

// Writes the warnings about the elements of a domain, the names of a table.
fn missing_among(
    to: &mut Text,
    count: usize,
    design: &Design,
    k: usize,
    mem: &Memory,
    domain: Stored,
    elements: &Rows,
) -> usize
    requires { ((design.now.count ≤ 128) × (k < design.now.count)) × ((elements.now.n ≤ 65) × (count ≤ 2 ^ 61)) }
    ensures { Tells 65 to.old count (missing (modules_in design.now) (module_in design.now.index k) (string (memory mem.now) domain) (names_in (memory mem.now) elements.now)) to.new result }
{
    let mut told = count;
    for i in 0..elements.n {
        told = warn_missing(to, told, design, k, mem, domain, row(elements.rows, i));
    }
    told
}

// Writes the warnings about the elements of a domain, which go through a table.
fn not_found_by<'a>(
    to: &mut Text,
    count: usize,
    design: &Design,
    k: usize,
    mem: &Memory<'a>,
    d: Domain,
    elements: &mut [u32],
) -> usize
    requires { ((design.now.count ≤ 128) × (k < design.now.count)) × ((OfElements mem.now.files.now mem.now.area.now d × (325 ≤ length elements.old)) × (count ≤ 2 ^ 61)) }
    ensures { Tells 65 to.old count (missing (modules_in design.now) (module_in design.now.index k) (string (memory mem.now) d.name) (domain_of (memory mem.now) d).elements) to.new result }
{
    let name = d.name;
    let n = domain_elements(mem, d, elements);
    missing_among(to, count, design, k, mem, name, &Rows { rows: elements, n })
}

// Writes the warnings about the elements of a domain.
fn not_found<'a>(
    to: &mut Text,
    count: usize,
    design: &Design,
    k: usize,
    mem: &Memory<'a>,
    d: Domain,
) -> usize
    requires { ((design.now.count ≤ 128) × (k < design.now.count)) × (OfElements mem.now.files.now mem.now.area.now d × (count ≤ 2 ^ 61)) }
    ensures { Tells 65 to.old count (missing (modules_in design.now) (module_in design.now.index k) (string (memory mem.now) d.name) (domain_of (memory mem.now) d).elements) to.new result }
{
    let mut elements: [u32; 325] = [0; 325];
    not_found_by(to, count, design, k, mem, d, &mut elements)
}

// Writes the warnings about a domain: none where it has not both supplies.
fn of_domain<'a>(
    to: &mut Text,
    count: usize,
    design: &Design,
    k: usize,
    mem: &Memory<'a>,
    d: Domain,
) -> usize
    requires { ((design.now.count ≤ 128) × (k < design.now.count)) × (OfElements mem.now.files.now mem.now.area.now d × (count ≤ 2 ^ 61)) }
    ensures { Tells 65 to.old count (remarks (modules_in design.now) (module_in design.now.index k) (domain_of (memory mem.now) d)) to.new result }
{
    let power = d.power;
    let Some(_) = power else {
        return count;
    };
    let ground_net = d.ground_net;
    let Some(_) = ground_net else {
        return count;
    };
    not_found(to, count, design, k, mem, d)
}

// Writes the warnings about all domains behind `count` others: how many there are then.
pub fn domain_warnings<'a>(
    to: &mut Text,
    count: usize,
    design: &Design,
    k: usize,
    mem: &Memory<'a>,
    t: Few<Domain>,
) -> usize
    requires { ((design.now.count ≤ 128) × (k < design.now.count)) × (OfDomains mem.now.files.now mem.now.area.now t × (count ≤ 2 ^ 60)) }
    ensures { Tells 2080 to.old count (flat_map (λ d. remarks (modules_in design.now) (module_in design.now.index k) (domain_of (memory mem.now) d)) (take t.n t.all)) to.new result }
{
    let m = t.n;
    let mut told = count;
    for i in 0..m {
        let d = t.all[i];
        told = of_domain(to, told, design, k, mem, d);
    }
    told
}
