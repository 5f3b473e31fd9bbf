// A strategy of a known domain: its own elements, or those of the domain.
#![tactic(auto)]

ghost use Rattle.std.specs.Prelude.{true, false};
ghost use mathlib.Core.List.{◌++◌, flat_map};
ghost use Rattle.jobindex.specs.Index.{module_row};
ghost use Rattle.lookup.specs.Rows.{modules};
ghost use Rattle.names.specs.Name.{name_of};
ghost use Rattle.store.specs.Strings.{span_of};
ghost use Rattle.store.specs.View.{domain_of, isolation_of};
ghost use Rattle.isolated.specs.Table.{kept_in};
ghost use Rattle.keep.specs.Covered.{Ready, Answer};
ghost use Rattle.cover.specs.Found.{Asks};
ghost use Rattle.coverall.specs.Elements.{aims_for};
ghost use Rattle.strategies.specs.Gains.{covered_gain, domain_gain};
ghost use Rattle.listnames.specs.Lists.{Rooms};
ghost use Rattle.domainlists.specs.Lists.{OfDomain};
ghost use Rattle.indomain.specs.Asked.{OfOwn, OfStrategy};
ghost use Rattle.spans.specs.Memory.{memory};
ghost use Rattle.lookup.specs.Design.{modules_in};
ghost use Rattle.jobindex.specs.Modules.{module_in};

use clamps::{is_outputs, stored};
use domainlists::{domain_elements, put_below};
use jobindex::Design;
use keep::Cover;
use lists::has_entries;
use names::name::Name;
use remarks::not_outputs;
use spans::span::{Memory, Span};
use store::state::{Domain, Isolation};
use strategies::{given, in_elements};
use text::part::Rows;

// The ports that a strategy's own elements are, which go through a table.
fn own_by<'a>(
    out: &mut [u8],
    warn: bool,
    design: &Design,
    k: usize,
    mem: &Memory<'a>,
    ports: &mut [u32],
    c: Cover,
    number: usize,
    x: Isolation,
    signal: Name,
    table: &mut [u32],
) -> Cover
    requires { Ready c ports.old × (Asks design.now.index.job.now mem.now.files.now mem.now.area.now design.now.count k number × Rooms mem.now.files.now mem.now.area.now (span_of x.scope) (span_of x.elements) table.old 0) }
    ensures { Answer design.now.index.job.now (memory mem.now) warn c out.old (covered_gain number (isolation_of (memory mem.now) x) (name_of (memory mem.now) signal) (flat_map (aims_for false (modules_in design.now) (module_in design.now.index k)) (isolation_of (memory mem.now) x).elements) (kept_in design.now.index.job.now (memory mem.now) ports.old c.ports)) result out.new ports.new }
{
    let scope = x.scope;
    let elements = x.elements;
    let n = put_below(mem, scope, elements, table, 0);
    in_elements(
        out,
        warn,
        design,
        k,
        mem,
        ports,
        c,
        number,
        x,
        signal,
        false,
        &Rows { rows: table, n },
    )
}

// The ports that a strategy's own elements are.
fn own_elements<'a>(
    out: &mut [u8],
    warn: bool,
    design: &Design,
    k: usize,
    mem: &Memory<'a>,
    ports: &mut [u32],
    c: Cover,
    number: usize,
    x: Isolation,
    signal: Name,
) -> Cover
    requires { Ready c ports.old × (Asks design.now.index.job.now mem.now.files.now mem.now.area.now design.now.count k number × OfOwn mem.now.files.now mem.now.area.now x) }
    ensures { Answer design.now.index.job.now (memory mem.now) warn c out.old (covered_gain number (isolation_of (memory mem.now) x) (name_of (memory mem.now) signal) (flat_map (aims_for false (modules_in design.now) (module_in design.now.index k)) (isolation_of (memory mem.now) x).elements) (kept_in design.now.index.job.now (memory mem.now) ports.old c.ports)) result out.new ports.new }
{
    let mut table: [u32; 325] = [0; 325];
    own_by(
        out, warn, design, k, mem, ports, c, number, x, signal, &mut table,
    )
}

// The output ports of the instances that a domain's elements are, which go through a table.
fn outputs_by<'a>(
    out: &mut [u8],
    warn: bool,
    design: &Design,
    k: usize,
    mem: &Memory<'a>,
    ports: &mut [u32],
    c: Cover,
    number: usize,
    x: Isolation,
    signal: Name,
    d: Domain,
    table: &mut [u32],
) -> Cover
    requires { Ready c ports.old × (Asks design.now.index.job.now mem.now.files.now mem.now.area.now design.now.count k number × OfDomain mem.now.files.now mem.now.area.now d table.old) }
    ensures { Answer design.now.index.job.now (memory mem.now) warn c out.old (covered_gain number (isolation_of (memory mem.now) x) (name_of (memory mem.now) signal) (flat_map (aims_for true (modules_in design.now) (module_in design.now.index k)) (domain_of (memory mem.now) d).elements) (kept_in design.now.index.job.now (memory mem.now) ports.old c.ports)) result out.new ports.new }
{
    let n = domain_elements(mem, d, table);
    in_elements(
        out,
        warn,
        design,
        k,
        mem,
        ports,
        c,
        number,
        x,
        signal,
        true,
        &Rows { rows: table, n },
    )
}

// The output ports of the instances that a domain's elements are.
fn domain_outputs<'a>(
    out: &mut [u8],
    warn: bool,
    design: &Design,
    k: usize,
    mem: &Memory<'a>,
    ports: &mut [u32],
    c: Cover,
    number: usize,
    x: Isolation,
    signal: Name,
    d: Domain,
) -> Cover
    requires { Ready c ports.old × (Asks design.now.index.job.now mem.now.files.now mem.now.area.now design.now.count k number × OfStrategy mem.now.files.now mem.now.area.now x d) }
    ensures { Answer design.now.index.job.now (memory mem.now) warn c out.old (covered_gain number (isolation_of (memory mem.now) x) (name_of (memory mem.now) signal) (flat_map (aims_for true (modules_in design.now) (module_in design.now.index k)) (domain_of (memory mem.now) d).elements) (kept_in design.now.index.job.now (memory mem.now) ports.old c.ports)) result out.new ports.new }
{
    let mut table: [u32; 325] = [0; 325];
    outputs_by(
        out, warn, design, k, mem, ports, c, number, x, signal, d, &mut table,
    )
}

// A strategy of the domain d, with a signal and a clamp value: its own elements; where it has none, the outputs of the domain, or why it is not simulated.
pub fn in_domain<'a>(
    out: &mut [u8],
    warn: bool,
    design: &Design,
    k: usize,
    mem: &Memory<'a>,
    ports: &mut [u32],
    c: Cover,
    number: usize,
    x: Isolation,
    signal: Name,
    d: Domain,
) -> Cover
    requires { Ready c ports.old × (Asks design.now.index.job.now mem.now.files.now mem.now.area.now design.now.count k number × OfStrategy mem.now.files.now mem.now.area.now x d) }
    ensures { Answer design.now.index.job.now (memory mem.now) warn c out.old (domain_gain (modules_in design.now) (module_in design.now.index k) number (isolation_of (memory mem.now) x) (name_of (memory mem.now) signal) (domain_of (memory mem.now) d) (isolation_of (memory mem.now) x).elements (kept_in design.now.index.job.now (memory mem.now) ports.old c.ports)) result out.new ports.new }
{
    let elements = x.elements;
    if has_entries(mem, Span::from(elements)) {
        return own_elements(out, warn, design, k, mem, ports, c, number, x, signal);
    }
    let applies = x.applies;
    if is_outputs(mem, applies) {
        return domain_outputs(out, warn, design, k, mem, ports, c, number, x, signal, d);
    }
    let own = x.name;
    let name = stored(own);
    let written = given(applies);
    not_outputs(out, warn, design.index.job, mem, c, name, written)
}
