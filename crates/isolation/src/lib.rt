// All strategies: those with elements first, otherwise in order of creation.
#![tactic(auto)]

ghost use Rattle.std.specs.Prelude.{◌≤◌, ◌≡◌, cond, not, [], ◌++◌, map, length, take};
ghost use Rattle.jobindex.specs.Index.{module_row};
ghost use Rattle.lookup.specs.Rows.{modules};
ghost use Rattle.names.specs.Name.{name_of};
ghost use Rattle.store.specs.View.{domain_of, isolation_of};
ghost use Rattle.isolated.specs.Table.{kept_in};
ghost use Rattle.keep.specs.Covered.{Ready, Answer};
ghost use Rattle.cover.specs.Found.{Asks};
ghost use Rattle.strategies.specs.Gains.{found_gain, named as Gains·named, strategy_gain, round_gain, isolation_gain};
ghost use Rattle.isolation.specs.Asked.{OfIsolation, start_at};
ghost use Rattle.isolation.specs.Turns.{turn_gain, OfOne};
ghost use Rattle.spans.specs.Memory.{memory};
ghost use Rattle.lookup.specs.Design.{modules_in};
ghost use Rattle.jobindex.specs.Modules.{module_in};

use clamps::{clamp, stored};
use finddomain::first_named;
use indomain::in_domain;
use jobindex::Design;
use keep::Cover;
use lists::has_entries;
use names::name::Name;
use remarks::{clamp_unknown, no_signal, unknown_domain};
use spans::span::{Memory, Span};
use store::state::{Domain, Few, Isolation};
use strategies::given;

// A strategy with a signal and a clamp value.
fn with_clamp<'a>(
    out: &mut [u8],
    warn: bool,
    design: &Design,
    k: usize,
    mem: &Memory<'a>,
    domains: Few<Domain>,
    ports: &mut [u32],
    c: Cover,
    number: usize,
    x: Isolation,
    signal: Name,
) -> Cover
    requires { Ready c ports.old × (Asks design.now.index.job.now mem.now.files.now mem.now.area.now design.now.count k number × OfOne mem.now.files.now mem.now.area.now x domains) }
    ensures { Answer design.now.index.job.now (memory mem.now) warn c out.old (found_gain (modules_in design.now) (module_in design.now.index k) number (isolation_of (memory mem.now) x) (name_of (memory mem.now) signal) (kept_in design.now.index.job.now (memory mem.now) ports.old c.ports) (Gains·named (map (domain_of (memory mem.now)) (take domains.n domains.all)) (isolation_of (memory mem.now) x).domain)) result out.new ports.new }
{
    let domain = x.domain;
    let i = first_named(mem, &domains, domain);
    if domains.n <= i {
        let own = x.name;
        let name = stored(own);
        let written = stored(domain);
        return unknown_domain(out, warn, design.index.job, mem, c, name, written);
    }
    let d = domains.all[i];
    in_domain(out, warn, design, k, mem, ports, c, number, x, signal, d)
}

// A strategy.
fn strategy<'a>(
    out: &mut [u8],
    warn: bool,
    design: &Design,
    k: usize,
    mem: &Memory<'a>,
    domains: Few<Domain>,
    ports: &mut [u32],
    c: Cover,
    number: usize,
    x: Isolation,
) -> Cover
    requires { Ready c ports.old × (Asks design.now.index.job.now mem.now.files.now mem.now.area.now design.now.count k number × OfOne mem.now.files.now mem.now.area.now x domains) }
    ensures { Answer design.now.index.job.now (memory mem.now) warn c out.old (strategy_gain (modules_in design.now) (module_in design.now.index k) (map (domain_of (memory mem.now)) (take domains.n domains.all)) number (isolation_of (memory mem.now) x) (kept_in design.now.index.job.now (memory mem.now) ports.old c.ports)) result out.new ports.new }
{
    let own = x.name;
    let name = stored(own);
    let control = x.signal;
    let Some(signal) = control else {
        return no_signal(out, warn, design.index.job, mem, c, name);
    };
    let wire = stored(signal);
    let written = x.clamp;
    if clamp(mem, written).is_none() {
        let value = given(written);
        return clamp_unknown(out, warn, design.index.job, mem, c, name, value);
    }
    with_clamp(
        out, warn, design, k, mem, domains, ports, c, number, x, wire,
    )
}

// Whether a strategy is of the round: `has` says whether it has elements.
#[tactic(auto, using(crate::proofs::One::choices))]
fn is_chosen(has: bool, having: bool) -> bool
    ensures { result ≡ cond having has (not has) }
{
    if having { has } else { !has }
}

// A strategy, where it is of the round.
fn turn<'a>(
    out: &mut [u8],
    warn: bool,
    design: &Design,
    k: usize,
    mem: &Memory<'a>,
    domains: Few<Domain>,
    ports: &mut [u32],
    c: Cover,
    number: usize,
    x: Isolation,
    having: bool,
) -> Cover
    requires { Ready c ports.old × (Asks design.now.index.job.now mem.now.files.now mem.now.area.now design.now.count k number × OfOne mem.now.files.now mem.now.area.now x domains) }
    ensures { Answer design.now.index.job.now (memory mem.now) warn c out.old (turn_gain (modules_in design.now) (module_in design.now.index k) (map (domain_of (memory mem.now)) (take domains.n domains.all)) having number (isolation_of (memory mem.now) x) (kept_in design.now.index.job.now (memory mem.now) ports.old c.ports)) result out.new ports.new }
{
    let elements = x.elements;
    let has = has_entries(mem, Span::from(elements));
    if is_chosen(has, having) {
        return strategy(out, warn, design, k, mem, domains, ports, c, number, x);
    }
    c
}

// The strategies with elements where `having` is set, else those without.
fn round<'a>(
    out: &mut [u8],
    warn: bool,
    design: &Design,
    k: usize,
    mem: &Memory<'a>,
    t: Few<Isolation>,
    domains: Few<Domain>,
    ports: &mut [u32],
    c: Cover,
    having: bool,
) -> Cover
    requires { Ready c ports.old × OfIsolation design.now.index.job.now mem.now.files.now mem.now.area.now design.now.count k t domains }
    ensures { Answer design.now.index.job.now (memory mem.now) warn c out.old (round_gain (modules_in design.now) (module_in design.now.index k) (map (domain_of (memory mem.now)) (take domains.n domains.all)) having 0 (map (isolation_of (memory mem.now)) (take t.n t.all)) (kept_in design.now.index.job.now (memory mem.now) ports.old c.ports)) result out.new ports.new }
{
    let n = t.n;
    let mut a = c;
    for i in 0..n {
        let x = t.all[i];
        a = turn(out, warn, design, k, mem, domains, ports, a, i, x, having);
        if a.over {
            return a;
        }
    }
    a
}

// All strategies: the isolated ports into their table, and the lines of the report, or where `warn` is set the warnings, behind `at`.
pub fn isolation<'a>(
    out: &mut [u8],
    at: usize,
    warn: bool,
    design: &Design,
    k: usize,
    mem: &Memory<'a>,
    t: Few<Isolation>,
    domains: Few<Domain>,
    ports: &mut [u32],
) -> Cover
    requires { OfIsolation design.now.index.job.now mem.now.files.now mem.now.area.now design.now.count k t domains × (5120 ≤ length ports.old) }
    ensures { Answer design.now.index.job.now (memory mem.now) warn (start_at at) out.old (isolation_gain (modules_in design.now) (module_in design.now.index k) (map (domain_of (memory mem.now)) (take domains.n domains.all)) (map (isolation_of (memory mem.now)) (take t.n t.all)) []) result out.new ports.new }
{
    let c = Cover {
        over: false,
        ports: 0,
        warnings: 0,
        at: at,
    };
    if t.n == 0 {
        return c;
    }
    let a = round(out, warn, design, k, mem, t, domains, ports, c, true);
    if a.over {
        return a;
    }
    round(out, warn, design, k, mem, t, domains, ports, a, false)
}
