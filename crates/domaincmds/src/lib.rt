// create_power_domain, set_domain_supply_net.
#![tactic(auto)]

ghost use Rattle.std.specs.Prelude.{◌++◌, ◌≡◌, ◌≤◌, ◌<◌, ◌^◌};
ghost use Rattle.spans.specs.Span.{pairs};
ghost use Rattle.spans.specs.Reach.{span_end, last_of};
ghost use Rattle.args.specs.View.{words_from};
ghost use Rattle.model.specs.Commands.{domain_command, supply_command};
ghost use Rattle.made.specs.Made.{Line, brief_of, Does};
ghost use Rattle.model.specs.Records.{Model};
ghost use Rattle.store.specs.declared.state.State.{State};
ghost use Rattle.domaincmds.specs.Domains.{DomainIs};
ghost use Rattle.spans.specs.Memory.{memory};

use args::argument::{flag, name, option};
use finddomain::first_named;
use made::{Brief, Deed};
use spans::span::Memory;
use store::state::{Domain, Few, supplied};
use store::stored::{Stored, maybe_below, narrow, or_empty};
use text::part::Rows;

// "domains .. 32 of each"
const MOST_DOMAINS: usize = 32;

// The domain that the words of a command name.
fn domain<'a>(mem: &Memory<'a>, command: &Rows, scope: Stored) -> Domain
    requires { last_of span_end (pairs command.now.rows.now 0 command.now.n) < 2 ^ 32 }
    ensures { DomainIs (memory mem.now) command.now.rows.now command.now.n scope result }
{
    let named = name(mem, command);
    let elements = option(mem, command, b"-elements");
    let whole = flag(mem, command, b"-include_scope");
    Domain {
        name: narrow(named),
        elements: or_empty(elements),
        whole: whole,
        power: None,
        ground_net: None,
        scope: scope,
    }
}

// A domain more. `portcmds` enters a port by the same steps; one function for both takes the count, the limit and a function for the record, and is no plainer.
pub fn create_power_domain<'a>(mem: &Memory<'a>, command: &Rows, b: Brief) -> Deed
    requires { Line command.now.rows.now command.now.n }
    ensures { Does mem.now.files.now mem.now.area.now command.now.rows.now command.now.n (λ (s : State). brief_of s ≡ b) result (λ (m : Model). domain_command m (words_from (memory mem.now) command.now.rows.now command.now.n 1)) }
{
    if MOST_DOMAINS <= b.domains {
        return Deed::Full;
    }
    let d = domain(mem, command, b.scope);
    Deed::Domain(d)
}

// Both supplies of the first domain of the name anew, or a warning.
pub fn set_domain_supply_net<'a>(mem: &Memory<'a>, command: &Rows, b: Brief, t: Few<Domain>) -> Deed
    requires { Line command.now.rows.now command.now.n × (t.n ≤ 32) }
    ensures { Does mem.now.files.now mem.now.area.now command.now.rows.now command.now.n (λ (s : State). (brief_of s ≡ b) × (s.domains ≡ t)) result (λ (m : Model). supply_command m (words_from (memory mem.now) command.now.rows.now command.now.n 1)) }
{
    let named = narrow(name(mem, command));
    let i = first_named(mem, &t, named);
    if t.n <= i {
        return Deed::Warning(3, named);
    }
    let power = option(mem, command, b"-primary_power_net");
    let ground_net = option(mem, command, b"-primary_ground_net");
    let p = maybe_below(b.scope, power);
    let g = maybe_below(b.scope, ground_net);
    Deed::Supplied(i, supplied(t.all[i], p, g))
}
