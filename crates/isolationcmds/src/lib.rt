// set_isolation, set_isolation_control.
#![tactic(auto)]

ghost use Rattle.std.specs.Prelude.{◌≡◌, ◌++◌, ◌≤◌, ◌<◌, ◌^◌, take};
ghost use Rattle.spans.specs.Span.{pairs};
ghost use Rattle.spans.specs.Reach.{span_end, last_of};
ghost use Rattle.args.specs.View.{words_from};
ghost use Rattle.model.specs.Commands.{added, isolation_command, control_command};
ghost use Rattle.store.specs.First.{first_at};
ghost use Rattle.made.specs.Made.{Line, brief_of, Does};
ghost use Rattle.model.specs.Records.{Model};
ghost use Rattle.store.specs.declared.state.State.{State};
ghost use Rattle.isolationcmds.specs.Strategies.{is_strategy_at, IsolationIs, RenewedIs, AnewIs, ControlledIs};
ghost use Rattle.spans.specs.Memory.{memory};

use args::argument::{flag, name, option};
use lists::has_entries;
use made::{Brief, Deed};
use spans::span::{Memory, Span, same_spans, size};
use store::state::{Few, Isolation};
use store::stored::{Stored, as_maybe, given, narrow, or_empty};
use text::part::Rows;

// The strategy that the words of a command name.
fn isolation<'a>(mem: &Memory<'a>, command: &Rows, scope: Stored) -> Isolation
    requires { last_of span_end (pairs command.now.rows.now 0 command.now.n) < 2 ^ 32 }
    ensures { IsolationIs (memory mem.now) command.now.rows.now command.now.n scope result }
{
    let named = name(mem, command);
    let domain = option(mem, command, b"-domain");
    let applies = option(mem, command, b"-applies_to");
    let elements = option(mem, command, b"-elements");
    let clamp = option(mem, command, b"-clamp_value");
    let signal = option(mem, command, b"-isolation_signal");
    let sense = option(mem, command, b"-isolation_sense");
    let power = option(mem, command, b"-isolation_power_net");
    let ground_net = option(mem, command, b"-isolation_ground_net");
    Isolation {
        name: narrow(named),
        domain: or_empty(domain),
        applies: as_maybe(applies),
        scope: scope,
        elements: or_empty(elements),
        clamp: as_maybe(clamp),
        signal: as_maybe(signal),
        sense: as_maybe(sense),
        power: as_maybe(power),
        ground_net: as_maybe(ground_net),
    }
}

// The strategy with what the words give anew; its elements are `elements` below `scope`.
fn updated<'a>(
    mem: &Memory<'a>,
    command: &Rows,
    x: Isolation,
    scope: Stored,
    elements: Stored,
) -> Isolation
    requires { last_of span_end (pairs command.now.rows.now 0 command.now.n) < 2 ^ 32 }
    ensures { RenewedIs (memory mem.now) command.now.rows.now command.now.n x scope elements result }
{
    let applies = option(mem, command, b"-applies_to");
    let clamp = option(mem, command, b"-clamp_value");
    let signal = option(mem, command, b"-isolation_signal");
    let sense = option(mem, command, b"-isolation_sense");
    let power = option(mem, command, b"-isolation_power_net");
    let ground_net = option(mem, command, b"-isolation_ground_net");
    Isolation {
        applies: given(applies, x.applies),
        scope: scope,
        elements: elements,
        clamp: given(clamp, x.clamp),
        signal: given(signal, x.signal),
        sense: given(sense, x.sense),
        power: given(power, x.power),
        ground_net: given(ground_net, x.ground_net),
        ..x
    }
}

// The same, with new elements only where the words give some.
fn update<'a>(mem: &Memory<'a>, command: &Rows, scope: Stored, x: Isolation) -> Isolation
    requires { last_of span_end (pairs command.now.rows.now 0 command.now.n) < 2 ^ 32 }
    ensures { AnewIs mem.now.files.now mem.now.area.now command.now.rows.now command.now.n scope x result }
{
    match option(mem, command, b"-elements") {
        Some(v) if has_entries(mem, v) => { updated(mem, command, x, scope, narrow(v)) }
        Some(_) => updated(mem, command, x, x.scope, x.elements),
        None => updated(mem, command, x, x.scope, x.elements),
    }
}

// Whether a strategy has this name, and this domain where one is named.
fn is_strategy<'a>(mem: &Memory<'a>, x: Isolation, name: Stored, domain: Stored) -> bool
    ensures { result ≡ is_strategy_at (memory mem.now) name domain x }
{
    same_spans(mem, Span::from(x.name), Span::from(name))
        && (size(mem, Span::from(domain)) == 0
            || same_spans(mem, Span::from(x.domain), Span::from(domain)))
}

// The first such strategy; the number of strategies where there is none.
fn find_strategy<'a>(mem: &Memory<'a>, t: Few<Isolation>, name: Stored, domain: Stored) -> usize
    requires { t.n ≤ 32 }
    ensures { result ≡ first_at (is_strategy_at (memory mem.now) name domain) (take t.n t.all) }
{
    t.all[..t.n]
        .iter()
        .position(|x| is_strategy(mem, *x, name, domain))
        .unwrap_or(t.n)
}

// A new strategy. `plaincmds` enters a retention by the same steps; one function for both takes the count and a function for the record, and is no plainer.
fn enter<'a>(mem: &Memory<'a>, command: &Rows, b: Brief) -> Deed
    requires { Line command.now.rows.now command.now.n }
    ensures { Does mem.now.files.now mem.now.area.now command.now.rows.now command.now.n (λ (s : State). brief_of s ≡ b) result (λ (m : Model). added m (words_from (memory mem.now) command.now.rows.now command.now.n 1)) }
{
    if 32 <= b.isolations {
        return Deed::Full;
    }
    let x = isolation(mem, command, b.scope);
    Deed::Isolation(x)
}

// A new strategy, or one changed; `-no_isolation` is only remarked.
pub fn set_isolation<'a>(mem: &Memory<'a>, command: &Rows, b: Brief, t: Few<Isolation>) -> Deed
    requires { Line command.now.rows.now command.now.n × (t.n ≤ 32) }
    ensures { Does mem.now.files.now mem.now.area.now command.now.rows.now command.now.n (λ (s : State). (brief_of s ≡ b) × (s.isolations ≡ t)) result (λ (m : Model). isolation_command m (words_from (memory mem.now) command.now.rows.now command.now.n 1)) }
{
    let named = narrow(name(mem, command));
    if flag(mem, command, b"-no_isolation") {
        return Deed::Warning(4, named);
    }
    if !flag(mem, command, b"-update") {
        return enter(mem, command, b);
    }
    let domain = or_empty(option(mem, command, b"-domain"));
    let i = find_strategy(mem, t, named, domain);
    if t.n <= i {
        return enter(mem, command, b);
    }
    let x = update(mem, command, b.scope, t.all[i]);
    Deed::Controlled(i, x)
}

// The strategy with the signal and the sense that the words give.
fn controlled<'a>(mem: &Memory<'a>, command: &Rows, x: Isolation) -> Isolation
    requires { last_of span_end (pairs command.now.rows.now 0 command.now.n) < 2 ^ 32 }
    ensures { ControlledIs (memory mem.now) command.now.rows.now command.now.n x result }
{
    let signal = option(mem, command, b"-isolation_signal");
    let sense = option(mem, command, b"-isolation_sense");
    Isolation {
        signal: given(signal, x.signal),
        sense: given(sense, x.sense),
        ..x
    }
}

// The signal and the sense of a strategy anew, or a warning.
pub fn set_isolation_control<'a>(
    mem: &Memory<'a>,
    command: &Rows,
    b: Brief,
    t: Few<Isolation>,
) -> Deed
    requires { Line command.now.rows.now command.now.n × (t.n ≤ 32) }
    ensures { Does mem.now.files.now mem.now.area.now command.now.rows.now command.now.n (λ (s : State). (brief_of s ≡ b) × (s.isolations ≡ t)) result (λ (m : Model). control_command m (words_from (memory mem.now) command.now.rows.now command.now.n 1)) }
{
    let named = narrow(name(mem, command));
    let domain = or_empty(option(mem, command, b"-domain"));
    let i = find_strategy(mem, t, named, domain);
    if t.n <= i {
        return Deed::Warning(5, named);
    }
    let x = controlled(mem, command, t.all[i]);
    Deed::Controlled(i, x)
}
