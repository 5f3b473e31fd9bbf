// create_supply_net: a net that is known is no new one.
#![tactic(auto)]

ghost use Rattle.std.specs.Prelude.{◌++◌, ◌≡◌, ◌≤◌, take};
ghost use Rattle.text.specs.Scan.{any};
ghost use Rattle.names.specs.Name.{name_of};
ghost use Rattle.args.specs.View.{words_from};
ghost use Rattle.model.specs.Commands.{net_command};
ghost use Rattle.store.specs.Strings.{below_of};
ghost use Rattle.made.specs.Made.{Line, brief_of, Does};
ghost use Rattle.model.specs.Records.{Model};
ghost use Rattle.store.specs.declared.state.State.{State};
ghost use Rattle.netcmds.specs.Nets.{is_called};
ghost use Rattle.spans.specs.Memory.{memory};

use made::{Brief, Deed};
use names::compare::same_names;
use names::name::{Form, Name, scoped};
use portcmds::named_below;
use spans::span::{Memory, Span};
use store::state::Few;
use store::stored::Below;
use text::part::Rows;

// A name below a scope, as it is read.
fn name_of(mem: &Memory, b: Below) -> Name
    ensures { name_of (memory mem.now) result ≡ below_of (memory mem.now) b }
{
    scoped(mem, Span::from(b.scope), Span::from(b.word), Form::Word)
}

// Whether a net of this name was created. No `contains` says this: names at other places can be the same.
fn known_net<'a>(mem: &Memory<'a>, t: Few<Below>, net: Below) -> bool
    requires { t.n ≤ 32 }
    ensures { result ≡ any (is_called (memory mem.now) (below_of (memory mem.now) net)) (take t.n t.all) }
{
    let x = name_of(mem, net);
    t.all[..t.n]
        .iter()
        .any(|b| same_names(mem, name_of(mem, *b), x))
}

// A net more, where none of this name is known.
pub fn create_supply_net<'a>(mem: &Memory<'a>, command: &Rows, b: Brief, t: Few<Below>) -> Deed
    requires { Line command.now.rows.now command.now.n × (t.n ≤ 32) }
    ensures { Does mem.now.files.now mem.now.area.now command.now.rows.now command.now.n (λ (s : State). (brief_of s ≡ b) × (s.nets ≡ t)) result (λ (m : Model). net_command m (words_from (memory mem.now) command.now.rows.now command.now.n 1)) }
{
    let net = named_below(mem, command, b.scope);
    if known_net(mem, t, net) {
        return Deed::Nothing;
    }
    if 32 <= t.n {
        return Deed::Full;
    }
    Deed::Net(net)
}
