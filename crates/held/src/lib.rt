// The state between commands: a command begun, and what is back behind a load.
#![tactic(auto)]

ghost use Rattle.std.specs.Prelude.{◌≡◌, ◌+◌, ◌-◌, ◌≤◌, ◌<◌, ◌^◌};
ghost use Rattle.held.specs.Laws.{begun_at};

use store::state::State;

// The state with one command more, whose results end at e.
pub fn begun(s: State, e: usize) -> State
    requires { (s.count.commands + 1 < 2 ^ 64) × ((s.fill.end ≤ e) × (s.count.substituted + (e - s.fill.end) < 2 ^ 64)) }
    ensures { result ≡ begun_at s e }
{
    let mut u = s;
    u.count.commands += 1;
    u.count.substituted += e - s.fill.end;
    u.fill.end = e;
    u
}
