// The state before the first command.
ghost use Rattle.store.specs.Start.{Fresh};

use super::state::State;

// Nothing is stored.
pub fn start() -> State
    ensures { Fresh result }
{
    State::default()
}
