// Replays the marked runs and the traps of document 01.
#![tactic(auto)]

use std::io;

fn main(rt: HostRuntime) -> io::Result<()> {
    replay::replay(&rt, "cases")
}
