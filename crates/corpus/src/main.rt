// Replays the stored corpus: generated jobs with the texts of the reference, boundary and malformed jobs with number and place by hand.
#![tactic(auto)]

use std::io;

fn main(rt: HostRuntime) -> io::Result<()> {
    replay::replay(&rt, "cases")
}
