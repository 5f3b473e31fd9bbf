// Prints the package of the job on standard input; of a job that is refused, `refused`, the number and the place.
#![tactic(auto)]

use std::io;

fn main(rt: HostRuntime) -> io::Result<()> {
    let mut glue = [0u8; 65536];
    let mut pkg = [0u8; 65536];
    let mut report = [0u8; 65536];
    let mut log = [0u8; 65536];
    let mut input = rt.reader();
    let a = program::answer(&mut input, &mut glue, &mut pkg, &mut report, &mut log)?;
    program::tell(&rt, a, &pkg, a.pkg)
}
