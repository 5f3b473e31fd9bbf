// Reads a job on standard input, and says what checks 2 to 7 say of it: `accepted`, or `refused`, the number and the line.
#![tactic(auto)]

use std::io;
use streams::read_full;

fn main(rt: HostRuntime) -> io::Result<()> {
    let mut job = [0u8; 65537];
    let mut input = rt.reader();
    let n = read_full(&mut input, &mut job)?;
    let mut index = [0u32; 1280];
    let told = jobc::upf_job_check(&job[..n], &mut index);
    tell(&rt, told)
}

// Writes what the job came to.
fn tell(rt: &impl Print, told: u64) -> io::Result<()> {
    if told == 0 {
        return println!(rt; "accepted");
    }
    let number = told / 4294967296;
    let line = told % 4294967296;
    println!(rt; "refused {number} {line}")
}
