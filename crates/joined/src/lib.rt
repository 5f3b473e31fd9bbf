// All bodies joined, one behind the other, before anything is read.
#![tactic(auto)]

ghost use Rattle.joined.specs.Joined.{Room, Joined};

use tcl::join::join;
use text::part::{part, place};

// Writes the body of each of the first n files to `files`, says in the numbers where it begins and how long it is, and returns where the last one ends.
// n files of the index are joined, not all its numbers.
#[tactic(auto, using(crate::proofs::Turns::turns))]
pub fn join_files(job: &[u8], files: &mut [u8], nums: &mut [u32], n: usize) -> usize
    requires { Room job.now files.old nums.old n }
    ensures { Joined job.now files.old files.new nums.old nums.new n result }
{
    let mut o = 0;
    for k in 0..n {
        let body = part(job, place(nums, 4 * k + 2), place(nums, 4 * k + 3));
        let e = join(body, files, o);
        nums[1152 + 2 * k] = o as u32;
        nums[1153 + 2 * k] = (e - o) as u32;
        o = e;
    }
    o
}
