// The files of a job, joined, and read from the start file on.
ghost use Rattle.reader.specs.Whole.{Starts, WasRead};

use super::file::read_file;
use joined::join_files;
use scopes::go::Out;
use store::start::start;

// Reads the first `count` files of the index, beginning with file `first`.
// The area is written here, so it stays apart from the files.
pub fn read(
    job: &[u8],
    files: &mut [u8],
    area: &mut [u8],
    nums: &mut [u32],
    log: &mut [u8],
    count: usize,
    first: usize,
) -> Out
    requires { Starts job.now files.old area.old nums.old count first }
    ensures { WasRead job.now files.old files.new area.old area.new nums.old nums.new log.old log.new count first result }
{
    join_files(job, files, nums, count);
    let s = start();
    read_file(job, files, area, nums, log, count, s, first, 16)
}
