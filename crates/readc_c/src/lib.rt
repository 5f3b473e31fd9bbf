// The reader of a job's files, for a caller in C or Rust: tests/oracle links this crate to compare it with the Rust.
#![tactic(auto)]

ghost use Rattle.std.specs.Prelude.{◌≤◌, length};
ghost use Rattle.jobindex.specs.Index.{index_size};
ghost use Rattle.reader.specs.Whole.{Starts};
ghost use Rattle.readc.specs.Told.{Indexes, Told};

// The number of files of a job, 0 for one that is refused, and the row of the start file; `nums` gets the index of a job that is accepted.
#[unsafe(no_mangle)]
pub extern "C" fn readc_index(job: &[u8], nums: &mut [u32], first: &mut usize) -> usize
    requires { index_size ≤ length nums.old }
    ensures { Indexes job.now nums.old nums.new result first.new }
{
    readc::readc_index(job, nums, first)
}

// Reads the first `count` files of the index, beginning with file `first`: the refusal's number, 0 where there is none; its command, the place in the log,
// and that in the dump of the records.
#[unsafe(no_mangle)]
pub extern "C" fn readc_read(
    job: &[u8],
    files: &mut [u8],
    area: &mut [u8],
    nums: &mut [u32],
    log: &mut [u8],
    dump: &mut [u8],
    count: usize,
    first: usize,
    command: &mut usize,
    logged: &mut usize,
    dumped: &mut usize,
) -> usize
    requires { Starts job.now files.old area.old nums.old count first }
    ensures { Told job.now files.old files.new area.old area.new nums.old nums.new log.old log.new dump.old dump.new count first result command.new logged.new dumped.new }
{
    readc::readc_read(
        job, files, area, nums, log, dump, count, first, command, logged, dumped,
    )
}
