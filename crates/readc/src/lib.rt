// The reader of a job's files, exported for the comparison with the Rust. What a function answers besides its result stands behind the references.
#![tactic(auto)]

ghost use Rattle.std.specs.Prelude.{◌≡◌, ◌≤◌, length};
ghost use Rattle.out.specs.Emit.{◌▸◌, emit};
ghost use Rattle.jobindex.specs.Index.{index_size};
ghost use Rattle.scopes.specs.Stops.{tag_of};
ghost use Rattle.reader.specs.Whole.{Starts};
ghost use Rattle.dump.specs.Tables.{Few};
ghost use Rattle.readc.specs.Told.{told_text, Indexes, Told};

use dump::table::state;
use files::whole::read;
use out::emit::Text;
use scopes::go::{Stop, tag_of};
use store::state::State;

// The number of files of a job, 0 for one that is refused, and the row of the start file; `nums` gets the index of a job that is accepted.
#[tactic(auto, using(crate::proofs::Telling::indexes))]
pub fn readc_index(job: &[u8], nums: &mut [u32], first: &mut usize) -> usize
    requires { index_size ≤ length nums.old }
    ensures { Indexes job.now nums.old nums.new result first.new }
{
    match job::read_job(job, &mut nums[..]) {
        Err(_) => {
            *first = 0;
            0
        }
        Ok(head) => {
            *first = head.startfile;
            head.files
        }
    }
}

// The records of a reading that ends.
fn records(dump: &mut [u8], stop: Option<Stop>, s: State) -> usize
    requires { tag_of stop ≡ 0 → Few s }
    ensures { dump.new ▸ result ≡ emit (dump.old ▸ 0) (told_text (tag_of stop) s) }
{
    if stop.is_some() {
        return 0;
    }
    let mut to = Text::over(dump, 0);
    state(&mut to, s);
    to.end()
}

// Reads the first `count` files of the index, beginning with file `first`: the refusal's number, 0 where there is none; its command, the place in the log,
// and that in the dump of the records.
pub fn readc_read(
    job: &[u8],
    files: &mut [u8],
    area: &mut [u8],
    nums: &mut [u32],
    log: &mut [u8],
    dump: &mut [u8],
    count: usize,
    first: usize,
    command: &mut usize,
    logged: &mut usize,
    dumped: &mut usize,
) -> usize
    requires { Starts job.now files.old area.old nums.old count first }
    ensures { Told job.now files.old files.new area.old area.new nums.old nums.new log.old log.new dump.old dump.new count first result command.new logged.new dumped.new }
{
    let r = read(job, files, area, nums, log, count, first);
    let s = r.state;
    let end = records(dump, r.stop, s);
    *command = s.count.commands;
    *logged = s.fill.log;
    *dumped = end;
    tag_of(r.stop)
}
