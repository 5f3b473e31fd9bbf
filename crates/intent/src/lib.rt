// The power intent of a job: the job taken, and the records that its files leave (checks 2 to 6).
#![tactic(auto)]

ghost use Rattle.std.specs.Prelude.{◌≡◌, ◌≤◌, length};
ghost use Rattle.intent.specs.Intent.{records_after, RecordsRead};

use jobindex::Header;
use scopes::go::{Out, tag_of};
use store::state::State;

// A job that was taken: its header, and the state of its records.
#[derive(Clone, Copy)]
pub struct Records {
    pub head: Header,
    pub state: State,
}

// A refusal: its number and its place.
// The number stays a number: it is the job's or the reading's, and the C interface hands it out.
#[derive(PartialEq, Eq, Clone, Copy, Debug)]
pub struct Stopped {
    pub number: usize,
    pub place: usize,
}

// A number of one byte.
fn wide(x: u8) -> usize
    ensures { result ≡ x }
{
    x as usize
}

// What the files left, of a job that was taken.
fn after_reading(head: Header, o: Out) -> Result<Records, Stopped>
    ensures { result ≡ records_after head o }
{
    let state = o.state;
    let number = tag_of(o.stop);
    if number != 0 {
        return Err(Stopped {
            number,
            place: state.count.commands,
        });
    }
    Ok(Records { head, state })
}

// The job, taken, and its files, read. The joined files stand in `files` afterwards, the strings that came about in `area`, the index, rows and words in
// `nums`.
// The files and the area are written here, so they stay apart.
pub fn read_intent(
    job: &[u8],
    files: &mut [u8],
    area: &mut [u8],
    nums: &mut [u32],
    log: &mut [u8],
) -> Result<Records, Stopped>
    requires { (length files.old ≡ 65536) × ((length area.old ≡ 65536) × (16384 ≤ length nums.old)) }
    ensures { RecordsRead job.now files.new area.new nums.new log.old log.new result }
{
    match job::read_job(job, &mut nums[..]) {
        Err(r) => Err(Stopped {
            number: wide(r.refusal.number()),
            place: r.line,
        }),
        Ok(head) => {
            let o = files::whole::read(job, files, area, nums, log, head.files, head.startfile);
            after_reading(head, o)
        }
    }
}
