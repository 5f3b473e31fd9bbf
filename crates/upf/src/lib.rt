// A job answered: the ten checks of document 01, and all that was lent left as it says.
#![tactic(auto)]

ghost use Rattle.std.specs.Prelude.{◌≡◌, ◌≤◌, length};
ghost use Rattle.findscope.specs.Scopes.{Taken, Whole};
ghost use Rattle.setting.specs.Orders.{Orders};
ghost use Rattle.upf.specs.Runs.{StagedAt, Checked, Answered, Ran};

use answers::{Answer, Rooms, Texts};
use format::source::Source;
use jobindex::{Design, Header, Index};
use out::clear::{clear, clear_nums};
use scope::ScopePath;
use spans::span::Memory;
use store::state::State;

pub mod c;

// Checks 7 to 9, of records that were read.
fn texts<'a>(
    index: &Index<'a, 'a>,
    mem: &Memory<'a>,
    head: Header,
    s: State,
    glue: &mut [u8],
    pkg: &mut [u8],
    report: &mut [u8],
) -> Texts
    requires { Taken index.now.job.now index.now.rows.now head × (Orders mem.now.files.now mem.now.area.now index.now.rows.now s × (Whole (length mem.now.files.now) s.head.top × ((length mem.now.files.now ≡ 65536) × (length mem.now.area.now ≡ 65536)))) }
    ensures { StagedAt index.now.job.now index.now.rows.now mem.now.files.now mem.now.area.now head s glue.old glue.new pkg.old pkg.new report.old report.new result }
{
    let mut way = [0u8; 2144];
    let h = s.head;
    let t = h.top;
    match findscope::find_scope(index, head, mem, t, &mut way) {
        Err(e) => answers::stopped(e.number()),
        Ok(p) => {
            let path = findscope::path_text(&index.job[..], head, &way[..], p);
            let top = lines::part_of(index.job, head.top);
            generate::generate(
                &Source {
                    design: Design {
                        index: *index,
                        count: head.modules,
                    },
                    mem: *mem,
                    scope: ScopePath {
                        over: path,
                        from: p.from,
                    },
                    top,
                },
                p.row,
                s,
                glue,
                pkg,
                report,
            )
        }
    }
}

// Checks 2 to 10, the work areas being of their least size.
// The files and the area are written here, so they stay apart.
fn checked(
    job: &[u8],
    files: &mut [u8],
    area: &mut [u8],
    nums: &mut [u32],
    glue: &mut [u8],
    pkg: &mut [u8],
    report: &mut [u8],
    log: &mut [u8],
) -> Answer
    requires { (length files.old ≡ 65536) × ((length area.old ≡ 65536) × (16384 ≤ length nums.old)) }
    ensures { Checked job.now glue.old glue.new pkg.old pkg.new report.old report.new log.old log.new result }
{
    match intent::read_intent(
        job,
        &mut files[..],
        &mut area[..],
        &mut nums[..],
        &mut log[..],
    ) {
        Err(e) => answers::refused(e.number, e.place),
        Ok(r) => {
            let rooms = Rooms {
                glue: glue.len(),
                pkg: pkg.len(),
                report: report.len(),
                log: log.len(),
            };
            let t = texts(
                &Index {
                    job,
                    rows: &nums[..],
                },
                &Memory {
                    files: &files[..],
                    area: &area[..],
                },
                r.head,
                r.state,
                glue,
                pkg,
                report,
            );
            answers::fitted(t, r.state.fill.log, rooms)
        }
    }
}

// The same with the front of the second work area.
// The files and the area are written here, so they stay apart.
fn in_area(
    job: &[u8],
    files: &mut [u8],
    area: &mut [u8],
    nums: &mut [u32],
    glue: &mut [u8],
    pkg: &mut [u8],
    report: &mut [u8],
    log: &mut [u8],
) -> Answer
    requires { (length files.old ≡ 65536) × ((65536 ≤ length area.old) × (16384 ≤ length nums.old)) }
    ensures { Checked job.now glue.old glue.new pkg.old pkg.new report.old report.new log.old log.new result }
{
    checked(job, files, &mut area[..65536], nums, glue, pkg, report, log)
}

// Check 1, and the others.
// The files and the area are written here, so they stay apart.
fn answered(
    job: &[u8],
    files: &mut [u8],
    area: &mut [u8],
    nums: &mut [u32],
    glue: &mut [u8],
    pkg: &mut [u8],
    report: &mut [u8],
    log: &mut [u8],
) -> Answer
    ensures { Answered job.now (length files.old) (length area.old) (length nums.old) glue.old glue.new pkg.old pkg.new report.old report.new log.old log.new result }
{
    if files.len() < 65536 {
        return answers::refused(1, 0);
    }
    if area.len() < 65536 {
        return answers::refused(1, 0);
    }
    if nums.len() < 16384 {
        return answers::refused(1, 0);
    }
    in_area(job, &mut files[..65536], area, nums, glue, pkg, report, log)
}

// A job, answered. Outputs past their length, and the work areas, are zero afterwards.
// The files and the area are written here, so they stay apart.
pub fn run(
    job: &[u8],
    files: &mut [u8],
    area: &mut [u8],
    nums: &mut [u32],
    glue: &mut [u8],
    pkg: &mut [u8],
    report: &mut [u8],
    log: &mut [u8],
) -> Answer
    ensures { Ran job.now files.old files.new area.old area.new nums.old nums.new glue.old glue.new pkg.old pkg.new report.old report.new log.old log.new result }
{
    let a = answered(
        job,
        &mut files[..],
        &mut area[..],
        &mut nums[..],
        &mut glue[..],
        &mut pkg[..],
        &mut report[..],
        &mut log[..],
    );
    clear(files, 0);
    clear(area, 0);
    clear_nums(nums, 0);
    clear(glue, a.glue);
    clear(pkg, a.pkg);
    clear(report, a.report);
    clear(log, a.log);
    a
}
