// The job, read line by line: checks 2 to 7, and an index of its files and modules in the lent area.
#![tactic(auto)]

ghost use Rattle.std.specs.Prelude.{◌≡◌, cond, [], ◌+◌, ◌≤◌, length, drop, eqb, Ok, Err};
ghost use Rattle.text.specs.Classes.{is_ascii};
ghost use Rattle.text.specs.Scan.{all};
ghost use Rattle.joblines.specs.Lines.{read_line};
ghost use Rattle.joblines.specs.Parse.{is_nothing};
ghost use Rattle.jobindex.specs.Index.{index_size};
ghost use Rattle.jobsteps.specs.State.{due_of, job_now, line_of, Stands, Asked, Stepped};
ghost use Rattle.job.specs.Reader.{refused_at, Low, LinesRead, Listed, JobRead};

use fields::Style;
use jobindex::{Header, Index, Open, Span, Table};
use joblines::Refusal;
use jobsteps::{Due, Step};

// The job is refused: the check that fails first, and the line that it fails at, 0 where it is none's.
#[derive(PartialEq, Eq, Clone, Copy, Debug)]
pub struct Refused {
    pub refusal: Refusal,
    pub line: usize,
}

// One line, by what is due.
pub fn line_step(
    job: &[u8],
    index: &mut [u32],
    from: usize,
    end: usize,
    due: Due,
    head: Header,
    opened: Open,
) -> Result<Step, Refusal>
    requires { Asked job.now index.old from end (Stands job.now index.old due head opened from) }
    ensures { Stepped job.now index.old index.new from (read_line (due_of job.now due) (job_now job.now index.old due head opened) (line_of job.now from end) (drop (end + 1) job.now)) result }
{
    match due {
        Due::Top => jobsteps::top_step(job, from, end, head, opened),
        Due::Override => jobsteps::override_step(job, from, end, head, opened),
        Due::Start => jobsteps::start_step(job, from, end, head, opened),
        Due::File => jobsteps::file_step(
            &Index {
                job,
                rows: &index[..],
            },
            from,
            end,
            head,
            opened,
        ),
        Due::Bytes { at, len } => jobsteps::bytes_step(
            job, index, from, end, at, len, head, opened,
        ),
        Due::More => jobsteps::more_step(
            &Index {
                job,
                rows: &index[..],
            },
            from,
            end,
            head,
            opened,
        ),
        Due::Style { at, len } => jobsteps::style_step(job, from, end, at, len, head),
        Due::Ports => jobsteps::ports_step(job, index, from, end, head, opened),
        Due::Decls => jobsteps::decls_step(job, index, from, end, head, opened),
        Due::Insts => jobsteps::conns_step(job, index, from, end, head, opened),
        Due::Nothing => Err(Refusal::Malformed),
    }
}

// Whether nothing more is due.
fn is_nothing(due: Due) -> bool
    ensures { result ≡ is_nothing (due_of [] due) }
{
    matches!(due, Due::Nothing)
}

// There is no further line.
fn ending(job: &[u8], at: usize, line: usize, due: Due, head: Header) -> Result<Header, Refused>
    ensures { result ≡ cond (is_nothing (due_of [] due)) (cond (eqb at (length job.now)) (Ok head) (Err (refused_at line))) (Err (refused_at line)) }
{
    if !is_nothing(due) || at != job.len() {
        let refusal = Refusal::Malformed;
        return Err(Refused { refusal, line });
    }
    Ok(head)
}

// The lines of the job.
// The index is written here, so it stays apart from the job.
pub fn lines(job: &[u8], index: &mut [u32]) -> Result<Header, Refused>
    requires { (length job.now ≤ 65536) × (index_size ≤ length index.old) }
    ensures { LinesRead job.now index.old index.new result }
{
    let none = Span { at: 0, len: 0 };
    let head = Header {
        top: none,
        over: none,
        start: none,
        files: 0,
        modules: 0,
        startfile: 0,
        topmodule: 0,
    };
    let opened = Open {
        name: none,
        style: Style::Ansi,
        ports: 0,
        decls: 0,
        insts: 0,
        end: 0,
        nports: 0,
        ndecls: 0,
        ninsts: 0,
        nconns: 0,
    };
    let mut step = Step {
        at: 0,
        due: Due::Top,
        head,
        opened,
    };
    let mut n = 0;
    // No `while let`: a line is counted also where none is left, so that the cut would stand before the loop and at its end.
    loop {
        let m = place::cut_line(job, step.at, n);
        n = m.place.line;
        let Some(line) = m.cut else {
            return ending(job, step.at, n, step.due, step.head);
        };
        match line_step(
            job,
            &mut index[..],
            line.from,
            line.end,
            step.due,
            step.head,
            step.opened,
        ) {
            Ok(next) => step = next,
            Err(refusal) => return Err(Refused { refusal, line: n }),
        }
    }
}

// Whether eight bytes of the job from i on are all below 128.
fn eight_low(job: &[u8], i: usize) -> bool
    requires { i + 8 ≤ length job.now }
    ensures { Low job.now i 8 result }
{
    (job[i] <= 127)
        & (job[i + 1] <= 127)
        & (job[i + 2] <= 127)
        & (job[i + 3] <= 127)
        & (job[i + 4] <= 127)
        & (job[i + 5] <= 127)
        & (job[i + 6] <= 127)
        & (job[i + 7] <= 127)
}

// Whether every byte from `at` on is below 128, byte by byte.
fn each_low(job: &[u8], at: usize) -> bool
    ensures { result ≡ all is_ascii (drop at job.now) }
{
    for i in at..job.len() {
        if !text::class::is_ascii(job[i]) {
            return false;
        }
    }
    true
}

// Whether every byte is below 128: eight at a time, then the rest.
pub fn is_ascii(job: &[u8]) -> bool
    ensures { result ≡ all is_ascii job.now }
{
    let mut i = 0;
    // No `chunks_exact`: the place at hand is where the bytes are then looked at one by one.
    while 8 <= job.len() - i {
        if !eight_low(job, i) {
            return each_low(job, i);
        }
        i += 8;
    }
    each_low(job, i)
}

// Whether `start` and `top` are listed; their rows are set.
fn listed(index: &Index, head: Header) -> Result<Header, Refused>
    requires { (head.files ≤ 32) × (head.modules ≤ 128) }
    ensures { Listed index.now.job.now index.now.rows.now head result }
{
    let start = head.start;
    let files = head.files;
    let path = text::part::part(index.job, start.at, start.len);
    let Some(file) = jobindex::row_of(index, Table::Files, files, path) else {
        return Err(Refused {
            refusal: Refusal::NotListed,
            line: 0,
        });
    };
    let top = head.top;
    let modules = head.modules;
    let name = text::part::part(index.job, top.at, top.len);
    let Some(root) = jobindex::row_of(index, Table::Modules, modules, name) else {
        return Err(Refused {
            refusal: Refusal::NotListed,
            line: 0,
        });
    };
    let mut head = head;
    head.startfile = file;
    head.topmodule = root;
    Ok(head)
}

// The job, read: refused by checks 2 to 7, or taken, with its files and modules in the index.
// The index is written here, so it stays apart from the job.
pub fn read_job(job: &[u8], index: &mut [u32]) -> Result<Header, Refused>
    requires { index_size ≤ length index.old }
    ensures { JobRead job.now index.old index.new result }
{
    if 65536 < job.len() {
        return Err(Refused {
            refusal: Refusal::TooLong,
            line: 0,
        });
    }
    if !is_ascii(job) {
        return Err(Refused {
            refusal: Refusal::NotAscii,
            line: 0,
        });
    }
    let head = lines(job, &mut index[..])?;
    listed(
        &Index {
            job,
            rows: &index[..],
        },
        head,
    )
}
