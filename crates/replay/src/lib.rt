// Stored cases, replayed: each job is run with lent bytes that are not zero, and the answer and every lent byte afterwards are compared with what is due.
//
// A case is a line of seven numbers of six digits, parted by one space (number, place, lengths of the job, glue, package, report and log), then the job
// and the four texts, nothing between them.
#![tactic(auto)]

ghost use Rattle.std.specs.Prelude.{◌≤◌, IfOk};

use answers::Answer;
use std::io::Read;
use std::rt::Files;
use std::{fs, io};
use streams::read_full;
use text::compare::same;
use text::part::{part, peek};

// What is due: number and place, and the lengths of the job and of the four texts.
#[derive(Clone, Copy)]
struct Due {
    number: usize,
    place: usize,
    job: usize,
    glue: usize,
    pkg: usize,
    report: usize,
    log: usize,
}

// The value of a decimal digit; 0 of any other byte.
fn digit(s: &[u8], i: usize) -> usize
    ensures { result ≤ 9 }
{
    let b = peek(s, i);
    if b < b'0' {
        return 0;
    }
    if b'9' < b {
        return 0;
    }
    (b - b'0') as usize
}

// The number of six digits.
fn number(s: &[u8]) -> usize {
    digit(s, 0) * 100000
        + digit(s, 1) * 10000
        + digit(s, 2) * 1000
        + digit(s, 3) * 100
        + digit(s, 4) * 10
        + digit(s, 5)
}

// The numbers of a line.
fn due_by(line: &[u8]) -> Due {
    Due {
        number: number(part(line, 0, 6)),
        place: number(part(line, 7, 6)),
        job: number(part(line, 14, 6)),
        glue: number(part(line, 21, 6)),
        pkg: number(part(line, 28, 6)),
        report: number(part(line, 35, 6)),
        log: number(part(line, 42, 6)),
    }
}

// Reads the next n bytes of the file to the front of a buffer: whether there are so many, and there is room.
fn read_front<R: Read>(file: &mut R, buf: &mut [u8], n: usize) -> io::Result<bool> {
    if buf.len() < n {
        return Ok(false);
    }
    let got = read_full(file, &mut buf[..n])?;
    Ok(got == n)
}

// Whether an answer has number, place and lengths that are due.
fn is_due(a: Answer, d: Due) -> bool {
    (a.number == d.number)
        & ((a.place == d.place)
            & ((a.glue == d.glue)
                & ((a.pkg == d.pkg) & ((a.report == d.report) & (a.log == d.log)))))
}

// Whether all numbers are 0.
fn all_zero(nums: &[u32]) -> bool {
    for i in 0..nums.len() {
        if nums[i] != 0 {
            return false;
        }
    }
    true
}

// Runs a job: whether the answer and all lent bytes are as they are due, where each text is due with zeros behind it.
fn runs(job: &[u8], d: Due, glue: &[u8], pkg: &[u8], report: &[u8], log: &[u8]) -> bool {
    let zeros = [0u8; 65536];
    let mut files = [85u8; 65536];
    let mut area = [170u8; 65536];
    let mut nums = [2863311530u32; 16384];
    let mut glue_text = [1u8; 65536];
    let mut pkg_text = [2u8; 65536];
    let mut report_text = [3u8; 65536];
    let mut log_text = [4u8; 65536];
    let a = upf::run(
        job,
        &mut files,
        &mut area,
        &mut nums,
        &mut glue_text,
        &mut pkg_text,
        &mut report_text,
        &mut log_text,
    );
    if !is_due(a, d) {
        return false;
    }
    same(&glue_text, glue)
        & (same(&pkg_text, pkg)
            & (same(&report_text, report)
                & (same(&log_text, log)
                    & (same(&files, &zeros) & (same(&area, &zeros) & all_zero(&nums))))))
}

// Reads a case's job and texts, and runs it.
fn replayed<R: Read>(file: &mut R, d: Due) -> io::Result<bool> {
    let mut job = [0u8; 65537];
    let mut glue = [0u8; 65536];
    let mut pkg = [0u8; 65536];
    let mut report = [0u8; 65536];
    let mut log = [0u8; 65536];
    let there = read_front(file, &mut job, d.job)?
        & (read_front(file, &mut glue, d.glue)?
            & (read_front(file, &mut pkg, d.pkg)?
                & (read_front(file, &mut report, d.report)? & read_front(file, &mut log, d.log)?)));
    if !there {
        return Ok(false);
    }
    Ok(runs(part(&job, 0, d.job), d, &glue, &pkg, &report, &log))
}

// The next case of the file: 0 where all is as it is due, 1 and a line with the case's number where it is not, 2 at the end.
fn next<R: Read>(rt: &impl Print, file: &mut R, k: u64) -> io::Result<u64>
    ensures { IfOk result (λ case. case ≤ 2) }
{
    let mut line = [0u8; 49];
    let n = read_full(file, &mut line)?;
    if n == 0 {
        return Ok(2);
    }
    let alike = replayed(file, due_by(&line))?;
    if alike {
        return Ok(0);
    }
    println!(rt; "{k} differs")?;
    Ok(1)
}

// Replays the cases of a file, and writes how many there are and how many of them are not as they are due.
pub fn replay(rt: &(impl Files + Print), path: &str) -> io::Result<()> {
    let mut file = fs::open(rt, path)?;
    let mut jobs: u64 = 0;
    let mut differences: u64 = 0;
    // Counted by hand: the cases end where a read finds none, and their number is written, so an iterator is no plainer.
    while jobs < 100000 {
        let case = next(rt, &mut file, jobs)?;
        if case == 2 {
            break;
        }
        differences += case;
        jobs += 1;
    }
    println!(rt; "{jobs} jobs, {differences} differences")
}
