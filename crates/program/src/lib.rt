// A program's two ends: a job that a reader gives, answered; and a text of the answer, or the refusal, printed. No contract can say what standard input
// gives or what is printed.
#![tactic(auto)]

ghost use Rattle.std.specs.Prelude.{◌≡◌, IfOk, OnErr};
ghost use Rattle.program.specs.Answers.{AnswersJob};

use answers::Answer;
use std::io;
use std::io::Read;
use streams::read_full;

// Reads a job and answers it. Of a job that is too long one byte too many is read, whatever follows.
pub fn answer<R: Read>(
    reader: &mut R,
    glue: &mut [u8],
    pkg: &mut [u8],
    report: &mut [u8],
    log: &mut [u8],
) -> io::Result<Answer>
    ensures ok { IfOk result (λ a. AnswersJob (R.remaining reader.old) glue.old glue.new pkg.old pkg.new report.old report.new log.old log.new a) }
    ensures err { OnErr result ((glue.new ≡ glue.old) × ((pkg.new ≡ pkg.old) × ((report.new ≡ report.old) × (log.new ≡ log.old)))) }
{
    let mut job = [0u8; 65537];
    let n = read_full(reader, &mut job)?;
    let mut files = [0u8; 65536];
    let mut area = [0u8; 65536];
    let mut nums = [0u32; 16384];
    Ok(upf::run(
        &job[..n],
        &mut files,
        &mut area,
        &mut nums,
        glue,
        pkg,
        report,
        log,
    ))
}

// Prints the first `length` bytes of a text of the answer; of a refusal, `refused`, its number and its place.
pub fn tell(rt: &impl Print, a: Answer, text: &[u8], length: usize) -> io::Result<()> {
    if a.number == 0 {
        return rt.write_all(text::part::part(text, 0, length));
    }
    let number = a.number;
    let place = a.place;
    println!(rt; "refused {number} {place}")
}
