// The answer to a job: a refusal, or the lengths of four texts that fit (check 10).
#![tactic(auto)]

ghost use Rattle.std.specs.Prelude.{◌≡◌};
ghost use Rattle.answers.specs.Answers.{refused_by, stopped_by, fitted_by, within};

// Number and place of document 01, and the lengths of the four texts.
// The number stays a number: it is what the C interface hands out.
#[derive(Clone, Copy)]
pub struct Answer {
    pub number: usize,
    pub place: usize,
    pub glue: usize,
    pub pkg: usize,
    pub report: usize,
    pub log: usize,
}

// Where the three texts of generation end; or a refusal by checks 7 to 9.
// The number stays a number, 0 where there is no refusal: the C interface hands it out so.
#[derive(Clone, Copy)]
pub struct Texts {
    pub number: usize,
    pub glue: usize,
    pub pkg: usize,
    pub report: usize,
}

// How many bytes each text has room for.
#[derive(Clone, Copy)]
pub struct Rooms {
    pub glue: usize,
    pub pkg: usize,
    pub report: usize,
    pub log: usize,
}

// A refusal.
// The number is what the C interface hands out.
pub fn refused(number: usize, place: usize) -> Answer
    ensures { result ≡ refused_by number place }
{
    Answer {
        number,
        place,
        glue: 0,
        pkg: 0,
        report: 0,
        log: 0,
    }
}

// A refusal by checks 7 to 9.
// The number is what the C interface hands out.
pub fn stopped(number: usize) -> Texts
    ensures { result ≡ stopped_by number }
{
    Texts {
        number,
        glue: 0,
        pkg: 0,
        report: 0,
    }
}

// Whether each text ends within its buffer.
fn fits(t: Texts, log: usize, rooms: Rooms) -> bool
    ensures { result ≡ within t log rooms }
{
    (t.glue <= rooms.glue)
        & ((t.pkg <= rooms.pkg) & ((t.report <= rooms.report) & (log <= rooms.log)))
}

// The answer, where the log ends at `log`.
pub fn fitted(t: Texts, log: usize, rooms: Rooms) -> Answer
    ensures { result ≡ fitted_by t log rooms }
{
    if t.number != 0 {
        return refused(t.number, 0);
    }
    if !fits(t, log, rooms) {
        return refused(14, 0);
    }
    Answer {
        number: 0,
        place: 0,
        glue: t.glue,
        pkg: t.pkg,
        report: t.report,
        log,
    }
}
