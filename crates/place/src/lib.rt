// The place in the job is lent and moved on by one line, with the line count.
#![tactic(auto)]

ghost use Rattle.std.specs.Prelude.{◌≡◌};
ghost use Rattle.place.specs.Cut.{cut_at, moved_on, In};

// The offset of the next line's first byte, and how many lines were cut before it.
#[derive(PartialEq, Eq, Clone, Copy, Debug)]
pub struct Place {
    pub at: usize,
    pub line: usize,
}

// A line: its first byte and its LF.
#[derive(PartialEq, Eq, Clone, Copy, Debug)]
pub struct Line {
    pub from: usize,
    pub end: usize,
}

// The line that was cut off, where there is an LF, and the place behind it.
#[derive(PartialEq, Eq, Clone, Copy, Debug)]
pub struct Moved {
    pub place: Place,
    pub cut: Option<Line>,
}

// The line at a place, and the place moved on: the step by value.
pub fn line_at(job: &[u8], p: Place) -> Moved
    requires { In job.now p }
    ensures { (result.cut ≡ cut_at job.now p) × (result.place ≡ moved_on job.now p) }
{
    let at = p.at;
    let line = p.line + 1;
    let e = text::scan::find_far(job, at, b'\n');
    if e < job.len() {
        let place = Place { at: e + 1, line };
        let cut = Some(Line { from: at, end: e });
        return Moved { place, cut };
    }
    let place = Place { at: e, line };
    Moved { place, cut: None }
}

// The place is lent, and moved on by one line.
pub fn next_line(job: &[u8], p: &mut Place) -> Option<Line>
    requires { In job.now p.old }
    ensures { (result ≡ cut_at job.now p.old) × (p.new ≡ moved_on job.now p.old) }
{
    let was = *p;
    let m = line_at(job, was);
    *p = m.place;
    m.cut
}

// The same with plain parameters: whoever calls this makes no reference to a place.
pub fn cut_line(job: &[u8], at: usize, line: usize) -> Moved
    requires { In job.now (record { at = at; line = line }) }
    ensures { (result.cut ≡ cut_at job.now (record { at = at; line = line })) × (result.place ≡ moved_on job.now (record { at = at; line = line })) }
{
    let mut p = Place { at, line };
    let cut = next_line(job, &mut p);
    Moved { place: p, cut }
}
