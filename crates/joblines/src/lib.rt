// The lines of a job, each by itself: its form, and what it comes to beside the number of lines of its kind.
#![tactic(auto)]

ghost use Rattle.std.specs.Prelude.{◌≡◌, ◌&&◌, drop};
ghost use Rattle.text.specs.Ascii.{ascii};
ghost use Rattle.text.specs.Compare.{starts_with};
ghost use Rattle.fields.specs.Fields.{is_name, is_path};
ghost use Rattle.fields.specs.Meant.{style_is};
ghost use Rattle.joblines.specs.Forms.{number_of, numbered, port_read, decl_read, conn_read, verdict};

pub mod form;

use fields::Style;

// How many ports and declarations a module may have, and how many connections an instance.
const MOST_PORTS: usize = 64;

const MOST_DECLS: usize = 128;

const MOST_CONNS: usize = 64;

// The check of the job that fails first.
#[derive(PartialEq, Eq, Clone, Copy, Debug)]
pub enum Refusal {
    // The job is longer than 65,536 bytes.
    TooLong,
    // A byte is 128 or more.
    NotAscii,
    // A line is not well formed, or not due.
    Malformed,
    // A line is beyond the limit of its kind.
    OverLimit,
    // A path, a module, or an instance in its module, is not new.
    NotNew,
    // `start` or `top` is not listed.
    NotListed,
}

impl Refusal {
    // The number that the check has.
    pub fn number(self) -> u8
        ensures { result ≡ number_of self }
    {
        match self {
            Refusal::TooLong => 2,
            Refusal::NotAscii => 3,
            Refusal::Malformed => 4,
            Refusal::OverLimit => 5,
            Refusal::NotNew => 6,
            Refusal::NotListed => 7,
        }
    }
}

// Whether a line is `top=NAME`. One function for this and for `is_start` would take the key and the test of each, and be no plainer.
pub fn is_top(line: &[u8]) -> bool
    ensures { result ≡ (starts_with (ascii "top=") line.now && is_name (drop 4 line.now)) }
{
    if !text::compare::starts_with(line, b"top=") {
        return false;
    }
    let v = text::part::rest(line, 4);
    fields::is_name(v)
}

// Whether a line is `start=PATH`.
pub fn is_start(line: &[u8]) -> bool
    ensures { result ≡ (starts_with (ascii "start=") line.now && is_path (drop 6 line.now)) }
{
    if !text::compare::starts_with(line, b"start=") {
        return false;
    }
    let v = text::part::rest(line, 6);
    fields::is_path(v)
}

// Whether a line is a port line, good in a module of a style that has `count` ports. Where its key is another kind's, it is none.
#[tactic(auto, using(crate::proofs::Looks::port_lines))]
pub fn port_line(line: &[u8], style: Style, count: usize) -> Result<bool, Refusal>
    ensures { numbered result ≡ verdict (port_read (style_is style) count line.now) }
{
    if !text::compare::starts_with(line, b"port=") {
        return Ok(false);
    }
    let v = text::part::rest(line, 5);
    let Some(f) = form::port_form(v) else {
        return Err(Refusal::Malformed);
    };
    if !form::may_have(style, f.dir) {
        return Err(Refusal::Malformed);
    }
    if MOST_PORTS <= count {
        return Err(Refusal::OverLimit);
    }
    Ok(true)
}

// Whether a line is a declaration line, good in a module that has `count` declarations. One function for this and for `conn_line` would take the key,
// the form and the limit of each, and be no plainer.
#[tactic(auto, using(crate::proofs::Looks::decl_lines))]
pub fn decl_line(line: &[u8], count: usize) -> Result<bool, Refusal>
    ensures { numbered result ≡ verdict (decl_read count line.now) }
{
    if !text::compare::starts_with(line, b"decl=") {
        return Ok(false);
    }
    let v = text::part::rest(line, 5);
    if form::decl_form(v).is_none() {
        return Err(Refusal::Malformed);
    }
    if MOST_DECLS <= count {
        return Err(Refusal::OverLimit);
    }
    Ok(true)
}

// Whether a line is a connection line, good for an instance that has `count` connections.
#[tactic(auto, using(crate::proofs::Looks::conn_lines))]
pub fn conn_line(line: &[u8], count: usize) -> Result<bool, Refusal>
    ensures { numbered result ≡ verdict (conn_read count line.now) }
{
    if !text::compare::starts_with(line, b"conn=") {
        return Ok(false);
    }
    let v = text::part::rest(line, 5);
    if form::conn_form(v).is_none() {
        return Err(Refusal::Malformed);
    }
    if MOST_CONNS <= count {
        return Err(Refusal::OverLimit);
    }
    Ok(true)
}
