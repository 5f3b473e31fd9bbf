// The lines of a module in the job, one after the other: ports, declarations, instances and an instance's connections.
// A step is from a place in the job; it passes over lines of other kinds. Names are parts of the job.
#![tactic(auto)]

ghost use Rattle.std.specs.Prelude.{◌≡◌, ◌+◌, ◌≤◌, length, drop};
ghost use Rattle.fields.specs.Meant.{is_some};
ghost use Rattle.joblines.specs.Forms.{port_meant, decl_meant, inst_meant, conn_meant};
ghost use Rattle.joblines.specs.Sections.{port_here, decl_here, inst_here, conn_here};
ghost use Rattle.lines.specs.Cursors.{Cut, PortSeen, DeclSeen, InstSeen, ConnSeen, LineFound, spanned, span_in, conn_placed};

use fields::{Dims, Dir, Kind};
use jobindex::Span;
use joblines::form::{ConnForm, DeclForm, InstForm, PortForm};

// A port line, and where the lines behind it begin.
#[derive(Clone, Copy)]
pub struct PortAt {
    pub dir: Dir,
    pub name: Span,
    pub next: usize,
}

// A declaration line, and where the lines behind it begin.
#[derive(Clone, Copy)]
pub struct DeclAt {
    pub kind: Kind,
    pub dims: Dims,
    pub name: Span,
    pub next: usize,
}

// An instance line, with the name of its module, and where the lines behind it begin: those of its connections.
#[derive(Clone, Copy)]
pub struct InstAt {
    pub dims: Dims,
    pub name: Span,
    pub kind: Span,
    pub next: usize,
}

// A connection line, and where the lines behind it begin.
#[derive(Clone, Copy)]
pub enum ConnAt {
    Star { next: usize },
    Implicit { port: Span, next: usize },
    Named { port: Span, net: Span, next: usize },
    Pos { net: Span, next: usize },
}

// The LF of the line that begins at `at`; `end` where there is none before it.
#[inline(always)]
#[tactic(auto, using(crate::proofs::Turns::cuts))]
pub fn line_end(job: &[u8], at: usize, end: usize) -> usize
    ensures { Cut job.now at end result }
{
    if end <= at {
        return end;
    }
    let s = text::part::part(job, at, end - at);
    let n = text::scan::find_far(s, 0, b'\n');
    if n == s.len() {
        return end;
    }
    at + n
}

// The LF of the line that begins at `at`, if there is one before `end`.
#[inline(always)]
fn line_feed(job: &[u8], at: usize, end: usize) -> Option<usize>
    ensures { LineFound job.now at end result }
{
    let e = line_end(job, at, end);
    (e < end).then_some(e)
}

// The part of a line's value from n on, `len` bytes or all that are there; the value ends at e of the job.
#[inline(always)]
#[tactic(auto, using(crate::proofs::Turns::spans))]
fn span_in(v: &[u8], e: usize, n: usize, len: usize) -> Span
    requires { length v.now ≤ e }
    ensures { result ≡ span_in v.now e n len }
{
    let w = text::part::rest(v, n);
    let p = text::part::part(w, 0, len);
    Span {
        at: e - w.len(),
        len: p.len(),
    }
}

// The port of a line, if it is a port line: offsets are in its value. One function for this and the next three would take the key, and the form as a
// closure with a contract of its own, and be no plainer.
#[tactic(auto, using(crate::proofs::Turns::port_heres))]
fn port_here(line: &[u8]) -> Option<PortForm>
    ensures { port_meant (drop 5 line.now) result ≡ port_here line.now }
{
    if !text::compare::starts_with(line, b"port=") {
        return None;
    }
    joblines::form::port_form(text::part::rest(line, 5))
}

// The declaration of a line, if it is a declaration line.
#[tactic(auto, using(crate::proofs::Turns::decl_heres))]
fn decl_here(line: &[u8]) -> Option<DeclForm>
    ensures { decl_meant (drop 5 line.now) result ≡ decl_here line.now }
{
    if !text::compare::starts_with(line, b"decl=") {
        return None;
    }
    joblines::form::decl_form(text::part::rest(line, 5))
}

// The instance of a line, if it is an instance line.
#[inline(always)]
#[tactic(auto, using(crate::proofs::Turns::inst_heres))]
fn inst_here(line: &[u8]) -> Option<InstForm>
    ensures { inst_meant (drop 5 line.now) result ≡ inst_here line.now }
{
    if !text::compare::starts_with(line, b"inst=") {
        return None;
    }
    joblines::form::inst_form(text::part::rest(line, 5))
}

// The connection of a line, if it is a connection line.
#[tactic(auto, using(crate::proofs::Turns::conn_heres))]
fn conn_here(line: &[u8]) -> Option<ConnForm>
    ensures { conn_meant (drop 5 line.now) result ≡ conn_here line.now }
{
    if !text::compare::starts_with(line, b"conn=") {
        return None;
    }
    joblines::form::conn_form(text::part::rest(line, 5))
}

// The next port of the lines from `at` up to `end`. A function for each kind of line: what each gives and promises differs in more than a type,
// so that one for all would be no plainer.
#[tactic(auto, using(crate::proofs::Turns::port_turns))]
pub fn next_port(job: &[u8], at: usize, end: usize) -> Option<PortAt>
    ensures { PortSeen job.now at end result }
{
    let mut i = at;
    while let Some(e) = line_feed(job, i, end) {
        let line = text::part::part(job, i, e - i);
        if let Some(form) = port_here(line) {
            let v = text::part::rest(line, 5);
            return Some(PortAt {
                dir: form.dir,
                name: span_in(v, e, form.name, v.len()),
                next: e + 1,
            });
        }
        i = e + 1;
    }
    None
}

// The next declaration of the lines from `at` up to `end`.
#[tactic(auto, using(crate::proofs::Turns::decl_turns))]
pub fn next_decl(job: &[u8], at: usize, end: usize) -> Option<DeclAt>
    ensures { DeclSeen job.now at end result }
{
    let mut i = at;
    while let Some(e) = line_feed(job, i, end) {
        let line = text::part::part(job, i, e - i);
        if let Some(form) = decl_here(line) {
            let v = text::part::rest(line, 5);
            return Some(DeclAt {
                kind: form.kind,
                dims: form.dims,
                name: span_in(v, e, form.name, v.len()),
                next: e + 1,
            });
        }
        i = e + 1;
    }
    None
}

// The next instance of the lines from `at` up to `end`.
#[inline(always)]
#[tactic(auto, using(crate::proofs::Turns::inst_turns))]
pub fn next_inst(job: &[u8], at: usize, end: usize) -> Option<InstAt>
    ensures { InstSeen job.now at end result }
{
    let mut i = at;
    while let Some(e) = line_feed(job, i, end) {
        let line = text::part::part(job, i, e - i);
        if let Some(form) = inst_here(line) {
            let v = text::part::rest(line, 5);
            return Some(InstAt {
                dims: form.dims,
                name: span_in(v, e, form.name, form.len),
                kind: span_in(v, e, form.kind, v.len()),
                next: e + 1,
            });
        }
        i = e + 1;
    }
    None
}

// Whether a line is an instance line.
#[tactic(auto, using(crate::proofs::Turns::inst_asks))]
fn is_inst(line: &[u8]) -> bool
    ensures { result ≡ is_some (inst_here line.now) }
{
    inst_here(line).is_some()
}

// A connection with the parts of the job that its fields are: v is its line's value, which ends at e.
#[tactic(auto, using(crate::proofs::Turns::conn_ats))]
fn conn_at(v: &[u8], e: usize, f: ConnForm, next: usize) -> ConnAt
    requires { length v.now ≤ e }
    ensures { result ≡ conn_placed v.now e f next }
{
    match f {
        ConnForm::Star => ConnAt::Star { next },
        ConnForm::Implicit(p) => ConnAt::Implicit {
            port: span_in(v, e, p, v.len()),
            next,
        },
        ConnForm::Named { port, len, net } => ConnAt::Named {
            port: span_in(v, e, port, len),
            net: span_in(v, e, net, v.len()),
            next,
        },
        ConnForm::Pos(n) => ConnAt::Pos {
            net: span_in(v, e, n, v.len()),
            next,
        },
    }
}

// The next connection of the lines from `at` up to `end`; none behind the next instance.
#[tactic(auto, using(crate::proofs::Turns::conn_turns))]
pub fn next_conn(job: &[u8], at: usize, end: usize) -> Option<ConnAt>
    ensures { ConnSeen job.now at end result }
{
    let mut i = at;
    while let Some(e) = line_feed(job, i, end) {
        let line = text::part::part(job, i, e - i);
        if is_inst(line) {
            return None;
        }
        if let Some(form) = conn_here(line) {
            return Some(conn_at(text::part::rest(line, 5), e, form, e + 1));
        }
        i = e + 1;
    }
    None
}

// The bytes of a part of the job.
pub fn part_of(job: &[u8], s: Span) -> &[u8]
    ensures { result.now ≡ spanned job.now s }
{
    text::part::part(job, s.at, s.len)
}
