// The names of declarations: lines from `at` up to `end`.
ghost use Rattle.std.specs.Prelude.{◌≡◌, not, drop, get_or};
ghost use Rattle.fields.specs.Meant.{dims_is, kind_is};
ghost use Rattle.joblines.specs.Sections.{decls_in};
ghost use Rattle.jobindex.specs.Index.{section};
ghost use Rattle.design.specs.Lists.{is_in};
ghost use Rattle.design.specs.Ports.{is_signal};
ghost use Rattle.ports.specs.Bodies.{body_out, body_other, is_off, pick_is, picked, BodySeen};

use super::NameAt;
use fields::{Dims, Kind};

// Which declarations: output ports, other ports, or `net` and `data` without dimensions.
#[derive(Clone, Copy)]
pub enum Pick {
    Output,
    Other,
    Signal,
}

// Whether a declaration is an output port.
fn is_out(kind: Kind) -> bool
    ensures { result ≡ body_out (kind_is kind) }
{
    matches!(kind, Kind::Out)
}

// Whether it is any other port.
fn is_port(kind: Kind) -> bool
    ensures { result ≡ body_other (kind_is kind) }
{
    matches!(kind, Kind::In | Kind::Inout | Kind::Ref)
}

// Whether it is `net` or `data`.
fn is_signal(kind: Kind) -> bool
    ensures { result ≡ is_signal (kind_is kind) }
{
    matches!(kind, Kind::Net | Kind::Data)
}

// Whether a D is 0.
fn is_plain(dims: Dims) -> bool
    ensures { result ≡ not (dims_is dims) }
{
    !matches!(dims, Dims::One)
}

// Whether a declaration is of the kind asked for.
#[tactic(auto, using(crate::proofs::Turns::pick_cases))]
fn picks(pick: Pick, kind: Kind, dims: Dims) -> bool
    ensures { result ≡ pick_is pick (kind_is kind) (dims_is dims) }
{
    match pick {
        Pick::Output => is_out(kind),
        Pick::Other => is_port(kind),
        Pick::Signal => is_signal(kind) && is_plain(dims),
    }
}

// Whether no declaration whose value begins with b is of the kind asked for.
#[tactic(auto, using(crate::proofs::Firsts::offs))]
fn is_off(pick: Pick, b: u8) -> bool
    ensures { result ≡ is_off pick b }
{
    match pick {
        Pick::Output => b != b'o',
        Pick::Other => b != b'i' && b != b'r',
        Pick::Signal => b != b'n' && b != b'd',
    }
}

// The first byte of the value of a declaration line that begins at i.
#[tactic(auto, using(crate::proofs::Firsts::offs))]
fn value_byte(job: &[u8], i: usize) -> u8
    ensures { result ≡ get_or (drop i job.now) 5 0 }
{
    text::part::peek(text::part::rest(job, i), 5)
}

// The next name of the kind. A loop and no iterator over declarations: a line that cannot be one of the kind is known by a byte and not read.
#[tactic(auto, using(crate::proofs::Turns::body_turns, crate::proofs::Firsts::off_turns))]
pub fn next_of(job: &[u8], at: usize, end: usize, pick: Pick) -> Option<NameAt>
    ensures { BodySeen job.now at end pick result }
{
    let mut i = at;
    // No `while let`: a line is passed over in two ways, and only one of them reads it.
    loop {
        if is_off(pick, value_byte(job, i)) {
            let e = lines::line_end(job, i, end);
            if end <= e {
                return None;
            }
            i = e + 1;
            continue;
        }
        let decl = lines::next_decl(job, i, end)?;
        if picks(pick, decl.kind, decl.dims) {
            return Some(NameAt {
                name: decl.name,
                next: decl.next,
            });
        }
        i = decl.next;
    }
}

// Whether a name is one of the kind.
#[tactic(auto, using(crate::proofs::Turns::of_turns))]
pub fn is_of(job: &[u8], at: usize, end: usize, pick: Pick, name: &[u8]) -> bool
    ensures { result ≡ is_in name.now (picked pick (decls_in (section job.now at end))) }
{
    let mut i = at;
    while let Some(own) = next_of(job, i, end, pick) {
        if text::compare::same(name, lines::part_of(job, own.name)) {
            return true;
        }
        i = own.next;
    }
    false
}
