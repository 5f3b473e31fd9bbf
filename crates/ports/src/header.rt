// The ports of a header: lines from `at` up to `end`. A port without a direction has the last one, and before any it is an input.
ghost use Rattle.std.specs.Prelude.{◌≡◌, Bool};
ghost use Rattle.fields.specs.Meant.{dir_is};
ghost use Rattle.joblines.specs.Sections.{ports_in};
ghost use Rattle.jobindex.specs.Index.{section};
ghost use Rattle.design.specs.Lists.{is_in};
ghost use Rattle.ports.specs.Headers.{out_by, outputs_by, HeaderSeen, OtherSeen};

use super::NameAt;
use fields::Dir;

// Whether a port is an output, behind one that is (`out`) or is not.
fn outward(out: bool, dir: Dir) -> bool
    ensures { result ≡ out_by out (dir_is dir) }
{
    match dir {
        Dir::In | Dir::Inout | Dir::Ref => false,
        Dir::Out => true,
        Dir::None => out,
    }
}

// The next output port.
#[tactic(auto, using(crate::proofs::Turns::header_turns))]
pub fn next_output(job: &[u8], at: usize, end: usize, out: bool) -> Option<NameAt>
    ensures { HeaderSeen job.now at end out result }
{
    let mut i = at;
    let mut o = out;
    while let Some(port) = lines::next_port(job, i, end) {
        if outward(o, port.dir) {
            return Some(NameAt {
                name: port.name,
                next: port.next,
            });
        }
        i = port.next;
        o = false;
    }
    None
}

// The next port that is no output, from the first line or from behind such a port. Where its line is goes unsaid, so that one function for this
// and for `next_output` would promise less of outputs or be no plainer.
#[tactic(auto, using(crate::proofs::Turns::next_turns))]
pub fn next_other(job: &[u8], at: usize, end: usize) -> Option<NameAt>
    ensures { OtherSeen job.now at end result }
{
    let mut i = at;
    let mut o = false;
    while let Some(port) = lines::next_port(job, i, end) {
        if !outward(o, port.dir) {
            return Some(NameAt {
                name: port.name,
                next: port.next,
            });
        }
        i = port.next;
        o = true;
    }
    None
}

// Whether a name is an output port.
#[tactic(auto, using(crate::proofs::Turns::output_turns))]
pub fn is_output(job: &[u8], at: usize, end: usize, name: &[u8]) -> bool
    ensures { result ≡ is_in name.now (outputs_by Bool.false (ports_in (section job.now at end))) }
{
    let mut i = at;
    let mut o = false;
    while let Some(port) = next_output(job, i, end, o) {
        if text::compare::same(name, lines::part_of(job, port.name)) {
            return true;
        }
        i = port.next;
        o = true;
    }
    false
}
