// A strategy's own values: the clamp value, the sense, and what it applies to. Where one is not given, its default stands.
#![tactic(auto)]

ghost use Rattle.std.specs.Prelude.{◌≡◌, ◌++◌};
ghost use Rattle.text.specs.Ascii.{ascii};
ghost use Rattle.text.specs.Compare.{same};
ghost use Rattle.out.specs.Text.{Writes};
ghost use Rattle.spans.specs.Span.{bytes};
ghost use Rattle.names.specs.Name.{name_of};
ghost use Rattle.model.specs.Commands.{or_else};
ghost use Rattle.store.specs.Strings.{string, maybe_of};
ghost use Rattle.texts.specs.Isolation.{lower as Isolation·lower, lowered, is_outputs};
ghost use Rattle.clamps.specs.Values.{stored_name, clamp_literal, is_low, active_literal};
ghost use Rattle.spans.specs.Memory.{memory};

use names::name::{Form, Name, alone, next};
use out::emit::Text;
use spans::span::{Memory, Span, first};
use store::stored::Stored;
use texts::Literal;

// A stored string as a name.
#[tactic(auto, using(crate::proofs::Streams::values))]
pub fn stored(s: Stored) -> Name
    ensures { result ≡ stored_name s }
{
    alone(Span::from(s), Form::Word)
}

// A byte in lower case.
#[tactic(auto, using(crate::proofs::Streams::lowers))]
fn lower(b: u8) -> u8
    ensures { result ≡ Isolation·lower b }
{
    if (b'A' <= b) & (b <= b'Z') {
        return b + 32;
    }
    b
}

// Whether a string in lower case is w.
#[tactic(auto, using(crate::proofs::Streams::lows))]
fn is_lowered(mem: &Memory, s: Span, w: &[u8]) -> bool
    ensures { result ≡ same (lowered (bytes (memory mem.now) s)) w.now }
{
    let mut x = s;
    for c in w {
        let Some((b, u)) = first(mem, x) else {
            return false;
        };
        if lower(b) != *c {
            return false;
        }
        x = u;
    }
    first(mem, x).is_none()
}

// The literal of a clamp value that is given; None where it is not simulated.
#[tactic(auto, using(crate::proofs::Streams::tolds))]
fn given_clamp(mem: &Memory, s: Stored) -> Option<Literal>
    ensures { result ≡ clamp_literal (lowered (string (memory mem.now) s)) }
{
    let v = Span::from(s);
    if is_lowered(mem, v, b"0") {
        return Some(Literal::Zero);
    }
    if is_lowered(mem, v, b"1") {
        return Some(Literal::One);
    }
    if is_lowered(mem, v, b"z") {
        return Some(Literal::Z);
    }
    None
}

// The literal of a clamp value; None where it is not simulated.
#[tactic(auto, using(crate::proofs::Streams::values))]
pub fn clamp(mem: &Memory, m: Option<Stored>) -> Option<Literal>
    ensures { result ≡ clamp_literal (lowered (or_else (maybe_of (memory mem.now) m) (ascii "0"))) }
{
    match m {
        None => Some(Literal::Zero),
        Some(s) => given_clamp(mem, s),
    }
}

// Whether a sense that is given is low.
#[tactic(auto, using(crate::proofs::Streams::tolds))]
fn given_low(mem: &Memory, s: Stored) -> bool
    ensures { result ≡ is_low (lowered (string (memory mem.now) s)) }
{
    is_lowered(mem, Span::from(s), b"low")
}

// Whether a strategy's sense is low.
#[tactic(auto, using(crate::proofs::Streams::values))]
pub fn is_low(mem: &Memory, m: Option<Stored>) -> bool
    ensures { result ≡ is_low (lowered (or_else (maybe_of (memory mem.now) m) (ascii "high"))) }
{
    match m {
        None => false,
        Some(s) => given_low(mem, s),
    }
}

// The literal of the value at which a strategy isolates, by whether its sense is low.
#[tactic(auto, using(crate::proofs::Streams::actives))]
pub fn active(low: bool) -> Literal
    ensures { result ≡ active_literal low }
{
    if low {
        return Literal::BitZero;
    }
    Literal::BitOne
}

// Whether what is given names the outputs.
#[tactic(auto, using(crate::proofs::Streams::values))]
fn given_outputs<'a>(mem: &Memory<'a>, s: Stored) -> bool
    ensures { result ≡ is_outputs (string (memory mem.now) s) }
{
    if spans::span::is(mem, Span::from(s), b"outputs") {
        return true;
    }
    spans::span::is(mem, Span::from(s), b"both")
}

// Whether a strategy without elements is about outputs.
#[tactic(auto, using(crate::proofs::Streams::values))]
pub fn is_outputs<'a>(mem: &Memory<'a>, m: Option<Stored>) -> bool
    ensures { result ≡ is_outputs (or_else (maybe_of (memory mem.now) m) (ascii "outputs")) }
{
    match m {
        None => true,
        Some(s) => given_outputs(mem, s),
    }
}

// Writes a name in lower case.
#[tactic(auto, using(crate::proofs::Streams::puts))]
pub fn put_lowered(to: &mut Text, mem: &Memory, n: Name)
    ensures { Writes to.old (lowered (name_of (memory mem.now) n)) to.new }
{
    let mut x = n;
    while let Some((b, u)) = next(mem, x) {
        to.byte(lower(b));
        x = u;
    }
}
