// The number of a path: paths with different numbers differ. It is made piece by piece, as a path is.
#![tactic(auto)]

ghost use Rattle.std.specs.Prelude.{◌≡◌, ◌++◌};
ghost use Rattle.names.specs.Name.{name_of};
ghost use Rattle.design.specs.Paths.{dotted};
ghost use Rattle.pathnumber.specs.Number.{after as Number·after, number};
ghost use Rattle.spans.specs.Memory.{memory};

use names::compare::dot;
use names::name::{Name, Stream};
use spans::span::Memory;

// The number of a text whose number is h, with a byte more.
fn after(h: usize, b: u8) -> usize
    ensures { result ≡ Number·after h b }
{
    h % 4294967296 * 31 + b as usize
}

// The number of a text whose number is h, with p behind it.
pub fn number_on(h: usize, p: &[u8]) -> usize
    ensures { result ≡ number h p.now }
{
    let mut x = h;
    for b in p {
        x = after(x, *b);
    }
    x
}

// The number of an element, with `/` as `.`.
pub fn element_number(mem: &Memory, e: Name) -> usize
    ensures { result ≡ number 0 (dotted (name_of (memory mem.now) e)) }
{
    let mut h = 0;
    let left = e;
    for b in (Stream { mem, left }) {
        h = after(h, dot(b));
    }
    h
}
