// Strategies by their numbers: the signal and the value at which each isolates, and whether two have the same.
#![tactic(auto)]

ghost use Rattle.std.specs.Prelude.{◌<◌, ◌≡◌, ◌++◌};
ghost use Rattle.text.specs.Compare.{same as Compare·same, less as Compare·less};
ghost use Rattle.spans.specs.Span.{bytes};
ghost use Rattle.out.specs.Bytewise.{dotted};
ghost use Rattle.names.specs.Name.{name_of};
ghost use Rattle.texts.specs.Isolation.{lowered};
ghost use Rattle.store.specs.View.{isolation_of};
ghost use Rattle.clamps.specs.Values.{stored_name, is_low};
ghost use Rattle.alike.specs.Strategies.{isolation_at, strategy_at, signal_name, are_alike};
ghost use Rattle.spans.specs.Memory.{memory};

use clamps::{is_low, stored};
use names::compare::dot;
use names::name::{Name, Stream, is_word};
use refs::no_name;
use spans::span;
use spans::span::{Memory, Span};
use store::state::{Few, Isolation};
use store::stored::Stored;

// The strategy of a number.
pub fn strategy(t: Few<Isolation>, i: usize) -> Isolation
    requires { i < 32 }
    ensures { result ≡ isolation_at t i }
{
    t.all[i]
}

// Its name.
pub fn named(t: Few<Isolation>, i: usize) -> Name
    requires { i < 32 }
    ensures { result ≡ stored_name (isolation_at t i).name }
{
    stored(strategy(t, i).name)
}

// A signal as a name: an empty one where none is given.
fn signal_name(m: Option<Stored>) -> Name
    ensures { result ≡ signal_name m }
{
    m.map_or(no_name(), stored)
}

// The signal of a strategy.
pub fn signal_of(t: Few<Isolation>, i: usize) -> Name
    requires { i < 32 }
    ensures { result ≡ signal_name (isolation_at t i).signal }
{
    signal_name(strategy(t, i).signal)
}

// Whether the sense of a strategy is low.
pub fn low_of(mem: &Memory, t: Few<Isolation>, i: usize) -> bool
    requires { i < 32 }
    ensures { result ≡ is_low (lowered (strategy_at (memory mem.now) t i).sense) }
{
    is_low(mem, strategy(t, i).sense)
}

// Whether two words are the same with `/` as `.`.
// Over words here, over names in `same_streams`, and with `lt` in `less_dotted`: one function for the three takes the stream and the comparison as
// parameters, which is no plainer.
fn same_words(mem: &Memory, a: Span, b: Span) -> bool
    ensures { result ≡ Compare·same (dotted (bytes (memory mem.now) a)) (dotted (bytes (memory mem.now) b)) }
{
    let x = span::Stream { mem, left: a }.map(dot);
    let y = span::Stream { mem, left: b }.map(dot);
    x.eq(y)
}

// Whether two names are the same with `/` as `.`, byte by byte.
fn same_streams(mem: &Memory, a: Name, b: Name) -> bool
    ensures { result ≡ Compare·same (dotted (name_of (memory mem.now) a)) (dotted (name_of (memory mem.now) b)) }
{
    let x = Stream { mem, left: a }.map(dot);
    let y = Stream { mem, left: b }.map(dot);
    x.eq(y)
}

// Whether two names are the same with `/` as `.`. No derive says this: names at other places can be the same.
pub fn same_dotted(mem: &Memory, a: Name, b: Name) -> bool
    ensures { result ≡ Compare·same (dotted (name_of (memory mem.now) a)) (dotted (name_of (memory mem.now) b)) }
{
    if is_word(a) & is_word(b) {
        return same_words(mem, a.word, b.word);
    }
    same_streams(mem, a, b)
}

// Whether the first name comes before the second with `/` as `.`.
pub fn less_dotted(mem: &Memory, a: Name, b: Name) -> bool
    ensures { result ≡ Compare·less (dotted (name_of (memory mem.now) a)) (dotted (name_of (memory mem.now) b)) }
{
    let x = Stream { mem, left: a }.map(dot);
    let y = Stream { mem, left: b }.map(dot);
    x.lt(y)
}

// Whether two strategies have the same signal and the same active value.
pub fn alike_rows(mem: &Memory, a: Isolation, b: Isolation) -> bool
    ensures { result ≡ are_alike (isolation_of (memory mem.now) a) (isolation_of (memory mem.now) b) }
{
    if !same_dotted(mem, signal_name(a.signal), signal_name(b.signal)) {
        return false;
    }
    is_low(mem, a.sense) == is_low(mem, b.sense)
}

// Whether two strategies, by their numbers, have the same signal and the same active value.
pub fn alike(mem: &Memory, t: Few<Isolation>, i: usize, j: usize) -> bool
    requires { (i < 32) × (j < 32) }
    ensures { result ≡ are_alike (strategy_at (memory mem.now) t i) (strategy_at (memory mem.now) t j) }
{
    if i == j {
        return true;
    }
    alike_rows(mem, t.all[i], t.all[j])
}
