// The arguments of the templates about isolated ports and their strategies.
#![tactic(auto)]

ghost use Rattle.std.specs.Prelude.{◌<◌, ◌≡◌, ◌++◌};
ghost use Rattle.portargs.specs.Args.{net_arg, port_arg, literal_arg, strategy_arg, signal_arg, active_arg};
ghost use Rattle.spans.specs.Memory.{memory};

use alike::{low_of, named, signal_of};
use clamps::active;
use format::arg::{Arg, Wrap, fixed, hier, name, wrapped};
use isolated::{Isolated, net, port};
use spans::span::Memory;
use store::state::{Few, Isolation};
use texts::Literal;

// The parent's net of a port, below the scope.
pub fn net_arg(x: Isolated) -> Arg
    ensures { result ≡ net_arg x }
{
    wrapped(Wrap::Hier, net(x))
}

// The port, from the top on.
pub fn port_arg(x: Isolated) -> Arg
    ensures { result ≡ port_arg x }
{
    wrapped(Wrap::Rooted, port(x))
}

// The literal of a clamp value; nothing where it is not simulated.
#[tactic(auto, using(crate::proofs::Made::literals))]
pub fn literal_arg(c: Option<Literal>) -> Arg
    ensures { result ≡ literal_arg c }
{
    match c {
        Some(k) => fixed(Wrap::Literal(k)),
        None => fixed(Wrap::Plain),
    }
}

// The name of a strategy.
pub fn strategy_arg(t: Few<Isolation>, i: usize) -> Arg
    requires { i < 32 }
    ensures { result ≡ strategy_arg t i }
{
    name(named(t, i))
}

// Its signal, below the scope.
pub fn signal_arg(t: Few<Isolation>, i: usize) -> Arg
    requires { i < 32 }
    ensures { result ≡ signal_arg t i }
{
    hier(signal_of(t, i))
}

// The value at which it isolates.
pub fn active_arg(mem: &Memory, t: Few<Isolation>, i: usize) -> Arg
    requires { i < 32 }
    ensures { result ≡ active_arg (memory mem.now) t i }
{
    fixed(Wrap::Literal(active(low_of(mem, t, i))))
}
