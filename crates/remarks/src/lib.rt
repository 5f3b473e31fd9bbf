// What the report says of a strategy: its line, and the warnings why it is not simulated. Where `warn` is set the warnings are written, else the line.
#![tactic(auto)]

ghost use Rattle.std.specs.Prelude.{◌≡◌, ◌++◌};
ghost use Rattle.text.specs.Ascii.{ascii};
ghost use Rattle.out.specs.Text.{Writes};
ghost use Rattle.names.specs.Name.{name_of};
ghost use Rattle.model.specs.Commands.{or_else};
ghost use Rattle.store.specs.Strings.{string, maybe_of};
ghost use Rattle.texts.specs.Isolation.{lowered};
ghost use Rattle.texts.specs.Texts.{warning_line};
ghost use Rattle.keep.specs.Covered.{Remarked};
ghost use Rattle.remarks.specs.Lines.{no_signal, unknown_domain, not_outputs, clamp_unknown, strategy_line, or_arg, Lined};
ghost use Rattle.spans.specs.Memory.{memory};

use clamps::{put_lowered, stored};
use format::arg::{Arg, Wrap, fixed, name as name_arg};
use format::fill::{fill, fill1, fill2};
use format::source::Source;
use jobindex::{Design, Index};
use keep::{Cover, warned};
use names::name::Name;
use out::emit::Text;
use scope::ScopePath;
use spans::span::Memory;
use store::state::Isolation;
use store::stored::Stored;
use texts::Literal;

// It has no signal.
#[tactic(auto, using(crate::proofs::Texts::warns))]
pub fn no_signal<'a>(
    out: &mut [u8],
    warn: bool,
    job: &'a [u8],
    mem: &Memory<'a>,
    c: Cover,
    n: Name,
) -> Cover
    ensures { Remarked warn (no_signal (name_of (memory mem.now) n)) c out.old result out.new }
{
    if !warn {
        return warned(c, c.at);
    }
    let mut text = Text::over(out, c.at);
    fill1(
        &mut text,
        b"warning: isolation strategy '{0}' has no -isolation_signal; not simulated\n",
        &Source {
            design: Design {
                index: Index { job, rows: &[] },
                count: 0,
            },
            mem: *mem,
            scope: ScopePath { over: b"", from: 0 },
            top: b"",
        },
        name_arg(n),
    );
    let o = text.end();
    warned(c, o)
}

// Its domain d is not known.
// As `not_outputs` with another template: one function for both takes the template and the definition that it writes, which is no plainer.
#[tactic(auto, using(crate::proofs::Texts::warns))]
pub fn unknown_domain<'a>(
    out: &mut [u8],
    warn: bool,
    job: &'a [u8],
    mem: &Memory<'a>,
    c: Cover,
    n: Name,
    d: Name,
) -> Cover
    ensures { Remarked warn (unknown_domain (name_of (memory mem.now) n) (name_of (memory mem.now) d)) c out.old result out.new }
{
    if !warn {
        return warned(c, c.at);
    }
    let mut text = Text::over(out, c.at);
    fill2(
        &mut text,
        b"warning: isolation strategy '{0}': unknown domain '{1}'\n",
        &Source {
            design: Design {
                index: Index { job, rows: &[] },
                count: 0,
            },
            mem: *mem,
            scope: ScopePath { over: b"", from: 0 },
            top: b"",
        },
        name_arg(n),
        name_arg(d),
    );
    let o = text.end();
    warned(c, o)
}

// It applies to a, which is not the outputs.
#[tactic(auto, using(crate::proofs::Texts::warns))]
pub fn not_outputs<'a>(
    out: &mut [u8],
    warn: bool,
    job: &'a [u8],
    mem: &Memory<'a>,
    c: Cover,
    n: Name,
    a: Name,
) -> Cover
    ensures { Remarked warn (not_outputs (name_of (memory mem.now) n) (name_of (memory mem.now) a)) c out.old result out.new }
{
    if !warn {
        return warned(c, c.at);
    }
    let mut text = Text::over(out, c.at);
    fill2(
        &mut text,
        b"warning: isolation strategy '{0}': -applies_to {1} not simulated (outputs only)\n",
        &Source {
            design: Design {
                index: Index { job, rows: &[] },
                count: 0,
            },
            mem: *mem,
            scope: ScopePath { over: b"", from: 0 },
            top: b"",
        },
        name_arg(n),
        name_arg(a),
    );
    let o = text.end();
    warned(c, o)
}

// Writes the warning about the clamp value v.
fn put_unknown<'a>(to: &mut Text, job: &'a [u8], mem: &Memory<'a>, n: Name, v: Name)
    ensures { Writes to.old (warning_line (clamp_unknown (name_of (memory mem.now) n) (lowered (name_of (memory mem.now) v)))) to.new }
{
    fill1(
        to,
        b"warning: isolation strategy '{0}': clamp value '",
        &Source {
            design: Design {
                index: Index { job, rows: &[] },
                count: 0,
            },
            mem: *mem,
            scope: ScopePath { over: b"", from: 0 },
            top: b"",
        },
        name_arg(n),
    );
    put_lowered(to, mem, v);
    to.put(b"' not simulated\n")
}

// Its clamp value v is none that is simulated.
#[tactic(auto, using(crate::proofs::Texts::warns))]
pub fn clamp_unknown<'a>(
    out: &mut [u8],
    warn: bool,
    job: &'a [u8],
    mem: &Memory<'a>,
    c: Cover,
    n: Name,
    v: Name,
) -> Cover
    ensures { Remarked warn (clamp_unknown (name_of (memory mem.now) n) (lowered (name_of (memory mem.now) v))) c out.old result out.new }
{
    if !warn {
        return warned(c, c.at);
    }
    let mut text = Text::over(out, c.at);
    put_unknown(&mut text, job, mem, n, v);
    let o = text.end();
    warned(c, o)
}

// What is given, or a literal.
#[tactic(auto, using(crate::proofs::Texts::ors))]
fn or_literal(m: Option<Stored>, k: Literal) -> Arg
    ensures { result ≡ or_arg m k }
{
    match m {
        None => fixed(Wrap::Literal(k)),
        Some(s) => name_arg(stored(s)),
    }
}

// Writes the line of a strategy with this signal.
fn put_line<'a>(to: &mut Text, job: &'a [u8], mem: &Memory<'a>, x: Isolation, signal: Name)
    ensures { Writes to.old (strategy_line (string (memory mem.now) x.name) (string (memory mem.now) x.domain) (or_else (maybe_of (memory mem.now) x.clamp) (ascii "0")) (name_of (memory mem.now) signal) (or_else (maybe_of (memory mem.now) x.sense) (ascii "high"))) to.new }
{
    let own = x.name;
    let domain = x.domain;
    let given = x.clamp;
    let written = x.sense;
    let n = stored(own);
    let d = stored(domain);
    let clamp = or_literal(given, Literal::Zero);
    let sense = or_literal(written, Literal::High);
    fill(
        to,
        b"isolation {0} on {1}: clamp {2} control {3} sense {4}\n",
        &Source {
            design: Design {
                index: Index { job, rows: &[] },
                count: 0,
            },
            mem: *mem,
            scope: ScopePath { over: b"", from: 0 },
            top: b"",
        },
        name_arg(n),
        name_arg(d),
        clamp,
        name_arg(signal),
        sense,
    )
}

// The line of a strategy with this signal.
#[tactic(auto, using(crate::proofs::Texts::lineds))]
pub fn line<'a>(
    out: &mut [u8],
    warn: bool,
    job: &'a [u8],
    mem: &Memory<'a>,
    c: Cover,
    x: Isolation,
    signal: Name,
) -> Cover
    ensures { Lined warn (strategy_line (string (memory mem.now) x.name) (string (memory mem.now) x.domain) (or_else (maybe_of (memory mem.now) x.clamp) (ascii "0")) (name_of (memory mem.now) signal) (or_else (maybe_of (memory mem.now) x.sense) (ascii "high"))) c out.old result out.new }
{
    if warn {
        return c;
    }
    let mut text = Text::over(out, c.at);
    put_line(&mut text, job, mem, x, signal);
    let o = text.end();
    Cover {
        over: c.over,
        ports: c.ports,
        warnings: c.warnings,
        at: o,
    }
}
