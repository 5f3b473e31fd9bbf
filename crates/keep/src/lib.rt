// A port that a strategy aims at: covered already, kept in the table of isolated ports, or remarked upon in a warning.
#![tactic(auto)]

ghost use Rattle.std.specs.Prelude.{◌+◌, ◌≤◌, ◌<◌, ◌^◌, ◌≡◌, ◌++◌, length};
ghost use Rattle.text.specs.Compare.{same};
ghost use Rattle.design.specs.Lists.{is_in};
ghost use Rattle.names.specs.Name.{name_of};
ghost use Rattle.refs.specs.Text.{text_of};
ghost use Rattle.isolated.specs.Table.{Fits, port_row, port_ref, kept_in, keys_of};
ghost use Rattle.keep.specs.Gains.{not_plain, gain_of};
ghost use Rattle.keep.specs.Held.{held_span, held_name, held_part};
ghost use Rattle.keep.specs.Covered.{more, refused_cover, warned_cover, Ready, Remarked, KeepSeen, with_net, aim_of, Answer};
ghost use Rattle.spans.specs.Memory.{memory};

use actual::Net;
use format::arg::{Wrap, name as name_arg, wrapped};
use format::fill::fill2;
use format::source::Source;
use isolated::{Isolated, is_other, port, port_at, put};
use jobindex::{Design, Index, Span as Part};
use names::name::Name;
use out::emit::Text;
use refs::{Ref, no_name, same_refs};
use scope::ScopePath;
use spans::span::{Memory, Span};
use text::part::Rows;

// How many ports are isolated, how many warnings there are, and where the text ends that is written; or more ports than allowed.
#[derive(Clone, Copy)]
pub struct Cover {
    pub over: bool,
    pub ports: usize,
    pub warnings: usize,
    pub at: usize,
}

// A span of the stored memory in numbers that can be held: what lies behind the end has no bytes.
#[tactic(auto, using(crate::proofs::Aims::numbers))]
fn held_span(mem: &Memory, s: Span) -> Span
    requires { length mem.now.files.now + length mem.now.area.now < 2 ^ 31 }
    ensures { result ≡ held_span (memory mem.now) s }
{
    let size = mem.files.len() + mem.area.len();
    Span {
        at: s.at.min(size),
        len: s.len.min(size),
    }
}

// A name in numbers that can be held.
#[tactic(auto, using(crate::proofs::Aims::made))]
pub fn held(mem: &Memory, n: Name) -> Name
    requires { length mem.now.files.now + length mem.now.area.now < 2 ^ 31 }
    ensures { result ≡ held_name (memory mem.now) n }
{
    let s = n.scope;
    let w = n.word;
    Name {
        scope: held_span(mem, s),
        sep: n.sep,
        word: held_span(mem, w),
        form: n.form,
    }
}

// A part of the job in numbers that can be held.
#[tactic(auto, using(crate::proofs::Aims::numbers))]
pub fn held_part(job: &[u8], s: Part) -> Part
    ensures { result ≡ held_part job.now s }
{
    Part {
        at: s.at.min(job.len()),
        len: s.len.min(job.len()),
    }
}

// Whether the port of row k is this one, as a text.
#[tactic(auto, using(crate::proofs::Aims::rows))]
fn is_row<'a>(job: &[u8], mem: &Memory<'a>, ports: &[u32], k: usize, p: Ref) -> bool
    requires { k < 256 }
    ensures { result ≡ same (text_of job.now (memory mem.now) p) (text_of job.now (memory mem.now) (port_ref (port_row ports.now k))) }
{
    let x = port_at(ports, k);
    same_refs(job, mem, p, port(x))
}

// Whether a port, which as a text is p, is isolated already.
#[tactic(auto, using(crate::proofs::Aims::seeks))]
fn is_covered<'a>(job: &[u8], mem: &Memory<'a>, ports: &Rows, x: Isolated, p: Ref) -> bool
    requires { (ports.now.n ≤ 256) × (p ≡ port_ref x) }
    ensures { result ≡ is_in (text_of job.now (memory mem.now) p) (keys_of (kept_in job.now (memory mem.now) ports.now.rows.now ports.now.n)) }
{
    for k in 0..ports.n {
        if is_other(job, mem, ports.rows, k, x) {
            continue;
        }
        if is_row(job, mem, ports.rows, k, p) {
            return true;
        }
    }
    false
}

// More ports than allowed.
pub fn refused() -> Cover
    ensures { result ≡ refused_cover }
{
    Cover {
        over: true,
        ports: 0,
        warnings: 0,
        at: 0,
    }
}

// A warning more. Past 512 the number says only that there are too many.
#[tactic(auto, using(crate::proofs::Aims::numbers))]
fn one_more(n: usize) -> usize
    ensures { result ≡ more n }
{
    if n < 513 { n + 1 } else { n }
}

// The text goes on at o, with a warning more.
#[tactic(auto, using(crate::proofs::Aims::made))]
pub fn warned(c: Cover, o: usize) -> Cover
    ensures { result ≡ warned_cover c o }
{
    Cover {
        over: c.over,
        ports: c.ports,
        warnings: one_more(c.warnings),
        at: o,
    }
}

// A port more.
#[tactic(auto, using(crate::proofs::Aims::keeps))]
fn keep(ports: &mut [u32], c: Cover, x: Isolated) -> Cover
    requires { Ready c ports.old × Fits x }
    ensures { KeepSeen c x ports.old result ports.new }
{
    let n = c.ports;
    if n == 256 {
        return refused();
    }
    put(ports, n, x);
    Cover {
        over: c.over,
        ports: n + 1,
        warnings: c.warnings,
        at: c.at,
    }
}

// A warning more: a port of an instance has no plain net.
#[tactic(auto, using(crate::proofs::Aims::warns))]
fn not_plain<'a>(
    out: &mut [u8],
    warn: bool,
    job: &'a [u8],
    mem: &Memory<'a>,
    c: Cover,
    name: Name,
    p: Ref,
) -> Cover
    ensures { Remarked warn (not_plain (name_of (memory mem.now) name) (text_of job.now (memory mem.now) p)) c out.old result out.new }
{
    if !warn {
        return warned(c, c.at);
    }
    let mut text = Text::over(out, c.at);
    fill2(
        &mut text,
        b"warning: isolation strategy '{0}': port '{1}' actual is not a plain net; not simulated\n",
        &Source {
            design: Design {
                index: Index { job, rows: &[] },
                count: 0,
            },
            mem: *mem,
            scope: ScopePath { over: b"", from: 0 },
            top: b"",
        },
        name_arg(name),
        wrapped(Wrap::Plain, p),
    );
    let o = text.end();
    warned(c, o)
}

// The port with a net that is named in the job.
#[tactic(auto, using(crate::proofs::Aims::nets))]
fn with_net(job: &[u8], x: Isolated, n: Part) -> Isolated
    ensures { result ≡ with_net x (held_part job.now n) }
{
    let e = x.element;
    let p = held_part(job, n);
    Isolated {
        strategy: x.strategy,
        element: e,
        sep: x.sep,
        at: x.at,
        len: x.len,
        upto: x.upto,
        last: no_name(),
        net: p.at,
        size: p.len,
    }
}

// A port more, with a net that is named in the job.
#[tactic(auto, using(crate::proofs::Aims::withs))]
fn keep_net(job: &[u8], ports: &mut [u32], c: Cover, x: Isolated, n: Part) -> Cover
    requires { Ready c ports.old × (Fits x × (length job.now < 2 ^ 32)) }
    ensures { KeepSeen c (with_net x (held_part job.now n)) ports.old result ports.new }
{
    let y = with_net(job, x, n);
    keep(ports, c, y)
}

// A port that a strategy aims at, with the parent's net that it has where that is of the port's own name.
#[tactic(auto, using(crate::proofs::Aims::aims))]
pub fn aim<'a>(
    out: &mut [u8],
    warn: bool,
    job: &[u8],
    mem: &Memory<'a>,
    ports: &mut [u32],
    c: Cover,
    name: Name,
    x: Isolated,
    net: Net,
) -> Cover
    requires { Ready c ports.old × (Fits x × (length job.now < 2 ^ 32)) }
    ensures { Answer job.now (memory mem.now) warn c out.old (gain_of x.strategy (name_of (memory mem.now) name) (aim_of job.now (memory mem.now) x net) (kept_in job.now (memory mem.now) ports.old c.ports)) result out.new ports.new }
{
    let p = port(x);
    let n = c.ports;
    if is_covered(job, mem, &Rows { rows: ports, n }, x, p) {
        return c;
    }
    match net {
        Net::None => not_plain(out, warn, job, mem, c, name, p),
        Net::Own => keep(ports, c, x),
        Net::Of(s) => keep_net(job, ports, c, x, s),
    }
}
