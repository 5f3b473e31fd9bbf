// The ports that a strategy covers, by its elements: the output ports of an instance, or the port behind the last slash.
#![tactic(auto)]

ghost use Rattle.std.specs.Prelude.{◌+◌, ◌-◌, ◌<◌, ◌^◌, ◌≡◌, ◌++◌, length};
ghost use Rattle.joblines.specs.Sections.{conns_in};
ghost use Rattle.jobindex.specs.Index.{section, module_row};
ghost use Rattle.lookup.specs.Rows.{modules, insts_end};
ghost use Rattle.design.specs.Ports.{output_ports};
ghost use Rattle.names.specs.Name.{name_of};
ghost use Rattle.isolated.specs.Table.{kept_in};
ghost use Rattle.keep.specs.Covered.{Ready, Answer};
ghost use Rattle.keep.specs.Gains.{gain_of, gains};
ghost use Rattle.cover.specs.Aims.{part_aim, port_aims, output_aims, slash_aims, element_aims};
ghost use Rattle.cover.specs.Found.{output_port, slash_port, Asks, Placed, Slashed};
ghost use Rattle.spans.specs.Memory.{memory};
ghost use Rattle.lookup.specs.Design.{modules_in};
ghost use Rattle.jobindex.specs.Modules.{module_in};

use actual::output_actual;
use isolated::Isolated;
use jobindex::{Design, Index, Span as Part};
use keep::{Cover, aim, held, held_part};
use names::name::Name;
use ports::Step as Port;
use refs::{front, no_name, of_job, whole};
use spans::span::Memory;
use targets::{Place, find_instance, last_slash};

// A strategy by its number, with its name.
#[derive(Clone, Copy)]
pub struct Strategy {
    pub number: usize,
    pub name: Name,
}

// A port n of the instance that an element is, with the parent's net of its own name; `upto` bytes of the element stand before the net.
fn output_port(job: &[u8], mem: &Memory, number: usize, e: Name, n: Part, upto: usize) -> Isolated
    requires { length mem.now.files.now + length mem.now.area.now < 2 ^ 31 }
    ensures { result ≡ output_port job.now (memory mem.now) number e n upto }
{
    let p = held_part(job, n);
    Isolated {
        strategy: number,
        element: held(mem, e),
        sep: true,
        at: p.at,
        len: p.len,
        upto: upto,
        last: no_name(),
        net: p.at,
        size: p.len,
    }
}

// The port that an element is, its name being `rest`, with the parent's net of its own name.
fn slash_port(mem: &Memory, number: usize, e: Name, rest: Name, upto: usize) -> Isolated
    requires { length mem.now.files.now + length mem.now.area.now < 2 ^ 31 }
    ensures { result ≡ slash_port (memory mem.now) number e rest upto }
{
    Isolated {
        strategy: number,
        element: held(mem, e),
        sep: false,
        at: 0,
        len: 0,
        upto: upto,
        last: held(mem, rest),
        net: 0,
        size: 0,
    }
}

// One port of the instance at a place, which an element is.
fn cover_output<'a>(
    out: &mut [u8],
    warn: bool,
    index: &Index,
    mem: &Memory<'a>,
    ports: &mut [u32],
    c: Cover,
    s: Strategy,
    e: Name,
    p: Place,
    n: Part,
) -> Cover
    requires { Ready c ports.old × Placed index.now.job.now mem.now.files.now mem.now.area.now s.number (name_of (memory mem.now) e) p }
    ensures { Answer index.now.job.now (memory mem.now) warn c out.old (gain_of s.number (name_of (memory mem.now) s.name) (part_aim index.now.job.now (name_of (memory mem.now) e) (conns_in (section index.now.job.now p.conns (insts_end index.now.rows.now p.parent))) (module_in index.now p.sub) n) (kept_in index.now.job.now (memory mem.now) ports.old c.ports)) result out.new ports.new }
{
    let end = lookup::insts_end(index.rows, p.parent);
    let own = of_job(n.at, n.len);
    let net = output_actual(index, p.conns, end, p.sub, mem, own);
    let x = output_port(index.job, mem, s.number, e, n, p.upto);
    let name = s.name;
    aim(out, warn, index.job, mem, ports, c, name, x, net)
}

// The output ports of the instance at a place, which an element is.
fn cover_ports<'a>(
    out: &mut [u8],
    warn: bool,
    index: &Index,
    mem: &Memory<'a>,
    ports: &mut [u32],
    c: Cover,
    s: Strategy,
    e: Name,
    p: Place,
) -> Cover
    requires { Ready c ports.old × Placed index.now.job.now mem.now.files.now mem.now.area.now s.number (name_of (memory mem.now) e) p }
    ensures { Answer index.now.job.now (memory mem.now) warn c out.old (gains s.number (name_of (memory mem.now) s.name) (port_aims (name_of (memory mem.now) e) (conns_in (section index.now.job.now p.conns (insts_end index.now.rows.now p.parent))) (module_in index.now p.sub) (output_ports (module_in index.now p.sub))) (kept_in index.now.job.now (memory mem.now) ports.old c.ports)) result out.new ports.new }
{
    let mut x = c;
    let mut cursor = ports::first(index.rows, p.sub);
    while let Some(Port { name, next }) = ports::next_output(index, p.sub, cursor) {
        cursor = next;
        x = cover_output(out, warn, index, mem, ports, x, s, e, p, name);
        if x.over {
            return x;
        }
    }
    x
}

// All output ports of the instance that an element is.
pub fn cover_outputs<'a>(
    out: &mut [u8],
    warn: bool,
    design: &Design,
    k: usize,
    mem: &Memory<'a>,
    ports: &mut [u32],
    c: Cover,
    s: Strategy,
    e: Name,
) -> Cover
    requires { Ready c ports.old × Asks design.now.index.job.now mem.now.files.now mem.now.area.now design.now.count k s.number }
    ensures { Answer design.now.index.job.now (memory mem.now) warn c out.old (gains s.number (name_of (memory mem.now) s.name) (output_aims (modules_in design.now) (module_in design.now.index k) (name_of (memory mem.now) e)) (kept_in design.now.index.job.now (memory mem.now) ports.old c.ports)) result out.new ports.new }
{
    let Some(p) = find_instance(design, k, mem, whole(e)) else {
        return c;
    };
    cover_ports(out, warn, &design.index, mem, ports, c, s, e, p)
}

// The port that an element with a slash is: `upto` bytes stand up to its last slash and with it, `rest` is what is left.
fn cover_port<'a>(
    out: &mut [u8],
    warn: bool,
    design: &Design,
    k: usize,
    mem: &Memory<'a>,
    ports: &mut [u32],
    c: Cover,
    s: Strategy,
    e: Name,
    upto: usize,
    rest: Name,
) -> Cover
    requires { Ready c ports.old × (Asks design.now.index.job.now mem.now.files.now mem.now.area.now design.now.count k s.number × Slashed (name_of (memory mem.now) e) upto (name_of (memory mem.now) rest)) }
    ensures { Answer design.now.index.job.now (memory mem.now) warn c out.old (gains s.number (name_of (memory mem.now) s.name) (slash_aims (modules_in design.now) (module_in design.now.index k) (name_of (memory mem.now) e)) (kept_in design.now.index.job.now (memory mem.now) ports.old c.ports)) result out.new ports.new }
{
    let inst = front(e, upto - 1);
    let Some(p) = find_instance(design, k, mem, inst) else {
        return c;
    };
    let end = lookup::insts_end(design.index.rows, p.parent);
    let own = whole(rest);
    let net = output_actual(&design.index, p.conns, end, p.sub, mem, own);
    let x = slash_port(mem, s.number, e, rest, p.upto);
    let name = s.name;
    aim(out, warn, design.index.job, mem, ports, c, name, x, net)
}

// What an element of a strategy is: a port, or an instance.
pub fn cover_element<'a>(
    out: &mut [u8],
    warn: bool,
    design: &Design,
    k: usize,
    mem: &Memory<'a>,
    ports: &mut [u32],
    c: Cover,
    s: Strategy,
    e: Name,
) -> Cover
    requires { Ready c ports.old × Asks design.now.index.job.now mem.now.files.now mem.now.area.now design.now.count k s.number }
    ensures { Answer design.now.index.job.now (memory mem.now) warn c out.old (gains s.number (name_of (memory mem.now) s.name) (element_aims (modules_in design.now) (module_in design.now.index k) (name_of (memory mem.now) e)) (kept_in design.now.index.job.now (memory mem.now) ports.old c.ports)) result out.new ports.new }
{
    match last_slash(mem, e) {
        Some(l) => cover_port(out, warn, design, k, mem, ports, c, s, e, l.upto, l.rest),
        None => cover_outputs(out, warn, design, k, mem, ports, c, s, e),
    }
}
