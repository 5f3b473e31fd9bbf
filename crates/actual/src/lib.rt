// The net of the parent that an instance's port is connected to, over the job and its index (the Rust's `output_actual`).
#![tactic(auto)]

ghost use Rattle.std.specs.Prelude.{◌≡◌, ℕ, ◌≤◌, ◌||◌, ◌++◌, Some};
ghost use Rattle.text.specs.Compare.{same};
ghost use Rattle.joblines.specs.Sections.{conns_in};
ghost use Rattle.jobindex.specs.Index.{section, module_row};
ghost use Rattle.refs.specs.Text.{text_of};
ghost use Rattle.lines.specs.Cursors.{spanned};
ghost use Rattle.actual.specs.Nets.{net_is, PlainSeen, said_is, says_at, is_first_at, star_at, last_of, conn_next, port_next, actual_of};
ghost use Rattle.spans.specs.Memory.{memory};
ghost use Rattle.jobindex.specs.Modules.{module_in};

use jobindex::{Index, Span};
use lines::{ConnAt, PortAt};
use refs::{Ref, of_job, same_refs};
use spans::span::Memory;

// A net: none that is a plain identifier, that of the port's own name, or a name of the job.
// An option of an option is no plainer: `Some(None)` would have to say `its own name`.
#[derive(Clone, Copy)]
pub enum Net {
    None,
    Own,
    Of(Span),
}

// Whether a connection is `star`, or one before it was.
fn star_at(star: bool, conn: ConnAt) -> bool
    ensures { result ≡ star || star_at (Some conn) }
{
    star || matches!(conn, ConnAt::Star { .. })
}

// Where the connections behind one begin.
fn conn_next(conn: ConnAt) -> usize
    ensures { (end : ℕ) → result ≡ conn_next (Some conn) end }
{
    match conn {
        ConnAt::Star { next } => next,
        ConnAt::Implicit { next, .. } => next,
        ConnAt::Named { next, .. } => next,
        ConnAt::Pos { next, .. } => next,
    }
}

// Where the ports behind one begin.
fn port_next(q: Option<PortAt>, end: usize) -> usize
    ensures { result ≡ port_next q end }
{
    q.map_or(end, |p| p.next)
}

// Whether a part of the job is the port's name.
#[tactic(auto, using(crate::proofs::Turns::port_is))]
fn is_port<'a>(job: &[u8], mem: &Memory<'a>, n: Span, port: Ref) -> bool
    ensures { result ≡ same (spanned job.now n) (text_of job.now (memory mem.now) port) }
{
    same_refs(job, mem, of_job(n.at, n.len), port)
}

// Whether a port line is the port's.
fn is_first<'a>(job: &[u8], mem: &Memory<'a>, q: Option<PortAt>, port: Ref) -> bool
    ensures { result ≡ is_first_at job.now q (text_of job.now (memory mem.now) port) }
{
    let Some(own) = q else {
        return false;
    };
    is_port(job, mem, own.name, port)
}

// The net of a connection that has one, where it is a plain identifier.
#[tactic(auto, using(crate::proofs::Turns::plains))]
fn plain(job: &[u8], net: Span) -> Net
    ensures { PlainSeen job.now net result }
{
    if text::compare::same(lines::part_of(job, net), b"-") {
        return Net::None;
    }
    Net::Of(net)
}

// What a connection says of the port; q is the header's name at the connection's own place.
#[tactic(auto, using(crate::proofs::Turns::saids))]
fn said_of<'a>(
    job: &[u8],
    mem: &Memory<'a>,
    conn: ConnAt,
    q: Option<PortAt>,
    port: Ref,
) -> Option<Net>
    ensures { said_is job.now (text_of job.now (memory mem.now) port) result ≡ says_at job.now (Some conn) q (text_of job.now (memory mem.now) port) }
{
    match conn {
        ConnAt::Star { .. } => None,
        ConnAt::Implicit { port: own, .. } => {
            if !is_port(job, mem, own, port) {
                return None;
            }
            Some(Net::Own)
        }
        ConnAt::Named { port: own, net, .. } => {
            if !is_port(job, mem, own, port) {
                return None;
            }
            Some(plain(job, net))
        }
        ConnAt::Pos { net, .. } => {
            if !is_first(job, mem, q, port) {
                return None;
            }
            Some(plain(job, net))
        }
    }
}

// The net where no connection is the port's own.
fn last(star: bool) -> Net
    ensures { result ≡ last_of star }
{
    if star { Net::Own } else { Net::None }
}

// The net that a port of an instance is connected to. Its connection lines are from `next` up to `end`, its module is row `sub`.
#[tactic(auto, using(crate::proofs::Turns::decisions))]
pub fn output_actual<'a>(
    index: &Index,
    next: usize,
    end: usize,
    sub: usize,
    mem: &Memory<'a>,
    port: Ref,
) -> Net
    requires { sub ≤ 128 }
    ensures { net_is index.now.job.now (text_of index.now.job.now (memory mem.now) port) result ≡ actual_of (conns_in (section index.now.job.now next end)) (module_in index.now sub) (text_of index.now.job.now (memory mem.now) port) }
{
    let pe = text::part::place(index.rows, 128 + 8 * sub + 4);
    let mut p = text::part::place(index.rows, 128 + 8 * sub + 3);
    let mut at = next;
    let mut star = false;
    while let Some(conn) = lines::next_conn(index.job, at, end) {
        let q = lines::next_port(index.job, p, pe);
        if let Some(net) = said_of(index.job, mem, conn, q, port) {
            return net;
        }
        star = star_at(star, conn);
        at = conn_next(conn);
        p = port_next(q, pe);
    }
    last(star)
}
