// The isolated ports as a table in lent numbers. A row has 20, which are four rows of a table of names: the element; what is left of it as the parent's
// net; a slash, the part of the job behind it, and the net as a part of the job; the strategy, and how many bytes of the element stand before the net.
#![tactic(auto)]

ghost use Rattle.std.specs.Prelude.{◌+◌, ◌*◌, ◌≤◌, ◌<◌, ◌≡◌, ◌++◌, length, take, drop};
ghost use Rattle.refs.specs.Heads.{Apart};
ghost use Rattle.isolated.specs.Others.{WordsApart, one_scope, NamesApart, Other};
ghost use Rattle.isolated.specs.Table.{parts_row, counts_row, port_row, names_put, numbers_put, port_put, Fits, port_ref, net_ref};
ghost use Rattle.spans.specs.Memory.{memory};

use names::name::{Form, Name};
use nametable::{put_row, row};
use refs::{Ref, no_name};
use spans::span::{Memory, Span, first};
use text::part::{part, place};

// A port that a strategy keeps. The port is the element, a slash where `sep` is set, and `len` bytes of the job from `at` on; the parent's net is the first
// `upto` bytes of the element, then `last`, then `size` bytes of the job from `net` on.
#[derive(Clone, Copy)]
pub struct Isolated {
    pub strategy: usize,
    pub element: Name,
    pub sep: bool,
    pub at: usize,
    pub len: usize,
    pub upto: usize,
    pub last: Name,
    pub net: usize,
    pub size: usize,
}

// The parts of the job, as a name is stored.
fn parts_row(x: Isolated) -> Name
    ensures { result ≡ parts_row x }
{
    Name {
        scope: Span {
            at: x.at,
            len: x.len,
        },
        sep: x.sep,
        word: Span {
            at: x.net,
            len: x.size,
        },
        form: Form::Word,
    }
}

// The strategy and the bytes before the net, as a name is stored.
fn counts_row(x: Isolated) -> Name
    ensures { result ≡ counts_row x }
{
    Name {
        scope: Span {
            at: x.strategy,
            len: x.upto,
        },
        sep: false,
        word: Span { at: 0, len: 0 },
        form: Form::Word,
    }
}

// Puts the names of a port into row k.
#[tactic(auto, using(crate::proofs::Rows::puts))]
fn put_names(ports: &mut [u32], k: usize, x: Isolated)
    requires { (k < 256) × ((20 * k + 20 ≤ length ports.old) × Fits x) }
    ensures { ports.new ≡ names_put ports.old k x }
{
    let e = x.element;
    let l = x.last;
    put_row(ports, 4 * k, e);
    put_row(ports, 4 * k + 1, l);
}

// Puts its numbers.
#[tactic(auto, using(crate::proofs::Rows::puts))]
fn put_numbers(ports: &mut [u32], k: usize, x: Isolated)
    requires { (k < 256) × ((20 * k + 20 ≤ length ports.old) × Fits x) }
    ensures { ports.new ≡ numbers_put ports.old k x }
{
    let p = parts_row(x);
    let q = counts_row(x);
    put_row(ports, 4 * k + 2, p);
    put_row(ports, 4 * k + 3, q);
}

// Puts a port into row k.
#[tactic(auto, using(crate::proofs::Rows::puts))]
pub fn put(ports: &mut [u32], k: usize, x: Isolated)
    requires { (k < 256) × ((20 * k + 20 ≤ length ports.old) × Fits x) }
    ensures { ports.new ≡ port_put ports.old k x }
{
    put_names(ports, k, x);
    put_numbers(ports, k, x);
}

// The port of row k.
#[tactic(auto, using(crate::proofs::Rows::rows))]
pub fn port_at(ports: &[u32], k: usize) -> Isolated
    requires { k < 256 }
    ensures { result ≡ port_row ports.now k }
{
    let e = row(ports, 4 * k);
    let l = row(ports, 4 * k + 1);
    let p = row(ports, 4 * k + 2);
    let q = row(ports, 4 * k + 3);
    let job = p.scope;
    let net = p.word;
    let counts = q.scope;
    Isolated {
        strategy: counts.at,
        element: e,
        sep: p.sep,
        at: job.at,
        len: job.len,
        upto: counts.len,
        last: l,
        net: net.at,
        size: net.len,
    }
}

// The strategy of the port of row k.
#[tactic(auto, using(crate::proofs::Apart::reads))]
pub fn strategy_at(ports: &[u32], k: usize) -> usize
    requires { k < 256 }
    ensures { result ≡ (port_row ports.now k).strategy }
{
    place(ports, 5 * (4 * k + 3))
}

// The part of the job that the port of row k ends with.
#[tactic(auto, using(crate::proofs::Apart::reads))]
fn part_at<'a>(job: &'a [u8], ports: &[u32], k: usize) -> &'a [u8]
    requires { k < 256 }
    ensures { result.now ≡ take (port_row ports.now k).len (drop (port_row ports.now k).at job.now) }
{
    let i = 5 * (4 * k + 2);
    part(job, place(ports, i), place(ports, i + 1))
}

// Whether both have a last byte and these differ.
#[tactic(auto, using(crate::proofs::Apart::aparts))]
fn ends_apart(u: &[u8], v: &[u8]) -> bool
    ensures { Apart u.now v.now result }
{
    if u.len() == 0 {
        return false;
    }
    if v.len() == 0 {
        return false;
    }
    u[u.len() - 1] != v[v.len() - 1]
}

// Whether two words, read in any form, surely differ: by a byte before which no backslash stands.
#[tactic(auto, using(crate::proofs::Apart::words))]
fn words_apart(mem: &Memory, s: Span, t: Span) -> bool
    ensures { WordsApart (memory mem.now) s t result }
{
    let mut x = s;
    let mut y = t;
    while let Some((p, u)) = first(mem, x) {
        let Some((q, v)) = first(mem, y) else {
            return false;
        };
        if (p == b'\\') | (q == b'\\') {
            return false;
        }
        if p != q {
            return true;
        }
        x = u;
        y = v;
    }
    false
}

// Whether two names have the same scope, by its place, and a slash behind it in both or in none.
fn one_scope(a: Name, b: Name) -> bool
    ensures { result ≡ one_scope a b }
{
    let s = a.scope;
    let t = b.scope;
    ((s.at == t.at) & (s.len == t.len)) & ((a.sep & b.sep) | ((!a.sep) & (!b.sep)))
}

// Whether two names in one scope surely differ, whatever stands behind them.
#[tactic(auto, using(crate::proofs::Apart::scopes))]
fn names_apart(mem: &Memory, a: Name, b: Name) -> bool
    ensures { NamesApart (memory mem.now) a b result }
{
    if !one_scope(a, b) {
        return false;
    }
    let v = a.word;
    let w = b.word;
    words_apart(mem, v, w)
}

// Whether the port of row k surely is another one: by the last byte of its name, or by its element.
#[tactic(auto, using(crate::proofs::Apart::others))]
pub fn is_other(job: &[u8], mem: &Memory, ports: &[u32], k: usize, x: Isolated) -> bool
    requires { k < 256 }
    ensures { Other job.now (memory mem.now) x (port_row ports.now k) result }
{
    let u = part(job, x.at, x.len);
    let v = part_at(job, ports, k);
    if ends_apart(u, v) {
        return true;
    }
    let e = x.element;
    let f = row(ports, 4 * k);
    names_apart(mem, e, f)
}

// The port as a text: its instance and its name.
#[tactic(auto, using(crate::proofs::Rows::rows))]
pub fn port(x: Isolated) -> Ref
    ensures { result ≡ port_ref x }
{
    let e = x.element;
    Ref {
        name: e,
        cut: false,
        upto: 0,
        sep: x.sep,
        last: no_name(),
        at: x.at,
        len: x.len,
    }
}

// The parent's net as a text, below the scope.
pub fn net(x: Isolated) -> Ref
    ensures { result ≡ net_ref x }
{
    let e = x.element;
    let l = x.last;
    Ref {
        name: e,
        cut: true,
        upto: x.upto,
        sep: false,
        last: l,
        at: x.net,
        len: x.size,
    }
}
