// The isolation checks in a domain's block: a set of strategies, sorted by the bytes of signal, active value and name.
#![tactic(auto)]

ghost use Rattle.std.specs.Prelude.{◌+◌, ◌≤◌, ◌<◌, ◌≡◌, ◌++◌, length, take};
ghost use Rattle.text.specs.Scan.{any};
ghost use Rattle.out.specs.Text.{Writes};
ghost use Rattle.out.specs.Items.{each};
ghost use Rattle.names.specs.Name.{name_of};
ghost use Rattle.scope.specs.Parts.{parts};
ghost use Rattle.store.specs.Strings.{string};
ghost use Rattle.store.specs.Order.{Sized};
ghost use Rattle.alike.specs.Strategies.{strategy_at};
ghost use Rattle.checks.specs.Sorted.{are_same, is_earlier, is_own, place_number, spot_in, inserted_at, inserted_in, Known, Adds, Found, Sorts, own_in, check_text};
ghost use Rattle.checks.specs.Soles.{SoleSeen};
ghost use Rattle.spans.specs.Memory.{memory};
ghost use Rattle.scope.specs.Path.{path_of};

use alike::{alike, less_dotted, low_of, named, same_dotted, signal_of};
use format::arg::name as name_arg;
use format::fill::fill4;
use format::source::Source;
use isolated::strategy_at;
use names::compare::{less, same_names};
use names::name::Name;
use out::emit::Text;
use portargs::{active_arg, signal_arg, strategy_arg};
use spans::span::{Memory, Span, same_spans};
use store::state::{Few, Isolation};
use store::stored::Stored;
use text::part::{Rows, place};

// The strategies of a domain: none, one by its name, or more.
// An option of an option is no plainer: `Some(None)` would have to say `more`.
#[derive(Clone, Copy)]
enum Sole {
    None,
    One(Stored),
    More,
}

// Whether two strategies make the same check. No derive says this: only some fields count, and as names.
#[tactic(auto, using(crate::proofs::Orders::sames))]
fn is_same<'a>(mem: &Memory<'a>, t: Few<Isolation>, i: usize, j: usize) -> bool
    requires { (i < 32) × (j < 32) }
    ensures { result ≡ are_same (strategy_at (memory mem.now) t i) (strategy_at (memory mem.now) t j) }
{
    if !alike(mem, t, i, j) {
        return false;
    }
    same_names(mem, named(t, i), named(t, j))
}

// Whether the check of a strategy is before that of another.
#[tactic(auto, using(crate::proofs::Orders::earlies))]
fn is_earlier<'a>(mem: &Memory<'a>, t: Few<Isolation>, i: usize, j: usize) -> bool
    requires { (i < 32) × (j < 32) }
    ensures { result ≡ is_earlier (strategy_at (memory mem.now) t i) (strategy_at (memory mem.now) t j) }
{
    let a = signal_of(t, i);
    let b = signal_of(t, j);
    if !same_dotted(mem, a, b) {
        return less_dotted(mem, a, b);
    }
    // The literal `1'b0` of a low sense is before `1'b1`.
    let c = low_of(mem, t, i);
    let d = low_of(mem, t, j);
    if c != d {
        return c;
    }
    less(mem, named(t, i), named(t, j))
}

// Whether a strategy has a name and is of a domain.
#[tactic(auto, using(crate::proofs::Owns::owns))]
fn is_own<'a>(mem: &Memory<'a>, x: Isolation, name: Stored, domain: Stored) -> bool
    ensures { result ≡ is_own (memory mem.now) (string (memory mem.now) name) (string (memory mem.now) domain) x }
{
    let n = x.name;
    let d = x.domain;
    if !same_spans(mem, Span::from(n), Span::from(name)) {
        return false;
    }
    same_spans(mem, Span::from(d), Span::from(domain))
}

// Whether a strategy of a name is of a domain.
#[tactic(auto, using(crate::proofs::Owns::seeks))]
fn has_own<'a>(mem: &Memory<'a>, t: Few<Isolation>, name: Stored, domain: Stored) -> bool
    requires { Sized 32 t.n t.all }
    ensures { result ≡ any (is_own (memory mem.now) (string (memory mem.now) name) (string (memory mem.now) domain)) (take t.n t.all) }
{
    let m = t.n;
    for j in 0..m {
        let x = t.all[j];
        if is_own(mem, x, name, domain) {
            return true;
        }
    }
    false
}

// Which strategies are of a domain.
#[tactic(auto, using(crate::proofs::Soles::passes))]
fn sole_of<'a>(mem: &Memory<'a>, t: Few<Isolation>, domain: Stored) -> Sole
    requires { Sized 32 t.n t.all }
    ensures { SoleSeen (memory mem.now) t domain result }
{
    let m = t.n;
    let mut one = None;
    for j in 0..m {
        let x = t.all[j];
        let d = x.domain;
        if !same_spans(mem, Span::from(d), Span::from(domain)) {
            continue;
        }
        match one {
            None => one = Some(x.name),
            Some(_) => return Sole::More,
        }
    }
    match one {
        None => Sole::None,
        Some(name) => Sole::One(name),
    }
}

// Where the check of a strategy goes among the first n; nowhere where it is there.
// The numbers are being sorted: n of them are there so far, so a count beside the lent numbers is no less plain than a struct of the two.
#[tactic(auto, using(crate::proofs::Inserts::spots))]
fn spot<'a>(mem: &Memory<'a>, t: Few<Isolation>, found: &[u32], n: usize, i: usize) -> Option<usize>
    requires { (i < 32) × Known found.now n }
    ensures { place_number result ≡ spot_in (strategy_at (memory mem.now) t) i (take n found.now) 0 }
{
    for k in 0..n {
        let j = place(found, k);
        if is_same(mem, t, i, j) {
            return None;
        }
        if is_earlier(mem, t, i, j) {
            return Some(k);
        }
    }
    Some(n)
}

// Puts a number at place k of the first n, those from there on behind it.
fn insert(found: &mut [u32], n: usize, k: usize, x: u32)
    requires { (k ≤ n) × (n < length found.old) }
    ensures { found.new ≡ inserted_at found.old n k x }
{
    found[n] = x;
    found[k..n + 1].rotate_right(1);
}

// A strategy more among the first n, where its check is new.
#[tactic(auto, using(crate::proofs::Inserts::adds))]
fn add<'a>(mem: &Memory<'a>, t: Few<Isolation>, found: &mut [u32], n: usize, i: usize) -> usize
    requires { Adds found.old n i }
    ensures { Found (inserted_in (strategy_at (memory mem.now) t) i (take n found.old)) (n + 1) found.old found.new result }
{
    let Some(k) = spot(mem, t, found, n, i) else {
        return n;
    };
    insert(found, n, k, i as u32);
    n + 1
}

// The strategies whose checks a domain has, sorted, from the ports: how many they are. `s` is the strategy that was looked at last: ports of one stand
// together.
#[tactic(auto, using(crate::proofs::Loops::gathers))]
pub fn checks<'a>(
    mem: &Memory<'a>,
    t: Few<Isolation>,
    ports: &Rows,
    domain: Stored,
    found: &mut [u32],
) -> usize
    requires { Sorts (memory mem.now) t ports.now.rows.now ports.now.n found.old }
    ensures { Found (own_in (memory mem.now) t domain ports.now.rows.now ports.now.n) ports.now.n found.old found.new result }
{
    let own = sole_of(mem, t, domain);
    let mut m = 0;
    let mut k = ports.n;
    let mut s = 32;
    // Counted by hand: the ports go from the last to the first, and a count upwards would only turn each place round.
    while 0 < k {
        k -= 1;
        let i = strategy_at(ports.rows, k);
        if i == s {
            continue;
        }
        let x = t.all[i];
        let name = x.name;
        s = i;
        match own {
            Sole::None => continue,
            Sole::One(o) => {
                if !same_spans(mem, Span::from(o), Span::from(name)) {
                    continue;
                }
            }
            Sole::More => {
                if !has_own(mem, t, name, domain) {
                    continue;
                }
            }
        }
        m = add(mem, t, found, m, i);
    }
    m
}

// Writes the check of a strategy.
#[tactic(auto, using(crate::proofs::Loops::lines))]
fn put_check(to: &mut Text, src: &Source, t: Few<Isolation>, i: usize, domain: Name)
    requires { i < 32 }
    ensures { Writes to.old (check_text (path_of src.now.scope) (strategy_at (memory src.now.mem) t) (name_of (memory src.now.mem) domain) i) to.new }
{
    let a = signal_arg(t, i);
    let b = active_arg(&src.mem, t, i);
    let c = name_arg(domain);
    let d = strategy_arg(t, i);
    fill4(
        to,
        b"      if ({0} !== {1}) $display(\"[UPF] Warning: Time: %0t, Isolation control '{0}' (%b) is not enabled when power domain '{2}' is switched OFF (strategy {3})\", $time, {0});\n",
        src,
        a,
        b,
        c,
        d,
    )
}

// Writes the checks of the first n strategies found.
#[tactic(auto, using(crate::proofs::Loops::writes))]
pub fn put_checks(
    to: &mut Text,
    src: &Source,
    t: Few<Isolation>,
    found: &[u32],
    n: usize,
    domain: Name,
)
    requires { Known found.now n }
    ensures { Writes to.old (each (check_text (path_of src.now.scope) (strategy_at (memory src.now.mem) t) (name_of (memory src.now.mem) domain)) (take n found.now)) to.new }
{
    for k in 0..n {
        let i = place(found, k);
        put_check(to, src, t, i, domain);
    }
}
