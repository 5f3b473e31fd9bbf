// The processes that clamp isolated ports: one for each control signal and active value, in the order of their first ports.
#![tactic(auto)]

ghost use Rattle.std.specs.Prelude.{◌<◌, ◌≡◌, true, ◌++◌, map};
ghost use Rattle.text.specs.Scan.{any};
ghost use Rattle.out.specs.Text.{Writes};
ghost use Rattle.out.specs.Fill.{is_template};
ghost use Rattle.texts.specs.Isolation.{lowered, is_clamp, processes as Isolation·processes};
ghost use Rattle.scope.specs.Parts.{parts};
ghost use Rattle.store.specs.View.{isolation_of};
ghost use Rattle.isolated.specs.Table.{kept_of, kept_in};
ghost use Rattle.alike.specs.Strategies.{strategy_at};
ghost use Rattle.alike.specs.Shown.{shown};
ghost use Rattle.alike.specs.Numbers.{numbers_in};
ghost use Rattle.alike.specs.Ruled.{Ruled};
ghost use Rattle.processes.specs.Ports.{is_like, port_text, ports_text, head_text, process_text};
ghost use Rattle.spans.specs.Memory.{memory};
ghost use Rattle.scope.specs.Path.{path_of};

use alike::alike_rows;
use clamps::{clamp, stored};
use format::arg::name;
use format::fill::{fill2, fill4};
use format::source::Source;
use isolated::{Isolated, port_at, strategy_at};
use out::emit::Text;
use portargs::{active_arg, literal_arg, net_arg, port_arg, signal_arg};
use spans::span::Memory;
use store::state::{Few, Isolation};
use text::part::Rows;

// Whether one of the ports is of a strategy like this one. `s` is a strategy that is known to be unlike it: ports of one stand together.
#[tactic(auto, using(crate::proofs::Led::seeks))]
fn is_led(mem: &Memory, t: Few<Isolation>, ports: &Rows, i: usize) -> bool
    requires { Ruled (memory mem.now) t ports.now.rows.now ports.now.n × (i < 32) }
    ensures { result ≡ any (is_like (strategy_at (memory mem.now) t) i) (numbers_in ports.now.rows.now ports.now.n) }
{
    let a = t.all[i];
    let mut s = 32;
    for k in 0..ports.n {
        let j = strategy_at(ports.rows, k);
        if j == s {
            continue;
        }
        let b = t.all[j];
        if alike_rows(mem, a, b) {
            return true;
        }
        s = j;
    }
    false
}

// Writes a template for a port of a strategy: the parent's net, the clamp value, the strategy, the port.
fn put_port(to: &mut Text, tpl: &[u8], src: &Source, s: Isolation, x: Isolated)
    requires { (is_template 4 tpl.now ≡ true) × (is_clamp (lowered (isolation_of (memory src.now.mem) s).clamp) ≡ true) }
    ensures { Writes to.old (port_text tpl.now (path_of src.now.scope) src.now.top.now (λ _. isolation_of (memory src.now.mem) s) (kept_of src.now.design.index.job.now (memory src.now.mem) x)) to.new }
{
    let m = s.clamp;
    let n = s.name;
    let a = net_arg(x);
    let b = literal_arg(clamp(&src.mem, m));
    let c = name(stored(n));
    let d = port_arg(x);
    fill4(to, tpl, src, a, b, c, d)
}

// Writes a template for each port of a strategy like this one. `s` is a strategy that is known to be unlike it.
#[tactic(auto, using(crate::proofs::Written::writes))]
fn each_port(to: &mut Text, tpl: &[u8], src: &Source, t: Few<Isolation>, ports: &Rows, i: usize)
    requires { (is_template 4 tpl.now ≡ true) × (Ruled (memory src.now.mem) t ports.now.rows.now ports.now.n × (i < 32)) }
    ensures { Writes to.old (ports_text tpl.now (path_of src.now.scope) src.now.top.now (strategy_at (memory src.now.mem) t) i (kept_in src.now.design.index.job.now (memory src.now.mem) ports.now.rows.now ports.now.n)) to.new }
{
    let a = t.all[i];
    let mut s = 32;
    for k in 0..ports.n {
        let j = strategy_at(ports.rows, k);
        if j == s {
            continue;
        }
        let b = t.all[j];
        if !alike_rows(&src.mem, a, b) {
            s = j;
            continue;
        }
        let x = port_at(ports.rows, k);
        put_port(to, tpl, src, b, x);
    }
}

// The head of the process of a strategy.
#[tactic(auto, using(crate::proofs::Written::heads))]
fn put_head(to: &mut Text, src: &Source, t: Few<Isolation>, i: usize)
    requires { i < 32 }
    ensures { Writes to.old (head_text (path_of src.now.scope) (strategy_at (memory src.now.mem) t i)) to.new }
{
    let a = signal_arg(t, i);
    let b = active_arg(&src.mem, t, i);
    fill2(
        to,
        b"  always @({0}) begin\n    if ({0} === {1}) begin\n",
        src,
        a,
        b,
    )
}

// The process of a strategy.
fn process(to: &mut Text, src: &Source, t: Few<Isolation>, ports: &Rows, i: usize)
    requires { Ruled (memory src.now.mem) t ports.now.rows.now ports.now.n × (i < 32) }
    ensures { Writes to.old (process_text (path_of src.now.scope) src.now.top.now (strategy_at (memory src.now.mem) t) (kept_in src.now.design.index.job.now (memory src.now.mem) ports.now.rows.now ports.now.n) i) to.new }
{
    put_head(to, src, t, i);
    each_port(
        to,
        b"      force {0} = '{1};\n      $display(\"[UPF] Time: %0t, Isolation enabled (strategy {2}) on port '{3}', clamp {1}\", $time);\n",
        src,
        t,
        ports,
        i,
    );
    to.put(b"    end else begin\n");
    each_port(
        to,
        b"      release {0};\n      $display(\"[UPF] Time: %0t, Isolation disabled (strategy {2}) on port '{3}'\", $time);\n",
        src,
        t,
        ports,
        i,
    );
    to.put(b"    end\n  end\n")
}

// All processes.
#[tactic(auto, using(crate::proofs::Texts::leads))]
pub fn processes(to: &mut Text, src: &Source, t: Few<Isolation>, ports: &Rows)
    requires { Ruled (memory src.now.mem) t ports.now.rows.now ports.now.n }
    ensures { Writes to.old (Isolation·processes (map (shown (path_of src.now.scope) src.now.top.now (strategy_at (memory src.now.mem) t)) (kept_in src.now.design.index.job.now (memory src.now.mem) ports.now.rows.now ports.now.n))) to.new }
{
    let mut s = 32;
    for k in 0..ports.n {
        let i = strategy_at(ports.rows, k);
        if i == s {
            continue;
        }
        s = i;
        if is_led(
            &src.mem,
            t,
            &Rows {
                rows: ports.rows,
                n: k,
            },
            i,
        ) {
            continue;
        }
        process(to, src, t, ports, i);
    }
}
