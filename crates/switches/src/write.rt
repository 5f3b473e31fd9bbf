// The glue and the report line of a switch.
ghost use Rattle.std.specs.Prelude.{◌≡◌, [], ◌++◌, map, ◌+◌, ◌≤◌, ◌<◌, length, take};
ghost use Rattle.out.specs.Text.{Writes};
ghost use Rattle.out.specs.Items.{each, joined};
ghost use Rattle.tcl.specs.Lists.{list};
ghost use Rattle.nametable.specs.Table.{table_names};
ghost use Rattle.listnames.specs.Lists.{nth_below, Whole};
ghost use Rattle.scope.specs.Parts.{parts};
ghost use Rattle.format.specs.Args.{arg_of};
ghost use Rattle.model.specs.Commands.{controls_of};
ghost use Rattle.store.specs.Strings.{string, span_of};
ghost use Rattle.store.specs.View.{switch_of};
ghost use Rattle.texts.specs.Switches.{switch_glue, switch_line};
ghost use Rattle.conditions.specs.Controls.{scope_setting};
ghost use Rattle.switches.specs.Words.{ons_from, switch_in};
ghost use Rattle.switches.specs.Texts.{ArgIs, ons_text, state_text, signal_text, control_text, control_at, pair_text};
ghost use Rattle.switches.specs.Asked.{Ons, OfNames, OfSwitch, OfAll, OfSwitches, Controlled};
ghost use Rattle.spans.specs.Memory.{memory};
ghost use Rattle.scope.specs.Path.{path_of};
ghost use Rattle.nametable.specs.Names.{names_in};

use super::on::put_on;
use clamps::stored;
use format::arg::{Arg, Wrap, fixed, hier, name};
use format::fill::{fill3, fill4};
use format::source::Source;
use listnames::{entries, nth_below};
use names::put::put_name;
use nametable::row;
use out::emit::Text;
use spans::span::{Memory, Span};
use store::state::{Few, Switch};
use store::stored::Stored;
use text::part::Rows;

// A stored string as an argument.
pub fn string_arg(mem: &Memory, s: Stored) -> Arg
    ensures { ArgIs (memory mem.now) (string (memory mem.now) s) result }
{
    name(stored(s))
}

// The net that a port of a switch names, as an argument.
fn net_arg<'a>(mem: &Memory<'a>, scope: Stored, v: Stored) -> Arg
    requires { Whole (length mem.now.files.now) (span_of v) }
    ensures { ArgIs (memory mem.now) (nth_below (string (memory mem.now) scope) 1 (list (string (memory mem.now) v))) result }
{
    name(nth_below(mem, Span::from(scope), Span::from(v), 1))
}

// The net of a switch's output.
fn put_state<'a>(
    to: &mut Text,
    src: &Source<'a>,
    controls: &Rows,
    first: usize,
    n: usize,
    a: Arg,
    b: Arg,
    d: Arg,
)
    requires { Ons src.now.mem.files.now src.now.mem.area.now src.now.design.index.rows.now first n controls.now.n }
    ensures { Writes to.old (state_text (arg_of src.now.design.index.job.now (memory src.now.mem) (path_of src.now.scope) src.now.top.now a) (arg_of src.now.design.index.job.now (memory src.now.mem) (path_of src.now.scope) src.now.top.now b) (ons_text (scope_setting (path_of src.now.scope)) (controls_of (names_in (memory src.now.mem) controls.now)) (ons_from (memory src.now.mem) src.now.design.index.rows.now first n)) (arg_of src.now.design.index.job.now (memory src.now.mem) (path_of src.now.scope) src.now.top.now d)) to.new }
{
    let z = fixed(Wrap::Plain);
    fill4(to, b"  assign upf__{b} = (", src, a, b, z, d);
    put_on(to, src, controls, first, n);
    fill4(to, b") ? upf__{a} : ((", src, a, b, z, d);
    put_on(to, src, controls, first, n);
    fill4(
        to,
        b") === 1'b0 ? 1'b0 : 1'bx);\n  always @* upf__{b}_v = (",
        src,
        a,
        b,
        z,
        d,
    );
    put_on(to, src, controls, first, n);
    fill4(
        to,
        b") ? upf__{a}_v : 0.0;\n  logic [1:0] upf_swst__{d} = 2'd3;\n",
        src,
        a,
        b,
        z,
        d,
    )
}

// The process of a control port.
fn put_control<'a>(
    to: &mut Text,
    src: &Source<'a>,
    controls: &Rows,
    first: usize,
    n: usize,
    a: Arg,
    c: Arg,
    d: Arg,
)
    requires { Ons src.now.mem.files.now src.now.mem.area.now src.now.design.index.rows.now first n controls.now.n }
    ensures { Writes to.old (signal_text (arg_of src.now.design.index.job.now (memory src.now.mem) (path_of src.now.scope) src.now.top.now a) (ons_text (scope_setting (path_of src.now.scope)) (controls_of (names_in (memory src.now.mem) controls.now)) (ons_from (memory src.now.mem) src.now.design.index.rows.now first n)) (arg_of src.now.design.index.job.now (memory src.now.mem) (path_of src.now.scope) src.now.top.now c) (arg_of src.now.design.index.job.now (memory src.now.mem) (path_of src.now.scope) src.now.top.now d)) to.new }
{
    let z = fixed(Wrap::Plain);
    fill4(to, b"  always @({0}) begin\n    if ((", src, a, z, c, d);
    put_on(to, src, controls, first, n);
    fill4(
        to,
        b") === 1'b1) begin if (upf_swst__{c} != 2'd1) $display(\"[UPF] Time: %0t, Power switch '{2}': control '{3}' = %b, state FULL_ON\", $time, {0}); upf_swst__{c} = 2'd1; end\n    else if ((",
        src,
        a,
        z,
        c,
        d,
    );
    put_on(to, src, controls, first, n);
    fill4(
        to,
        b") === 1'b0) begin if (upf_swst__{c} != 2'd0) $display(\"[UPF] Time: %0t, Power switch '{2}': control '{3}' = %b, state OFF\", $time, {0}); upf_swst__{c} = 2'd0; end\n    else begin if (upf_swst__{c} != 2'd2) $display(\"[UPF] Time: %0t, Power switch '{2}': control '{3}' = %b, state UNDETERMINED\", $time, {0}); upf_swst__{c} = 2'd2; end\n  end\n",
        src,
        a,
        z,
        c,
        d,
    )
}

// The process of the control port in row i.
fn control_at<'a>(
    to: &mut Text,
    src: &Source<'a>,
    controls: &Rows,
    first: usize,
    n: usize,
    c: Arg,
    i: usize,
)
    requires { Ons src.now.mem.files.now src.now.mem.area.now src.now.design.index.rows.now first n controls.now.n × (i ≤ 65535) }
    ensures { Writes to.old (control_text (path_of src.now.scope) (ons_text (scope_setting (path_of src.now.scope)) (controls_of (names_in (memory src.now.mem) controls.now)) (ons_from (memory src.now.mem) src.now.design.index.rows.now first n)) (arg_of src.now.design.index.job.now (memory src.now.mem) (path_of src.now.scope) src.now.top.now c) (control_at (memory src.now.mem) controls.now.rows.now i)) to.new }
{
    let port = row(controls.rows, i);
    let signal = row(controls.rows, i + 1);
    put_control(to, src, controls, first, n, hier(signal), c, name(port))
}

// The processes of all control ports.
fn put_controls<'a>(
    to: &mut Text,
    src: &Source<'a>,
    controls: &Rows,
    first: usize,
    n: usize,
    c: Arg,
)
    requires { Ons src.now.mem.files.now src.now.mem.area.now src.now.design.index.rows.now first n controls.now.n }
    ensures { Writes to.old (each (control_text (path_of src.now.scope) (ons_text (scope_setting (path_of src.now.scope)) (controls_of (names_in (memory src.now.mem) controls.now)) (ons_from (memory src.now.mem) src.now.design.index.rows.now first n)) (arg_of src.now.design.index.job.now (memory src.now.mem) (path_of src.now.scope) src.now.top.now c)) (controls_of (names_in (memory src.now.mem) controls.now))) to.new }
{
    // Counted by hand: a turn takes two names, as the definition does; over the pairs each index is doubled, which is no plainer.
    let mut i = 0;
    while i + 1 < controls.n {
        control_at(to, src, controls, first, n, c, i);
        i += 2;
    }
}

// The glue of a switch whose control ports are in a table.
fn glue_text<'a>(to: &mut Text, src: &Source<'a>, controls: &Rows, w: Switch)
    requires { OfSwitch src.now.mem.files.now src.now.mem.area.now src.now.design.index.rows.now w × Controlled (memory src.now.mem) w controls.now.rows.now controls.now.n }
    ensures { Writes to.old (switch_glue (scope_setting (path_of src.now.scope)) (switch_in (memory src.now.mem) src.now.design.index.rows.now w)) to.new }
{
    let scope = w.scope;
    let input = w.input;
    let output = w.output;
    let named = w.name;
    let first = text::part::wide(w.first);
    let n = text::part::wide(w.ons);
    let a = net_arg(&src.mem, scope, input);
    let b = net_arg(&src.mem, scope, output);
    let d = string_arg(&src.mem, named);
    put_state(to, src, controls, first, n, a, b, d);
    put_controls(to, src, controls, first, n, d)
}

// The glue of a switch.
fn switch_glue<'a>(to: &mut Text, src: &Source<'a>, w: Switch)
    requires { OfSwitch src.now.mem.files.now src.now.mem.area.now src.now.design.index.rows.now w }
    ensures { Writes to.old (switch_glue (scope_setting (path_of src.now.scope)) (switch_in (memory src.now.mem) src.now.design.index.rows.now w)) to.new }
{
    let mut controls: [u32; 325] = [0; 325];
    let value = w.controls;
    let count = entries(&src.mem, Span::from(value), &mut controls, 0);
    glue_text(
        to,
        src,
        &Rows {
            rows: &controls,
            n: count,
        },
        w,
    )
}

// The glue of all switches.
pub fn switches_glue<'a>(to: &mut Text, src: &Source<'a>, t: Few<Switch>)
    requires { OfSwitches src.now.mem.files.now src.now.mem.area.now src.now.design.index.rows.now t }
    ensures { Writes to.old (each (switch_glue (scope_setting (path_of src.now.scope))) (map (switch_in (memory src.now.mem) src.now.design.index.rows.now) (take t.n t.all))) to.new }
{
    let m = t.n;
    for i in 0..m {
        let w = t.all[i];
        switch_glue(to, src, w);
    }
}

// The control port in row i with its signal.
fn pair_at(to: &mut Text, mem: &Memory, controls: &[u32], i: usize)
    requires { i ≤ 65535 }
    ensures { Writes to.old (pair_text (control_at (memory mem.now) controls.now i)) to.new }
{
    let port = row(controls, i);
    let signal = row(controls, i + 1);
    put_name(to, mem, port);
    to.put(b"=");
    put_name(to, mem, signal)
}

// The control ports of a switch with their signals, a text between them.
fn put_controlled(to: &mut Text, mem: &Memory, controls: &Rows, sep: &[u8])
    requires { controls.now.n ≤ 65536 }
    ensures { Writes to.old (joined sep.now (map pair_text (controls_of (names_in (memory mem.now) controls.now)))) to.new }
{
    // Counted by hand: a turn takes two names, as the definition does; over the pairs each index is doubled, which is no plainer.
    let mut i = 0;
    while i + 1 < controls.n {
        to.unless(i, sep);
        pair_at(to, mem, controls.rows, i);
        i += 2;
    }
}

// The report line of a switch whose control ports are in a table.
fn line_text<'a>(to: &mut Text, src: &Source<'a>, controls: &Rows, w: Switch)
    requires { OfNames src.now.mem.files.now src.now.mem.area.now w × Controlled (memory src.now.mem) w controls.now.rows.now controls.now.n }
    ensures { Writes to.old (switch_line (switch_of (memory src.now.mem) [] w)) to.new }
{
    let scope = w.scope;
    let input = w.input;
    let output = w.output;
    let named = w.name;
    let a = string_arg(&src.mem, named);
    let b = net_arg(&src.mem, scope, input);
    let c = net_arg(&src.mem, scope, output);
    fill3(
        to,
        b"power switch {0}: {1} -> {2} controlled by ",
        src,
        a,
        b,
        c,
    );
    put_controlled(to, &src.mem, controls, b",");
    to.put(b"\n")
}

// The report line of a switch.
fn switch_line<'a>(to: &mut Text, src: &Source<'a>, w: Switch)
    requires { OfNames src.now.mem.files.now src.now.mem.area.now w }
    ensures { Writes to.old (switch_line (switch_of (memory src.now.mem) [] w)) to.new }
{
    let mut controls: [u32; 325] = [0; 325];
    let value = w.controls;
    let count = entries(&src.mem, Span::from(value), &mut controls, 0);
    line_text(
        to,
        src,
        &Rows {
            rows: &controls,
            n: count,
        },
        w,
    )
}

// The report lines of all switches.
pub fn switch_lines<'a>(to: &mut Text, src: &Source<'a>, t: Few<Switch>)
    requires { OfAll src.now.mem.files.now src.now.mem.area.now t }
    ensures { Writes to.old (each switch_line (map (switch_of (memory src.now.mem) []) (take t.n t.all))) to.new }
{
    let m = t.n;
    for i in 0..m {
        let w = t.all[i];
        switch_line(to, src, w);
    }
}
