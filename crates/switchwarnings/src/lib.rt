// Warnings about the on-states of switches: another port than the input's, and words that are no control port and no number.
#![tactic(auto)]

ghost use mathlib.Core.List.{[], ◌∷◌, ◌++◌, map, flat_map};
ghost use Rattle.std.specs.Prelude.{None, ◌≤◌, ◌<◌, ◌^◌, length, take};
ghost use Rattle.out.specs.Fill.{format3};
ghost use Rattle.spans.specs.Span.{bytes};
ghost use Rattle.tcl.specs.Lists.{list};
ghost use Rattle.names.specs.Name.{name_of};
ghost use Rattle.nametable.specs.Table.{table_names};
ghost use Rattle.scope.specs.Parts.{parts};
ghost use Rattle.model.specs.Commands.{nth as Commands·nth, controls_of};
ghost use Rattle.store.specs.Strings.{string};
ghost use Rattle.store.specs.View.{on_of};
ghost use Rattle.texts.specs.Switches.{signal_of, unless_known, unknowns, on_warnings};
ghost use Rattle.conditions.specs.Controls.{scope_setting};
ghost use Rattle.switches.specs.Words.{ons_from, switch_in};
ghost use Rattle.switches.specs.Texts.{Tells, on_remarks, remarks};
ghost use Rattle.switches.specs.Asked.{OfSwitch, OfSwitches, Controlled};
ghost use Rattle.switchwarnings.specs.Asked.{Reads};
ghost use Rattle.spans.specs.Memory.{memory};
ghost use Rattle.scope.specs.Path.{path_of};
ghost use Rattle.nametable.specs.Names.{names_in};

use clamps::stored;
use conditions::{behind, control, is_number, word_size};
use format::arg::{Wrap, name, wrapped};
use format::fill::{fill1, fill3};
use format::source::Source;
use listnames::{entries, nth};
use names::compare::same_names;
use names::name::{Name, next};
use out::emit::Text;
use refs::front;
use spans::span::Span;
use store::state::{Few, Switch};
use store::stored::Stored;
use store::word::word_at;
use text::class::is_variable;
use text::part::{Rows, wide};

// Writes the warning about a word of k bytes, where there is one, behind `count` others: how many there are then.
fn word_warning<'a>(
    to: &mut Text,
    count: usize,
    src: &Source<'a>,
    controls: &Rows,
    x: Name,
    k: usize,
) -> usize
    requires { (controls.now.n ≤ 65536) × (count ≤ 2 ^ 62) }
    ensures { Tells 1 to.old count (unless_known (signal_of (scope_setting (path_of src.now.scope)) (controls_of (names_in (memory src.now.mem) controls.now)) (take k (name_of (memory src.now.mem) x)) None) (take k (name_of (memory src.now.mem) x))) to.new result }
{
    let w = front(x, k);
    let r = control(src.design.index.job, &src.mem, controls, w);
    if r != 0 {
        return count;
    }
    if is_number(&src.mem, x, k) {
        return count;
    }
    fill1(
        to,
        b"warning: power switch state uses unknown control port '{0}'\n",
        src,
        wrapped(Wrap::Plain, w),
    );
    count + 1
}

// Writes the warnings about a condition.
fn condition_warnings<'a>(
    to: &mut Text,
    count: usize,
    src: &Source<'a>,
    controls: &Rows,
    e: Name,
) -> usize
    requires { (length (memory src.now.mem) < 2 ^ 32) × ((controls.now.n ≤ 65536) × (count ≤ 2 ^ 61)) }
    ensures { Tells (2 ^ 34) to.old count (unknowns (scope_setting (path_of src.now.scope)) (controls_of (names_in (memory src.now.mem) controls.now)) 0 (name_of (memory src.now.mem) e)) to.new result }
{
    let mut told = count;
    let mut x = e;
    while let Some((b, u)) = next(&src.mem, x) {
        if is_variable(b) {
            let k = word_size(&src.mem, x);
            told = word_warning(to, told, src, controls, x, k);
            x = behind(&src.mem, x, k);
            continue;
        }
        x = u;
    }
    told
}

// Writes the warning about another port than the input's.
fn port_warning(
    to: &mut Text,
    count: usize,
    src: &Source,
    named: Stored,
    port: Name,
    expected: Name,
) -> usize
    requires { count ≤ 2 ^ 62 }
    ensures { Tells 1 to.old count (format3 "power switch '{0}': on_state uses input port '{1}' (expected '{2}')" (string (memory src.now.mem) named) (name_of (memory src.now.mem) port) (name_of (memory src.now.mem) expected) ∷ []) to.new result }
{
    fill3(
        to,
        b"warning: power switch '{0}': on_state uses input port '{1}' (expected '{2}')\n",
        src,
        name(stored(named)),
        name(port),
        name(expected),
    );
    count + 1
}

// Writes the warnings about an on-state of a switch.
fn state_warnings<'a>(
    to: &mut Text,
    count: usize,
    src: &Source<'a>,
    controls: &Rows,
    w: Switch,
    v: Span,
) -> usize
    requires { Reads src.now.mem.files.now src.now.mem.area.now controls.now.n w v count }
    ensures { Tells (2 ^ 35) to.old count (on_remarks (scope_setting (path_of src.now.scope)) (string (memory src.now.mem) w.name) (Commands·nth 0 (list (string (memory src.now.mem) w.input))) (controls_of (names_in (memory src.now.mem) controls.now)) (on_of (bytes (memory src.now.mem) v))) to.new result }
{
    let input = w.input;
    let named = w.name;
    let port = nth(&src.mem, v, 1);
    let expected = nth(&src.mem, Span::from(input), 0);
    let e = nth(&src.mem, v, 2);
    if same_names(&src.mem, port, expected) {
        return condition_warnings(to, count, src, controls, e);
    }
    let told = port_warning(to, count, src, named, port, expected);
    condition_warnings(to, told, src, controls, e)
}

// Writes the warnings about all on-states of a switch whose control ports are in a table.
fn ons_warnings<'a>(
    to: &mut Text,
    count: usize,
    src: &Source<'a>,
    controls: &Rows,
    w: Switch,
) -> usize
    requires { OfSwitch src.now.mem.files.now src.now.mem.area.now src.now.design.index.rows.now w × (Controlled (memory src.now.mem) w controls.now.rows.now controls.now.n × (count ≤ 2 ^ 59)) }
    ensures { Tells (2 ^ 48) to.old count (flat_map (on_remarks (scope_setting (path_of src.now.scope)) (string (memory src.now.mem) w.name) (Commands·nth 0 (list (string (memory src.now.mem) w.input))) (controls_of (names_in (memory src.now.mem) controls.now))) (ons_from (memory src.now.mem) src.now.design.index.rows.now w.first w.ons)) to.new result }
{
    let first = wide(w.first);
    let n = wide(w.ons);
    let mut told = count;
    for k in 0..n {
        let v = word_at(src.design.index.rows, first + k);
        told = state_warnings(to, told, src, controls, w, Span::from(v));
    }
    told
}

// Writes the warnings about a switch.
fn of_switch<'a>(to: &mut Text, count: usize, src: &Source<'a>, w: Switch) -> usize
    requires { OfSwitch src.now.mem.files.now src.now.mem.area.now src.now.design.index.rows.now w × (count ≤ 2 ^ 59) }
    ensures { Tells (2 ^ 48) to.old count (flat_map (on_warnings (scope_setting (path_of src.now.scope)) (switch_in (memory src.now.mem) src.now.design.index.rows.now w)) (switch_in (memory src.now.mem) src.now.design.index.rows.now w).on_states) to.new result }
{
    let mut controls: [u32; 325] = [0; 325];
    let value = w.controls;
    let n = entries(&src.mem, Span::from(value), &mut controls, 0);
    ons_warnings(to, count, src, &Rows { rows: &controls, n }, w)
}

// Writes the warnings about all switches behind `count` others: how many there are then.
pub fn switch_warnings<'a>(to: &mut Text, count: usize, src: &Source<'a>, t: Few<Switch>) -> usize
    requires { OfSwitches src.now.mem.files.now src.now.mem.area.now src.now.design.index.rows.now t × (count ≤ 2 ^ 58) }
    ensures { Tells (2 ^ 54) to.old count (remarks (scope_setting (path_of src.now.scope)) (map (switch_in (memory src.now.mem) src.now.design.index.rows.now) (take t.n t.all))) to.new result }
{
    let mut told = count;
    for i in 0..t.n {
        told = of_switch(to, told, src, t.all[i]);
    }
    told
}
