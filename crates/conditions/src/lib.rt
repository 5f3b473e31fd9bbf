// Conditions of switches (the Rust's `bool_expr`): words of letters, digits and `_` are control ports, numbers, or unknown; every other byte stays.
#![tactic(auto)]

ghost use Rattle.std.specs.Prelude.{◌≡◌, ◌++◌, ◌≤◌, ◌<◌, ◌^◌, None, length, take, drop};
ghost use Rattle.text.specs.Classes.{is_digit};
ghost use Rattle.text.specs.Scan.{all, before};
ghost use Rattle.out.specs.Text.{Writes};
ghost use Rattle.tcl.specs.Substitution.{no_variable};
ghost use Rattle.names.specs.Name.{name_of};
ghost use Rattle.nametable.specs.Table.{table_names};
ghost use Rattle.refs.specs.Text.{text_of};
ghost use Rattle.scope.specs.Parts.{parts};
ghost use Rattle.model.specs.Commands.{controls_of};
ghost use Rattle.texts.specs.Switches.{signal_of, word_text, condition};
ghost use Rattle.conditions.specs.Controls.{scope_setting, ControlSeen};
ghost use Rattle.spans.specs.Memory.{memory};
ghost use Rattle.scope.specs.Path.{path_of};
ghost use Rattle.nametable.specs.Names.{names_in};

use format::path::put_hier;
use format::source::Source;
use names::name::{Name, next};
use nametable::row;
use out::bytewise::Mode;
use out::emit::Text;
use refs::{Ref, front, same_refs, whole};
use spans::span::Memory;
use text::class::{is_digit, is_variable};
use text::part::Rows;

// How many bytes the word has that a text begins with.
#[tactic(auto, using(crate::proofs::Words::sizes))]
pub fn word_size(mem: &Memory, e: Name) -> usize
    requires { length (memory mem.now) < 2 ^ 32 }
    ensures { result ≡ before no_variable (name_of (memory mem.now) e) }
{
    let mut x = e;
    let mut n = 0;
    while let Some((b, u)) = next(mem, x) {
        if !is_variable(b) {
            return n;
        }
        n += 1;
        x = u;
    }
    n
}

// A text without its first n bytes.
#[tactic(auto, using(crate::proofs::Words::drops))]
pub fn behind(mem: &Memory, e: Name, n: usize) -> Name
    ensures { name_of (memory mem.now) result ≡ drop n (name_of (memory mem.now) e) }
{
    let mut x = e;
    for _k in 0..n {
        let Some((_, u)) = next(mem, x) else {
            return x;
        };
        x = u;
    }
    x
}

// Whether the first n bytes of a text are digits.
#[tactic(auto, using(crate::proofs::Words::digits))]
pub fn is_number(mem: &Memory, e: Name, n: usize) -> bool
    ensures { result ≡ all is_digit (take n (name_of (memory mem.now) e)) }
{
    let mut x = e;
    for _k in 0..n {
        let Some((b, u)) = next(mem, x) else {
            return true;
        };
        if !is_digit(b) {
            return false;
        }
        x = u;
    }
    true
}

// The row of the signal of a control port: of the last one where there are several, 0 where there is none. Ports and signals stand by turns in the
// table, n of both together.
#[tactic(auto, using(crate::proofs::Words::controls))]
pub fn control<'a>(job: &[u8], mem: &Memory<'a>, controls: &Rows, w: Ref) -> usize
    requires { controls.now.n ≤ 65536 }
    ensures { ControlSeen (memory mem.now) controls.now.rows.now controls.now.n (text_of job.now (memory mem.now) w) result }
{
    let mut found = 0;
    let mut i = 0;
    // Counted by hand: two rows of the table are one step.
    while i + 1 < controls.n {
        let p = row(controls.rows, i);
        if same_refs(job, mem, whole(p), w) {
            found = i + 1;
        }
        i += 2;
    }
    found
}

// Writes what a word of n bytes stands for, where there is room or not.
#[tactic(auto, using(crate::proofs::Written::word_known, crate::proofs::Written::word_number, crate::proofs::Written::word_unknown))]
fn put_known<'a>(to: &mut Text, src: &Source<'a>, controls: &Rows, e: Name, n: usize)
    requires { controls.now.n ≤ 65536 }
    ensures { Writes to.old (word_text (signal_of (scope_setting (path_of src.now.scope)) (controls_of (names_in (memory src.now.mem) controls.now)) (take n (name_of (memory src.now.mem) e)) None) (take n (name_of (memory src.now.mem) e))) to.new }
{
    let w = front(e, n);
    let k = control(src.design.index.job, &src.mem, controls, w);
    if k != 0 {
        let signal = row(controls.rows, k);
        return put_hier(to, Mode::Same, src, whole(signal));
    }
    if is_number(&src.mem, e, n) {
        return refs::put(to, Mode::Same, false, src.design.index.job, &src.mem, w);
    }
    to.put(b"1'bx")
}

// Writes what a word of n bytes stands for.
#[tactic(auto, using(crate::proofs::Written::word_full))]
fn put_word<'a>(to: &mut Text, src: &Source<'a>, controls: &Rows, e: Name, n: usize)
    requires { controls.now.n ≤ 65536 }
    ensures { Writes to.old (word_text (signal_of (scope_setting (path_of src.now.scope)) (controls_of (names_in (memory src.now.mem) controls.now)) (take n (name_of (memory src.now.mem) e)) None) (take n (name_of (memory src.now.mem) e))) to.new }
{
    if to.is_full() {
        return;
    }
    put_known(to, src, controls, e, n)
}

// Writes a condition.
#[tactic(auto, using(crate::proofs::Written::condition_end, crate::proofs::Written::condition_less))]
pub fn put_condition<'a>(to: &mut Text, src: &Source<'a>, controls: &Rows, e: Name)
    requires { (length (memory src.now.mem) < 2 ^ 32) × (controls.now.n ≤ 65536) }
    ensures { Writes to.old (condition (scope_setting (path_of src.now.scope)) (controls_of (names_in (memory src.now.mem) controls.now)) (name_of (memory src.now.mem) e)) to.new }
{
    let mut x = e;
    while let Some((b, u)) = next(&src.mem, x) {
        if is_variable(b) {
            let n = word_size(&src.mem, x);
            put_word(to, src, controls, x, n);
            x = behind(&src.mem, x, n);
            continue;
        }
        to.byte(b);
        x = u;
    }
}
