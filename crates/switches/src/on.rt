// When a switch is on, written: one of its on-states.
ghost use Rattle.std.specs.Prelude.{◌≡◌, ◌++◌, map, ◌≤◌, ◌<◌, ◌^◌, length};
ghost use Rattle.out.specs.Text.{Writes};
ghost use Rattle.out.specs.Items.{joined};
ghost use Rattle.spans.specs.Span.{bytes};
ghost use Rattle.nametable.specs.Table.{table_names};
ghost use Rattle.listnames.specs.Lists.{Whole};
ghost use Rattle.scope.specs.Parts.{parts};
ghost use Rattle.model.specs.Commands.{controls_of};
ghost use Rattle.store.specs.View.{on_of};
ghost use Rattle.conditions.specs.Controls.{scope_setting};
ghost use Rattle.switches.specs.Words.{ons_from};
ghost use Rattle.switches.specs.Texts.{on_text, ons_text};
ghost use Rattle.switches.specs.Asked.{Ons};
ghost use Rattle.spans.specs.Memory.{memory};
ghost use Rattle.scope.specs.Path.{path_of};
ghost use Rattle.nametable.specs.Names.{names_in};

use conditions::put_condition;
use format::source::Source;
use listnames::nth;
use out::emit::Text;
use spans::span::Span;
use store::word::word_at;
use text::part::Rows;

// An on-state: its condition in parentheses.
fn put_one<'a>(to: &mut Text, src: &Source<'a>, controls: &Rows, v: Span)
    requires { (length (memory src.now.mem) < 2 ^ 32) × ((controls.now.n ≤ 65536) × Whole (length src.now.mem.files.now) v) }
    ensures { Writes to.old (on_text (scope_setting (path_of src.now.scope)) (controls_of (names_in (memory src.now.mem) controls.now)) (on_of (bytes (memory src.now.mem) v))) to.new }
{
    let e = nth(&src.mem, v, 2);
    to.put(b"(");
    put_condition(to, src, controls, e);
    to.put(b")")
}

// On-states with a text between them: n from word `first` on.
fn put_ons<'a>(to: &mut Text, src: &Source<'a>, controls: &Rows, first: usize, n: usize, sep: &[u8])
    requires { Ons src.now.mem.files.now src.now.mem.area.now src.now.design.index.rows.now first n controls.now.n }
    ensures { Writes to.old (joined sep.now (map (on_text (scope_setting (path_of src.now.scope)) (controls_of (names_in (memory src.now.mem) controls.now))) (ons_from (memory src.now.mem) src.now.design.index.rows.now first n))) to.new }
{
    for k in 0..n {
        let v = word_at(src.design.index.rows, first + k);
        to.unless(k, sep);
        put_one(to, src, controls, Span::from(v));
    }
}

// When a switch is on: its on-states are n from word `first` on.
pub fn put_on<'a>(to: &mut Text, src: &Source<'a>, controls: &Rows, first: usize, n: usize)
    requires { Ons src.now.mem.files.now src.now.mem.area.now src.now.design.index.rows.now first n controls.now.n }
    ensures { Writes to.old (ons_text (scope_setting (path_of src.now.scope)) (controls_of (names_in (memory src.now.mem) controls.now)) (ons_from (memory src.now.mem) src.now.design.index.rows.now first n)) to.new }
{
    if n == 0 {
        return to.put(b"1'b0");
    }
    put_ons(to, src, controls, first, n, b" || ")
}
