// The entries of a value as names in a table.
#![tactic(auto)]

ghost use Rattle.std.specs.Prelude.{◌≡◌, ◌++◌, map, ◌+◌, ◌≤◌, ◌<◌, ◌^◌, max, length};
ghost use Rattle.out.specs.Text.{Writes};
ghost use Rattle.out.specs.Items.{joined};
ghost use Rattle.spans.specs.Span.{◌⋯◌, bytes};
ghost use Rattle.tcl.specs.Lists.{list};
ghost use Rattle.entries.specs.Entry.{entry_bytes};
ghost use Rattle.names.specs.Name.{entry_of};
ghost use Rattle.model.specs.Commands.{nth as Commands·nth};
ghost use Rattle.names.specs.Scoped.{scoped as Scoped·scoped};
ghost use Rattle.nametable.specs.Table.{table_names};
ghost use Rattle.listnames.specs.Lists.{form_of, nth_below, Rooms, Reads, Whole, Listed, Known};
ghost use Rattle.spans.specs.Memory.{memory};
ghost use Rattle.nametable.specs.Names.{names_in};

use entries::item::{entry, next_entry};
use lists::value;
use names::name::{Form, Name, alone, scoped};
use names::put::put_name;
use nametable::{put_row, row};
use out::emit::Text;
use spans::span::{Memory, Span};
use text::part::{Rows, part};
use text::scan::find;

// The form of an entry of a list.
pub fn form(quoted: bool) -> Form
    ensures { result ≡ form_of quoted }
{
    if quoted {
        return Form::Quoted;
    }
    Form::Entry
}

// The form of an entry of a text: without a backslash it is as it stands.
fn form_in(text: &[u8], s: Span, quoted: bool) -> Form
    ensures { entry_of result (bytes text.now s) ≡ entry_bytes quoted (bytes text.now s) }
{
    let w = part(text, s.at, s.len);
    if find(w, 0, b'\\') < w.len() {
        return form(quoted);
    }
    Form::Word
}

// Where an entry of a value lies in memory.
pub fn inside(v: Span, s: Span) -> Span
    requires { v.at + s.at < 2 ^ 64 }
    ensures { result ≡ (v.at + s.at) ⋯ s.len }
{
    Span {
        at: v.at + s.at,
        len: s.len,
    }
}

// Puts the entries of the text of a value, each below a scope, behind the first n names of a table.
// The table is being filled: n names are there so far.
fn put_below(mem: &Memory, scope: Span, v: Span, text: &[u8], table: &mut [u32], n: usize) -> usize
    requires { Reads (memory mem.now) scope v text.now table.old n }
    ensures { Listed (memory mem.now) table.old n (map (Scoped·scoped (bytes (memory mem.now) scope)) (list text.now)) table.new result }
{
    let mut k = n;
    let mut at = 0;
    let mut first = true;
    while let Some(item) = next_entry(text, at, first) {
        let name = scoped(
            mem,
            scope,
            inside(v, item.entry),
            form_in(text, item.entry, item.quoted),
        );
        put_row(table, k, name);
        k += 1;
        at = item.next;
        first = false;
    }
    k
}

// Puts the entries of a value, each below a scope, behind the first n names of a table, and returns how many there are then.
// The table is being filled: n names are there so far.
pub fn below<'a>(mem: &Memory<'a>, scope: Span, v: Span, table: &mut [u32], n: usize) -> usize
    requires { Rooms mem.now.files.now mem.now.area.now scope v table.old n }
    ensures { Listed (memory mem.now) table.old n (map (Scoped·scoped (bytes (memory mem.now) scope)) (list (bytes (memory mem.now) v))) table.new result }
{
    let text = value(mem, v);
    put_below(mem, scope, v, text, table, n)
}

// Puts the entries of the text of a value, each as it is, behind the first n names of a table.
// The table is being filled: n names are there so far.
fn put_entries(mem: &Memory, v: Span, text: &[u8], table: &mut [u32], n: usize) -> usize
    requires { Reads (memory mem.now) (0 ⋯ 0) v text.now table.old n }
    ensures { Listed (memory mem.now) table.old n (list text.now) table.new result }
{
    let mut k = n;
    let mut at = 0;
    let mut first = true;
    while let Some(item) = next_entry(text, at, first) {
        let name = alone(
            inside(v, item.entry),
            form_in(text, item.entry, item.quoted),
        );
        put_row(table, k, name);
        k += 1;
        at = item.next;
        first = false;
    }
    k
}

// Puts the entries of a value, each as it is.
// The table is being filled: n names are there so far.
pub fn entries<'a>(mem: &Memory<'a>, v: Span, table: &mut [u32], n: usize) -> usize
    requires { Rooms mem.now.files.now mem.now.area.now (0 ⋯ 0) v table.old n }
    ensures { Listed (memory mem.now) table.old n (list (bytes (memory mem.now) v)) table.new result }
{
    let text = value(mem, v);
    put_entries(mem, v, text, table, n)
}

// Entry k of a value as it is; empty where there is none.
pub fn nth<'a>(mem: &Memory<'a>, v: Span, k: usize) -> Name
    requires { Whole (length mem.now.files.now) v }
    ensures { Known (memory mem.now) (Commands·nth k (list (bytes (memory mem.now) v))) (v.at + v.len) result }
{
    let text = value(mem, v);
    let Some(item) = entry(text, k) else {
        return alone(Span { at: 0, len: 0 }, Form::Word);
    };
    alone(
        inside(v, item.entry),
        form_in(text, item.entry, item.quoted),
    )
}

// Entry k of a value below a scope; empty where there is none.
pub fn nth_below<'a>(mem: &Memory<'a>, scope: Span, v: Span, k: usize) -> Name
    requires { Whole (length mem.now.files.now) v }
    ensures { Known (memory mem.now) (nth_below (bytes (memory mem.now) scope) k (list (bytes (memory mem.now) v))) (max (scope.at + scope.len) (v.at + v.len)) result }
{
    let text = value(mem, v);
    let Some(item) = entry(text, k) else {
        return alone(Span { at: 0, len: 0 }, Form::Word);
    };
    scoped(
        mem,
        scope,
        inside(v, item.entry),
        form_in(text, item.entry, item.quoted),
    )
}

// Writes the names of a table, a text between them.
pub fn put_names(to: &mut Text, mem: &Memory, table: &Rows, sep: &[u8])
    requires { table.now.n ≤ 65536 }
    ensures { Writes to.old (joined sep.now (names_in (memory mem.now) table.now)) to.new }
{
    for k in 0..table.n {
        to.unless(k, sep);
        put_name(to, mem, row(table.rows, k));
    }
}
