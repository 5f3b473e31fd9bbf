// The report lines of the tables of states.
#![tactic(auto)]

ghost use Rattle.std.specs.Prelude.{◌≡◌, ◌≤◌, length, take};
ghost use mathlib.Core.List.{◌++◌, map, flat_map};
ghost use Rattle.out.specs.Text.{Writes};
ghost use Rattle.out.specs.Items.{each, joined};
ghost use Rattle.nametable.specs.Table.{table_names};
ghost use Rattle.texts.specs.Texts.{table_state, table_line};
ghost use Rattle.store.specs.Strings.{string};
ghost use Rattle.store.specs.View.{states_of, table_of, numbered};
ghost use Rattle.store.specs.Rows.{rows_in};
ghost use Rattle.tablelines.specs.Tables.{is_state, state_of, state_text, table_text, OfState, OfStates, OfTable, OfTables};
ghost use Rattle.spans.specs.Memory.{memory};
ghost use Rattle.nametable.specs.Names.{names_in};

use domainlists::put_below;
use listnames::{entries, put_names};
use out::emit::Text;
use spans::span::{Memory, Span};
use store::row::{Row, row_at};
use store::state::{Few, Table};
use store::stored::Stored;
use storedtexts::fill1;
use text::part::Rows;

// Writes a state: its name, and the names of a table as its values.
fn put_values(to: &mut Text, mem: &Memory, name: Stored, values: &Rows)
    requires { values.now.n ≤ 65536 }
    ensures { Writes to.old (state_text (string (memory mem.now) name) (names_in (memory mem.now) values.now)) to.new }
{
    storedtexts::put(to, mem, name);
    to.put(b"={");
    put_names(to, mem, values, b" ");
    to.put(b"}")
}

// Writes the state of a row, whose values go through a table.
fn put_state_by<'a>(to: &mut Text, mem: &Memory<'a>, r: Row, values: &mut [u32])
    requires { OfState mem.now.files.now mem.now.area.now r × (320 ≤ length values.old) }
    ensures { Writes to.old (table_state (state_of (memory mem.now) r)) to.new }
{
    let n = entries(mem, Span::from(r.value), values, 0);
    put_values(to, mem, r.name, &Rows { rows: values, n })
}

// Writes the state of a row.
fn put_state<'a>(to: &mut Text, mem: &Memory<'a>, r: Row)
    requires { OfState mem.now.files.now mem.now.area.now r }
    ensures { Writes to.old (table_state (state_of (memory mem.now) r)) to.new }
{
    let mut values: [u32; 320] = [0; 320];
    put_state_by(to, mem, r, &mut values)
}

// Whether a row is a state of table k.
fn is_state(r: Row, k: usize) -> bool
    ensures { result ≡ is_state k r }
{
    (r.kind == 2) & (r.scope.at as usize == k)
}

// Writes the states of table k among the rows, a text between them.
fn put_states<'a>(to: &mut Text, mem: &Memory<'a>, nums: &[u32], rows: usize, k: usize, sep: &[u8])
    requires { OfStates mem.now.files.now mem.now.area.now nums.now rows k }
    ensures { Writes to.old (joined sep.now (map table_state (flat_map (states_of (memory mem.now) k) (rows_in nums.now rows)))) to.new }
{
    let mut n = 0;
    for i in 0..rows {
        let r = row_at(nums, i);
        if !is_state(r, k) {
            continue;
        }
        to.unless(n, sep);
        put_state(to, mem, r);
        n += 1;
    }
}

// Writes the line of table k: its name, the names of a table as its supplies, its states.
fn put_table<'a>(
    to: &mut Text,
    mem: &Memory<'a>,
    nums: &[u32],
    rows: usize,
    k: usize,
    name: Stored,
    supplies: &Rows,
)
    requires { OfStates mem.now.files.now mem.now.area.now nums.now rows k × (supplies.now.n ≤ 65536) }
    ensures { Writes to.old (table_text (string (memory mem.now) name) (names_in (memory mem.now) supplies.now) (flat_map (states_of (memory mem.now) k) (rows_in nums.now rows))) to.new }
{
    fill1(to, b"PST {0} over [", mem, name);
    put_names(to, mem, supplies, b", ");
    to.put(b"]: ");
    put_states(to, mem, nums, rows, k, b" ");
    to.put(b"\n")
}

// Writes the line of table k, whose supplies go through a table of names.
fn table_line_by<'a>(
    to: &mut Text,
    mem: &Memory<'a>,
    nums: &[u32],
    rows: usize,
    k: usize,
    x: Table,
    supplies: &mut [u32],
)
    requires { OfTable mem.now.files.now mem.now.area.now nums.now rows k x × (320 ≤ length supplies.old) }
    ensures { Writes to.old (table_line (table_of (memory mem.now) (rows_in nums.now rows) k x)) to.new }
{
    let n = put_below(mem, x.scope, x.supplies, supplies, 0);
    put_table(to, mem, nums, rows, k, x.name, &Rows { rows: supplies, n })
}

// Writes the line of table k.
fn table_line<'a>(to: &mut Text, mem: &Memory<'a>, nums: &[u32], rows: usize, k: usize, x: Table)
    requires { OfTable mem.now.files.now mem.now.area.now nums.now rows k x }
    ensures { Writes to.old (table_line (table_of (memory mem.now) (rows_in nums.now rows) k x)) to.new }
{
    let mut supplies: [u32; 320] = [0; 320];
    table_line_by(to, mem, nums, rows, k, x, &mut supplies)
}

// Writes the lines of all tables.
pub fn table_lines<'a>(to: &mut Text, mem: &Memory<'a>, nums: &[u32], rows: usize, t: Few<Table>)
    requires { OfTables mem.now.files.now mem.now.area.now nums.now rows t }
    ensures { Writes to.old (each table_line (numbered (table_of (memory mem.now) (rows_in nums.now rows)) 0 (take t.n t.all))) to.new }
{
    for i in 0..t.n {
        table_line(to, mem, nums, rows, i, t.all[i]);
    }
}
