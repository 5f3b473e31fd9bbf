// The supply nets: created ones, those of ports, those of switches; each one time.
ghost use Rattle.std.specs.Prelude.{◌≡◌, ◌+◌, ◌≤◌, length, take};
ghost use mathlib.Core.List.{[], ◌∷◌, ◌++◌, map, flat_map};
ghost use Rattle.text.specs.Scan.{any};
ghost use Rattle.spans.specs.Span.{bytes};
ghost use Rattle.tcl.specs.Lists.{list};
ghost use Rattle.names.specs.Name.{name_of};
ghost use Rattle.nametable.specs.Table.{table_names};
ghost use Rattle.listnames.specs.Lists.{Whole, Known, nth_below};
ghost use Rattle.design.specs.Lists.{those, is_in, add_new, add_all};
ghost use Rattle.texts.specs.Supplies.{net_of, supply_nets};
ghost use Rattle.store.specs.Strings.{below_of};
ghost use Rattle.store.specs.View.{connections_of, model_of};
ghost use Rattle.store.specs.Order.{end_of, of_below};
ghost use Rattle.store.specs.Rows.{rows_in, store_of};
ghost use Rattle.setting.specs.Orders.{Orders};
ghost use Rattle.supplies.specs.Nets.{is_below, has_name, port_net, both_nets, ports_nets, switches_nets, Reads, Connects, Rowed, Adds, Creates, OfPort, OfPorts, OfSupply, OfSwitch, OfSwitches, Names};
ghost use Rattle.spans.specs.Memory.{memory};
ghost use Rattle.nametable.specs.Names.{names_in};

use entries::item::next_entry;
use listnames::{form, inside, nth_below};
use lists::value;
use names::compare::same_names;
use names::name::{Form, Name, scoped};
use nametable::{put_row, row};
use spans::span::{Memory, Span};
use store::row::{Row, row_at};
use store::state::{Few, Port, State, Switch};
use store::stored::Below;
use text::part::Rows;

// A stored name below its scope.
pub fn name_of(mem: &Memory, b: Below) -> Name
    ensures { Known (memory mem.now) (below_of (memory mem.now) b) (of_below end_of b) result }
{
    scoped(mem, Span::from(b.scope), Span::from(b.word), Form::Word)
}

// Whether a name is one of the entries of the text of a value, each below a scope.
fn has_entry<'a>(mem: &Memory<'a>, scope: Span, v: Span, text: &[u8], p: Name) -> bool
    requires { Reads (memory mem.now) v text.now }
    ensures { result ≡ any (is_below (memory mem.now) scope p) (list text.now) }
{
    let mut at = 0;
    let mut first = true;
    while let Some(i) = next_entry(text, at, first) {
        let x = scoped(mem, scope, inside(v, i.entry), form(i.quoted));
        if same_names(mem, x, p) {
            return true;
        }
        at = i.next;
        first = false;
    }
    false
}

// Whether a name is one of the entries of a value, each below a scope.
fn is_entry<'a>(mem: &Memory<'a>, scope: Span, v: Span, p: Name) -> bool
    requires { Whole (length mem.now.files.now) v }
    ensures { result ≡ any (is_below (memory mem.now) scope p) (list (bytes (memory mem.now) v)) }
{
    let text = value(mem, v);
    has_entry(mem, scope, v, text, p)
}

// The net of port p behind a row of the store: the row's own where it connects the port.
fn connected<'a>(mem: &Memory<'a>, r: Row, p: Name, net: Name) -> Name
    requires { Connects mem.now.files.now mem.now.area.now r net }
    ensures { Known (memory mem.now) (net_of (connections_of (memory mem.now) r) (name_of (memory mem.now) p) (name_of (memory mem.now) net)) (length (memory mem.now)) result }
{
    if r.kind != 1 {
        return net;
    }
    let s = Span::from(r.scope);
    if is_entry(mem, s, Span::from(r.value), p) {
        return scoped(mem, s, Span::from(r.name), Form::Word);
    }
    net
}

// The net that a port is connected to: the last connection counts; the port itself where there is none.
fn net_of<'a>(mem: &Memory<'a>, nums: &[u32], rows: usize, p: Name) -> Name
    requires { Rowed mem.now.files.now mem.now.area.now nums.now rows p }
    ensures { Known (memory mem.now) (net_of (flat_map (connections_of (memory mem.now)) (rows_in nums.now rows)) (name_of (memory mem.now) p) (name_of (memory mem.now) p)) (length (memory mem.now)) result }
{
    let mut net = p;
    for k in 0..rows {
        net = connected(mem, row_at(nums, k), p, net);
    }
    net
}

// Whether a name is among the first n of a table.
fn is_listed<'a>(mem: &Memory<'a>, table: &Rows, x: Name) -> bool
    requires { table.now.n ≤ 65536 }
    ensures { result ≡ is_in (name_of (memory mem.now) x) (names_in (memory mem.now) table.now) }
{
    for k in 0..table.n {
        if same_names(mem, x, row(table.rows, k)) {
            return true;
        }
    }
    false
}

// A name more, where it is new.
// The table is being filled: n nets are there so far.
fn add<'a>(mem: &Memory<'a>, table: &mut [u32], n: usize, x: Name) -> usize
    requires { Adds (memory mem.now) table.old n x }
    ensures { Names (memory mem.now) (add_new (table_names (memory mem.now) table.old n) (name_of (memory mem.now) x)) (n + 1) table.old table.new result }
{
    if is_listed(mem, &Rows { rows: table, n }, x) {
        return n;
    }
    put_row(table, n, x);
    n + 1
}

// A name more, where it is new and not empty.
// The table is being filled: n nets are there so far.
fn add_named<'a>(mem: &Memory<'a>, table: &mut [u32], n: usize, x: Name) -> usize
    requires { Adds (memory mem.now) table.old n x }
    ensures { Names (memory mem.now) (add_all (table_names (memory mem.now) table.old n) (those has_name (name_of (memory mem.now) x ∷ []))) (n + 1) table.old table.new result }
{
    match names::name::next(mem, x) {
        None => n,
        Some((_, _)) => add(mem, table, n, x),
    }
}

// The created nets.
fn created(mem: &Memory, t: Few<Below>, table: &mut [u32]) -> usize
    requires { Creates mem.now.files.now mem.now.area.now t table.old }
    ensures { Names (memory mem.now) (map (below_of (memory mem.now)) (take t.n t.all)) 32 table.old table.new result }
{
    for i in 0..t.n {
        put_row(table, i, name_of(mem, t.all[i]));
    }
    t.n
}

// The net of a port behind the first k, where it is new.
fn add_port<'a>(
    mem: &Memory<'a>,
    nums: &[u32],
    rows: usize,
    p: Port,
    table: &mut [u32],
    k: usize,
) -> usize
    requires { OfPort mem.now.files.now mem.now.area.now nums.now rows p table.old k }
    ensures { Names (memory mem.now) (add_new (table_names (memory mem.now) table.old k) (port_net (memory mem.now) (flat_map (connections_of (memory mem.now)) (rows_in nums.now rows)) p)) (k + 1) table.old table.new result }
{
    let x = net_of(mem, nums, rows, name_of(mem, p.name));
    add(mem, table, k, x)
}

// The nets of ports behind the first n.
// The table is being filled: n nets are there so far.
fn of_ports<'a>(
    mem: &Memory<'a>,
    nums: &[u32],
    rows: usize,
    t: Few<Port>,
    table: &mut [u32],
    n: usize,
) -> usize
    requires { OfPorts mem.now.files.now mem.now.area.now nums.now rows t table.old n }
    ensures { Names (memory mem.now) (add_all (table_names (memory mem.now) table.old n) (ports_nets (memory mem.now) (rows_in nums.now rows) t)) (n + 32) table.old table.new result }
{
    let mut k = n;
    for i in 0..t.n {
        k = add_port(mem, nums, rows, t.all[i], table, k);
    }
    k
}

// The net that a port of a switch names, where it is new and not empty.
fn add_supply<'a>(mem: &Memory<'a>, scope: Span, v: Span, table: &mut [u32], k: usize) -> usize
    requires { OfSupply mem.now.files.now mem.now.area.now scope v table.old k }
    ensures { Names (memory mem.now) (add_all (table_names (memory mem.now) table.old k) (those has_name (nth_below (bytes (memory mem.now) scope) 1 (list (bytes (memory mem.now) v)) ∷ []))) (k + 1) table.old table.new result }
{
    let x = nth_below(mem, scope, v, 1);
    add_named(mem, table, k, x)
}

// Both nets of a switch behind the first k, where they are new and not empty.
fn add_switch<'a>(mem: &Memory<'a>, w: Switch, table: &mut [u32], k: usize) -> usize
    requires { OfSwitch mem.now.files.now mem.now.area.now w table.old k }
    ensures { Names (memory mem.now) (add_all (table_names (memory mem.now) table.old k) (those has_name (both_nets (memory mem.now) w))) (k + 2) table.old table.new result }
{
    let s = Span::from(w.scope);
    let a = add_supply(mem, s, Span::from(w.input), table, k);
    add_supply(mem, s, Span::from(w.output), table, a)
}

// The nets of switches behind the first n.
// The table is being filled: n nets are there so far.
fn of_switches<'a>(mem: &Memory<'a>, t: Few<Switch>, table: &mut [u32], n: usize) -> usize
    requires { OfSwitches mem.now.files.now mem.now.area.now t table.old n }
    ensures { Names (memory mem.now) (add_all (table_names (memory mem.now) table.old n) (switches_nets (memory mem.now) t)) (n + 64) table.old table.new result }
{
    let mut k = n;
    for i in 0..t.n {
        k = add_switch(mem, t.all[i], table, k);
    }
    k
}

// Puts the supply nets of the stored records into a table, and returns how many they are.
pub fn supply_nets<'a>(mem: &Memory<'a>, nums: &[u32], s: State, table: &mut [u32]) -> usize
    requires { Orders mem.now.files.now mem.now.area.now nums.now s × (640 ≤ length table.old) }
    ensures { Names (memory mem.now) (supply_nets (model_of (memory mem.now) (store_of nums.now s) s [])) 128 table.old table.new result }
{
    let fill = s.fill;
    let nets = s.nets;
    let ports = s.ports;
    let switches = s.switches;
    let a = created(mem, nets, table);
    let b = of_ports(mem, nums, fill.rows, ports, table, a);
    of_switches(mem, switches, table, b)
}
