// The elements of a domain and the entries of retentions, as names of a table.
#![tactic(auto)]

ghost use Rattle.std.specs.Prelude.{◌≡◌, false, ◌++◌, ◌+◌, ◌*◌, ◌≤◌, length};
ghost use Rattle.text.specs.Compare.{same};
ghost use Rattle.spans.specs.Span.{◌⋯◌};
ghost use Rattle.names.specs.Name.{named};
ghost use Rattle.names.specs.declared.name.Form.TheVariants.{Word};
ghost use Rattle.nametable.specs.Table.{row_put};
ghost use Rattle.listnames.specs.Lists.{Rooms, Listed};
ghost use Rattle.store.specs.Strings.{span_of, string};
ghost use Rattle.store.specs.View.{list_below, domain_of};
ghost use Rattle.domainlists.specs.Lists.{all_entries, own_entries, OfDomain, OfRetentions, Names};
ghost use Rattle.spans.specs.Memory.{memory};

use listnames::below;
use names::name::{Form, alone};
use nametable::put_row;
use spans::span::{Memory, Span, same_spans};
use store::state::{Domain, Few, Retention};
use store::stored::Stored;

// Puts the entries of a stored value, each below a stored scope, behind the first n names of a table.
// The table is being filled: n names are there so far.
pub fn put_below<'a>(
    mem: &Memory<'a>,
    scope: Stored,
    v: Stored,
    table: &mut [u32],
    n: usize,
) -> usize
    requires { Rooms mem.now.files.now mem.now.area.now (span_of scope) (span_of v) table.old n }
    ensures { Listed (memory mem.now) table.old n (list_below (memory mem.now) scope v) table.new result }
{
    below(mem, Span::from(scope), Span::from(v), table, n)
}

// Puts a stored string into row n of a table.
// The table is being filled: n names are there so far.
fn put_string(table: &mut [u32], n: usize, s: Stored)
    requires { (n ≤ 65536) × (5 * n + 5 ≤ length table.old) }
    ensures { table.new ≡ row_put table.old n (named (0 ⋯ 0) false (span_of s) Word) }
{
    put_row(table, n, alone(Span::from(s), Form::Word));
}

// Puts the elements of a domain into a table, and returns how many they are.
pub fn domain_elements<'a>(mem: &Memory<'a>, d: Domain, table: &mut [u32]) -> usize
    requires { OfDomain mem.now.files.now mem.now.area.now d table.old }
    ensures { Names (memory mem.now) (domain_of (memory mem.now) d).elements table.old table.new result }
{
    let scope = d.scope;
    let elements = d.elements;
    let n = put_below(mem, scope, elements, table, 0);
    if d.whole {
        put_string(table, n, scope);
        return n + 1;
    }
    n
}

// Puts the entries of all retentions into a table, and returns how many they are.
pub fn retained<'a>(mem: &Memory<'a>, t: Few<Retention>, table: &mut [u32]) -> usize
    requires { OfRetentions mem.now.files.now mem.now.area.now t table.old }
    ensures { Names (memory mem.now) (all_entries (memory mem.now) t) table.old table.new result }
{
    let m = t.n;
    let mut n = 0;
    for i in 0..m {
        let x = t.all[i];
        let base = x.scope;
        let entries = x.elements;
        n = put_below(mem, base, entries, table, n);
    }
    n
}

// Puts the entries of the retentions of a domain into a table, and returns how many they are.
pub fn retained_of<'a>(
    mem: &Memory<'a>,
    t: Few<Retention>,
    domain: Stored,
    table: &mut [u32],
) -> usize
    requires { OfRetentions mem.now.files.now mem.now.area.now t table.old }
    ensures { Names (memory mem.now) (own_entries (memory mem.now) t domain) table.old table.new result }
{
    let m = t.n;
    let mut n = 0;
    for i in 0..m {
        let x = t.all[i];
        let named = x.domain;
        if !same_spans(mem, Span::from(named), Span::from(domain)) {
            continue;
        }
        let scope = x.scope;
        let elements = x.elements;
        n = put_below(mem, scope, elements, table, n);
    }
    n
}
