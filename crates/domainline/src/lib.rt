// The report line of a domain.
#![tactic(auto)]

ghost use Rattle.std.specs.Prelude.{◌≡◌, ◌++◌, map, ◌≤◌};
ghost use Rattle.out.specs.Text.{Writes};
ghost use Rattle.out.specs.Items.{joined};
ghost use Rattle.names.specs.Name.{name_of};
ghost use Rattle.nametable.specs.Table.{table_names};
ghost use Rattle.design.specs.Paths.{retained_path};
ghost use Rattle.scope.specs.Parts.{parts};
ghost use Rattle.texts.specs.Domains.{exempt};
ghost use Rattle.domainline.specs.Lines.{signals_text, powered_text, unpowered_text};
ghost use Rattle.spans.specs.Memory.{memory};
ghost use Rattle.scope.specs.Path.{path_of};
ghost use Rattle.nametable.specs.Names.{names_in};

use listnames::put_names;
use names::name::Name;
use names::put::put_dotted;
use nametable::row;
use nametexts::{fill1, fill2};
use out::emit::Text;
use pathlines::put_scope;
use scope::ScopePath;
use spans::span::Memory;
use text::part::Rows;

// Writes a retained entry as a path below the scope.
fn put_retained(to: &mut Text, mem: &Memory, scope: &ScopePath, e: Name)
    ensures { Writes to.old (retained_path (path_of scope.now) (name_of (memory mem.now) e)) to.new }
{
    put_scope(to, scope);
    put_dotted(to, mem, e)
}

// Writes the retained entries of a table as paths, a text between them.
fn put_entries(to: &mut Text, mem: &Memory, scope: &ScopePath, table: &Rows, sep: &[u8])
    requires { table.now.n ≤ 65536 }
    ensures { Writes to.old (joined sep.now (map (retained_path (path_of scope.now)) (names_in (memory mem.now) table.now))) to.new }
{
    for k in 0..table.n {
        to.unless(k, sep);
        put_retained(to, mem, scope, row(table.rows, k));
    }
}

// Writes what is exempt from being lost: the retained entries of a table.
#[tactic(auto, using(crate::proofs::Written::exempts))]
fn put_exempt(to: &mut Text, mem: &Memory, scope: &ScopePath, table: &Rows)
    requires { table.now.n ≤ 65536 }
    ensures { Writes to.old (exempt (map (retained_path (path_of scope.now)) (names_in (memory mem.now) table.now))) to.new }
{
    if table.n == 0 {
        return;
    }
    to.put(b", retention exempt: ");
    put_entries(to, mem, scope, table, b",")
}

// Writes a domain's elements, supplies and the number n of its paths.
fn put_signals(
    to: &mut Text,
    mem: &Memory,
    domain: Name,
    elements: &Rows,
    power: Name,
    ground_net: Name,
    n: usize,
)
    requires { elements.now.n ≤ 65536 }
    ensures { Writes to.old (signals_text (name_of (memory mem.now) domain) (names_in (memory mem.now) elements.now) (name_of (memory mem.now) power) (name_of (memory mem.now) ground_net) n) to.new }
{
    fill1(to, b"power domain {0}: elements [", mem, domain);
    put_names(to, mem, elements, b", ");
    fill2(to, b"], power {0}, ground {1}, ", mem, power, ground_net);
    to.decimal(n as u64);
    to.put(b" corruptible signals")
}

// Writes the line of a domain with both supplies: m elements, n paths, k retained entries of its own.
pub fn powered_line(
    to: &mut Text,
    mem: &Memory,
    scope: &ScopePath,
    domain: Name,
    elements: &Rows,
    power: Name,
    ground_net: Name,
    n: usize,
    own: &Rows,
)
    requires { (elements.now.n ≤ 65536) × (own.now.n ≤ 65536) }
    ensures { Writes to.old (powered_text (name_of (memory mem.now) domain) (names_in (memory mem.now) elements.now) (name_of (memory mem.now) power) (name_of (memory mem.now) ground_net) n (map (retained_path (path_of scope.now)) (names_in (memory mem.now) own.now))) to.new }
{
    put_signals(to, mem, domain, elements, power, ground_net, n);
    put_exempt(to, mem, scope, own);
    to.put(b"\n")
}

// Writes the line of a domain without.
pub fn unpowered_line(to: &mut Text, mem: &Memory, domain: Name)
    ensures { Writes to.old (unpowered_text (name_of (memory mem.now) domain)) to.new }
{
    fill1(
        to,
        b"power domain {0}: no primary supplies (always on)\n",
        mem,
        domain,
    )
}
