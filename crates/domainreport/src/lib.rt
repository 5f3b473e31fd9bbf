// The report line of a stored domain: m elements in a table, n paths; its own retained entries go through a table.
#![tactic(auto)]

ghost use Rattle.std.specs.Prelude.{◌≡◌, ◌++◌, map, ◌≤◌, length};
ghost use Rattle.out.specs.Text.{Writes};
ghost use Rattle.names.specs.Name.{name_of};
ghost use Rattle.nametable.specs.Table.{table_names};
ghost use Rattle.design.specs.Paths.{retained_path};
ghost use Rattle.scope.specs.Parts.{parts};
ghost use Rattle.store.specs.Strings.{string, below_of};
ghost use Rattle.domainlists.specs.Lists.{own_entries};
ghost use Rattle.domainline.specs.Lines.{powered_text, unpowered_text};
ghost use Rattle.domainreport.specs.Reports.{OfReport};
ghost use Rattle.spans.specs.Memory.{memory};
ghost use Rattle.scope.specs.Path.{path_of};
ghost use Rattle.nametable.specs.Names.{names_in};

use clamps::stored;
use domainlists::retained_of;
use names::name::{Form, Name, scoped};
use out::emit::Text;
use scope::ScopePath;
use spans::span::{Memory, Span};
use store::state::{Few, Retention};
use store::stored::{Below, Stored};
use text::part::Rows;

// A name below its scope.
pub fn below_name(mem: &Memory, b: Below) -> Name
    ensures { name_of (memory mem.now) result ≡ below_of (memory mem.now) b }
{
    let scope = b.scope;
    let word = b.word;
    scoped(mem, Span::from(scope), Span::from(word), Form::Word)
}

// Writes the line of a domain with both supplies, by names.
fn powered_by<'a>(
    to: &mut Text,
    mem: &Memory<'a>,
    scope: &ScopePath,
    t: Few<Retention>,
    domain: Stored,
    power: Name,
    ground_net: Name,
    elements: &Rows,
    n: usize,
    own: &mut [u32],
)
    requires { (OfReport mem.now.files.now mem.now.area.now t × (elements.now.n ≤ 65536)) × (5120 ≤ length own.old) }
    ensures { Writes to.old (powered_text (string (memory mem.now) domain) (names_in (memory mem.now) elements.now) (name_of (memory mem.now) power) (name_of (memory mem.now) ground_net) n (map (retained_path (path_of scope.now)) (own_entries (memory mem.now) t domain))) to.new }
{
    let k = retained_of(mem, t, domain, own);
    domainline::powered_line(
        to,
        mem,
        scope,
        stored(domain),
        elements,
        power,
        ground_net,
        n,
        &Rows { rows: own, n: k },
    )
}

// Writes the line of a domain with both supplies.
pub fn powered_line<'a>(
    to: &mut Text,
    mem: &Memory<'a>,
    scope: &ScopePath,
    t: Few<Retention>,
    domain: Stored,
    power: Name,
    ground_net: Name,
    elements: &Rows,
    n: usize,
)
    requires { OfReport mem.now.files.now mem.now.area.now t × (elements.now.n ≤ 65536) }
    ensures { Writes to.old (powered_text (string (memory mem.now) domain) (names_in (memory mem.now) elements.now) (name_of (memory mem.now) power) (name_of (memory mem.now) ground_net) n (map (retained_path (path_of scope.now)) (own_entries (memory mem.now) t domain))) to.new }
{
    if t.n == 0 {
        return domainline::powered_line(
            to,
            mem,
            scope,
            stored(domain),
            elements,
            power,
            ground_net,
            n,
            &Rows {
                rows: elements.rows,
                n: 0,
            },
        );
    }
    let mut own: [u32; 5120] = [0; 5120];
    powered_by(
        to, mem, scope, t, domain, power, ground_net, elements, n, &mut own,
    )
}

// Writes the line of a domain without.
pub fn unpowered_line(to: &mut Text, mem: &Memory, domain: Stored)
    ensures { Writes to.old (unpowered_text (string (memory mem.now) domain)) to.new }
{
    domainline::unpowered_line(to, mem, stored(domain))
}
