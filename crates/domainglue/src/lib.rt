// The glue of a domain with both supplies: its wire and its blocks. `text` and `ends` have the n listed paths of the domain's walk.
#![tactic(auto)]

ghost use Rattle.std.specs.Prelude.{◌≡◌, ◌++◌, ◌≤◌, length, take};
ghost use Rattle.out.specs.Text.{Writes};
ghost use Rattle.out.specs.Items.{each};
ghost use Rattle.names.specs.Name.{name_of};
ghost use Rattle.scope.specs.Parts.{parts};
ghost use Rattle.listing.specs.Listing.{paths_of};
ghost use Rattle.pathlines.specs.Lines.{below};
ghost use Rattle.store.specs.Strings.{string};
ghost use Rattle.alike.specs.Strategies.{strategy_at};
ghost use Rattle.checks.specs.Sorted.{Known, check_text, own_in};
ghost use Rattle.domainglue.specs.Glue.{glue_text, OfGlue};
ghost use Rattle.spans.specs.Memory.{memory};
ghost use Rattle.scope.specs.Path.{path_of};

use blocks::{put_down, put_initial, put_up, put_wire};
use checks::put_checks;
use clamps::stored;
use format::source::Source;
use listing::PathList;
use names::name::Name;
use out::emit::Text;
use store::state::{Few, Isolation};
use store::stored::Stored;
use text::part::Rows;

// Writes the glue with the checks of the first m strategies in `found`.
fn put_glue(
    to: &mut Text,
    src: &Source,
    t: Few<Isolation>,
    found: &[u32],
    m: usize,
    listed: &PathList,
    domain: Name,
    power: Name,
    ground_net: Name,
)
    requires { Known found.now m × (listed.now.n ≤ length listed.now.ends.now) }
    ensures { Writes to.old (glue_text (name_of (memory src.now.mem) domain) (name_of (memory src.now.mem) power) (name_of (memory src.now.mem) ground_net) (each (check_text (path_of src.now.scope) (strategy_at (memory src.now.mem) t) (name_of (memory src.now.mem) domain)) (take m found.now)) (below (path_of src.now.scope) (paths_of listed.now.text.now listed.now.ends.now listed.now.n))) to.new }
{
    put_wire(to, &src.mem, domain, power, ground_net);
    put_up(to, &src.mem, &src.scope, listed, domain);
    put_checks(to, src, t, found, m, domain);
    put_down(to, &src.mem, &src.scope, listed, domain);
    put_initial(to, &src.mem, &src.scope, listed, domain)
}

// Writes the glue with the checks from the rows of isolated ports, which go through `found`.
fn powered_by<'a>(
    to: &mut Text,
    src: &Source<'a>,
    t: Few<Isolation>,
    ports: &Rows,
    listed: &PathList,
    domain: Stored,
    power: Name,
    ground_net: Name,
    found: &mut [u32],
)
    requires { (OfGlue (memory src.now.mem) t ports.now.rows.now ports.now.n × (listed.now.n ≤ length listed.now.ends.now)) × (256 ≤ length found.old) }
    ensures { Writes to.old (glue_text (string (memory src.now.mem) domain) (name_of (memory src.now.mem) power) (name_of (memory src.now.mem) ground_net) (each (check_text (path_of src.now.scope) (strategy_at (memory src.now.mem) t) (string (memory src.now.mem) domain)) (own_in (memory src.now.mem) t domain ports.now.rows.now ports.now.n)) (below (path_of src.now.scope) (paths_of listed.now.text.now listed.now.ends.now listed.now.n))) to.new }
{
    let m = checks::checks(&src.mem, t, ports, domain, found);
    put_glue(
        to,
        src,
        t,
        found,
        m,
        listed,
        stored(domain),
        power,
        ground_net,
    )
}

// Writes the glue of a domain with both supplies.
pub fn powered_glue<'a>(
    to: &mut Text,
    src: &Source<'a>,
    t: Few<Isolation>,
    ports: &Rows,
    listed: &PathList,
    domain: Stored,
    power: Name,
    ground_net: Name,
)
    requires { OfGlue (memory src.now.mem) t ports.now.rows.now ports.now.n × (listed.now.n ≤ length listed.now.ends.now) }
    ensures { Writes to.old (glue_text (string (memory src.now.mem) domain) (name_of (memory src.now.mem) power) (name_of (memory src.now.mem) ground_net) (each (check_text (path_of src.now.scope) (strategy_at (memory src.now.mem) t) (string (memory src.now.mem) domain)) (own_in (memory src.now.mem) t domain ports.now.rows.now ports.now.n)) (below (path_of src.now.scope) (paths_of listed.now.text.now listed.now.ends.now listed.now.n))) to.new }
{
    let mut found: [u32; 256] = [0; 256];
    powered_by(
        to, src, t, ports, listed, domain, power, ground_net, &mut found,
    )
}
