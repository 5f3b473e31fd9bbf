// The tables, each its number of records and then these.
ghost use Rattle.std.specs.Prelude.{◌≡◌, ◌≤◌};
ghost use Rattle.out.specs.Text.{Writes};
ghost use Rattle.dump.specs.Tables.{table_text, head_text, state_text, Few as Tables·Few};

use super::field::{maybe, number, stored};
use super::record::Dumped;
use out::emit::Text;
use store::state::{Few, State};

// A table, whatever its records are.
fn table<T: Dumped>(to: &mut Text, t: &Few<T>)
    requires { t.now.n ≤ 32 }
    ensures { Writes to.old (table_text T.text t.now.n t.now.all) to.new }
{
    number(to, t.n as u64);
    let all = &t.all[..t.n];
    for x in all {
        x.dump(to);
    }
}

// The design top and the scope, and how many rows the store has.
fn head(to: &mut Text, s: State)
    ensures { Writes to.old (head_text s) to.new }
{
    maybe(to, s.head.top);
    stored(to, s.head.scope);
    number(to, s.fill.rows as u64)
}

// All of it.
pub fn state(to: &mut Text, s: State)
    requires { Tables·Few s }
    ensures { Writes to.old (state_text s) to.new }
{
    head(to, s);
    table(to, &s.domains);
    table(to, &s.nets);
    table(to, &s.ports);
    table(to, &s.switches);
    table(to, &s.isolations);
    table(to, &s.retentions);
    table(to, &s.shifters);
    table(to, &s.portstates);
    table(to, &s.tables)
}
