// The first record of a name, of domains and of tables of states.
#![tactic(auto)]

ghost use Rattle.std.specs.Prelude.{◌≤◌, ◌≡◌, ◌++◌, take};
ghost use Rattle.store.specs.First.{first_at};
ghost use Rattle.store.specs.declared.stored.Stored.{Stored};
ghost use Rattle.finddomain.specs.Named.{has_name, domain_name, table_name};
ghost use Rattle.spans.specs.Memory.{memory};

use spans::span::{Memory, Span, same_spans};
use store::state::{Domain, Few, Table};
use store::stored::Stored;

// A record that has a name.
pub trait Named {
    ghost told: { Self → Stored };

    fn name(&self) -> Stored
        ensures { result ≡ told self.now };
}

impl Named for Domain {
    ghost told = { domain_name };

    fn name(&self) -> Stored {
        self.name
    }
}

impl Named for Table {
    ghost told = { table_name };

    fn name(&self) -> Stored {
        self.name
    }
}

// The first record of the name; the number of records where there is none.
pub fn first_named<'a, T: Named>(mem: &Memory<'a>, t: &Few<T>, name: Stored) -> usize
    requires { t.now.n ≤ 32 }
    ensures { result ≡ first_at (has_name T.told (memory mem.now) name) (take t.now.n t.now.all) }
{
    let all = &t.all[..t.n];
    all.iter()
        .position(|x| same_spans(mem, Span::from(x.name()), Span::from(name)))
        .unwrap_or(all.len())
}
