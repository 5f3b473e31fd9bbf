// What a command answers that writes no byte of the area.
#![tactic(auto)]

ghost use Rattle.std.specs.Prelude.{◌≡◌};
ghost use Rattle.made.specs.Made.{brief_of};

use store::row::Row;
use store::state::{Domain, Isolation, Port, PortState, Retention, Shifter, State, Switch, Table};
use store::stored::{Below, Stored};

// What a command does to the records: nothing; a reading limit is passed; a warning about a word; a row; a record more, or one anew. A switch and a
// port state come with the end of the words of the store. `Nothing` and `Full` are two answers of many, matched where all are: a result of an option
// around the others is no plainer.
#[derive(Clone, Copy)]
pub enum Deed {
    Nothing,
    Full,
    Warning(u32, Stored),
    Row(Row),
    Variable(Stored, Stored),
    Top(Option<Stored>),
    Domain(Domain),
    Supplied(usize, Domain),
    Net(Below),
    Port(Port),
    Isolation(Isolation),
    Controlled(usize, Isolation),
    Retention(Retention),
    Shifter(Shifter),
    Table(Table),
    Switch(Switch, usize),
    PortState(PortState, usize),
}

// What a command is told of the state: the scope, the design top, where the words of the store end, and how many records a table has.
#[derive(Clone, Copy)]
pub struct Brief {
    pub scope: Stored,
    pub top: Option<Stored>,
    pub words: usize,
    pub domains: usize,
    pub ports: usize,
    pub switches: usize,
    pub isolations: usize,
    pub retentions: usize,
    pub shifters: usize,
    pub portstates: usize,
    pub tables: usize,
    pub variables: usize,
}

// What a command is told.
pub fn brief_of(s: State) -> Brief
    ensures { result ≡ brief_of s }
{
    Brief {
        scope: s.head.scope,
        top: s.head.top,
        words: s.fill.words,
        domains: s.domains.n,
        ports: s.ports.n,
        switches: s.switches.n,
        isolations: s.isolations.n,
        retentions: s.retentions.n,
        shifters: s.shifters.n,
        portstates: s.portstates.n,
        tables: s.tables.n,
        variables: s.variables.n,
    }
}

// The refusal's number, 0 where it is carried out; the state; and a row for the store, of kind 0 where there is none. The definitions alone speak of it:
// no code makes one, and the clauses name its state and its row in either case, so a sum of two forms is no plainer.
#[derive(Clone, Copy)]
pub struct Made {
    pub tag: usize,
    pub state: State,
    pub row: Row,
}
