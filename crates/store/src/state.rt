// The state: the scope, the design top, the counts of the reading limits, how far the lent memory is used, and the tables of records, each an array
// with the number of its records.
ghost use Rattle.std.specs.Prelude.{◌≡◌};
ghost use Rattle.store.specs.Added.{supplied_by};

use super::stored::{Below, Stored};

// A power domain. `elements` is the unread value; `whole`: the scope itself is an element too.
#[derive(Clone, Copy, Default)]
pub struct Domain {
    pub name: Stored,
    pub elements: Stored,
    pub whole: bool,
    pub power: Option<Below>,
    pub ground_net: Option<Below>,
    pub scope: Stored,
}

// A supply port; without a direction it is `in`.
#[derive(Clone, Copy, Default)]
pub struct Port {
    pub name: Below,
    pub direction: Option<Stored>,
}

// A switch. The values of its ports are unread; its states are words of the store: `ons` of them from `first` on, then `offs`.
#[derive(Clone, Copy, Default)]
pub struct Switch {
    pub name: Stored,
    pub domain: Option<Stored>,
    pub scope: Stored,
    pub input: Stored,
    pub output: Stored,
    pub controls: Stored,
    pub first: u32,
    pub ons: u32,
    pub offs: u32,
}

// An isolation strategy; without a clamp value it is `0`, without a sense `high`.
#[derive(Clone, Copy, Default)]
pub struct Isolation {
    pub name: Stored,
    pub domain: Stored,
    pub applies: Option<Stored>,
    pub scope: Stored,
    pub elements: Stored,
    pub clamp: Option<Stored>,
    pub signal: Option<Stored>,
    pub sense: Option<Stored>,
    pub power: Option<Stored>,
    pub ground_net: Option<Stored>,
}

#[derive(Clone, Copy, Default)]
pub struct Retention {
    pub name: Stored,
    pub domain: Stored,
    pub scope: Stored,
    pub elements: Stored,
}

#[derive(Clone, Copy, Default)]
pub struct Shifter {
    pub name: Stored,
    pub domain: Stored,
}

// A port state: `count` words of the store from `first` on.
#[derive(Clone, Copy, Default)]
pub struct PortState {
    pub name: Below,
    pub first: u32,
    pub count: u32,
}

// A table; its states are rows of the store.
#[derive(Clone, Copy, Default)]
pub struct Table {
    pub name: Stored,
    pub scope: Stored,
    pub supplies: Stored,
}

#[derive(Clone, Copy, Default)]
pub struct Head {
    pub scope: Stored,
    pub top: Option<Stored>,
}

// What counts towards the reading limits.
#[derive(Clone, Copy, Default)]
pub struct Count {
    pub commands: usize,
    pub substituted: usize,
    pub scopes: usize,
    pub entries: usize,
}

// Where the area ends, the place in the log, how many rows and words there are in the store, and how many of the rows are warnings.
#[derive(Clone, Copy, Default)]
pub struct Fill {
    pub end: usize,
    pub log: usize,
    pub rows: usize,
    pub words: usize,
    pub warnings: usize,
}

// At most 32 records, in the order in which they were made.
// No heap: the records stand in an array with their count.
#[derive(Clone, Copy, Default)]
pub struct Few<T> {
    pub n: usize,
    pub all: [T; 32],
}

// The variables: four numbers each.
// No heap: the records stand in an array with their count.
#[derive(Clone, Copy, Default)]
pub struct Variables {
    pub n: usize,
    pub all: [u32; 256],
}

#[derive(Clone, Copy, Default)]
pub struct State {
    pub head: Head,
    pub count: Count,
    pub fill: Fill,
    pub domains: Few<Domain>,
    pub nets: Few<Below>,
    pub ports: Few<Port>,
    pub switches: Few<Switch>,
    pub isolations: Few<Isolation>,
    pub retentions: Few<Retention>,
    pub shifters: Few<Shifter>,
    pub portstates: Few<PortState>,
    pub tables: Few<Table>,
    pub variables: Variables,
}

// The domain with these supplies.
pub fn supplied(d: Domain, power: Option<Below>, ground_net: Option<Below>) -> Domain
    ensures { result ≡ supplied_by d power ground_net }
{
    Domain {
        power: power,
        ground_net: ground_net,
        ..d
    }
}
