// The records, field by field.
ghost use Rattle.std.specs.Prelude.{◌≡◌};
ghost use Rattle.text.specs.Ascii.{Bytes};
ghost use Rattle.out.specs.Text.{Writes};
ghost use Rattle.dump.specs.Fields.{below_text};
ghost use Rattle.dump.specs.Records.{domain_text, port_text, switch_text, isolation_text, retention_text, shifter_text, port_state_text, table_text};

use super::field::{below, flag, maybe, maybe_below, number, stored};
use out::emit::Text;
use store::state::{Domain, Isolation, Port, PortState, Retention, Shifter, Switch, Table};
use store::stored::Below;

// A record that is written as a text of its own.
pub trait Dumped {
    ghost text: { Self → Bytes };

    fn dump(&self, to: &mut Text)
        ensures { Writes to.old (text self.now) to.new };
}

pub fn domain(to: &mut Text, x: Domain)
    ensures { Writes to.old (domain_text x) to.new }
{
    stored(to, x.name);
    stored(to, x.elements);
    flag(to, x.whole);
    maybe_below(to, x.power);
    maybe_below(to, x.ground_net);
    stored(to, x.scope)
}

pub fn port(to: &mut Text, x: Port)
    ensures { Writes to.old (port_text x) to.new }
{
    below(to, x.name);
    maybe(to, x.direction)
}

pub fn switch(to: &mut Text, x: Switch)
    ensures { Writes to.old (switch_text x) to.new }
{
    stored(to, x.name);
    maybe(to, x.domain);
    stored(to, x.scope);
    stored(to, x.input);
    stored(to, x.output);
    stored(to, x.controls);
    number(to, x.first as u64);
    number(to, x.ons as u64);
    number(to, x.offs as u64)
}

pub fn isolation(to: &mut Text, x: Isolation)
    ensures { Writes to.old (isolation_text x) to.new }
{
    stored(to, x.name);
    stored(to, x.domain);
    maybe(to, x.applies);
    stored(to, x.scope);
    stored(to, x.elements);
    maybe(to, x.clamp);
    maybe(to, x.signal);
    maybe(to, x.sense);
    maybe(to, x.power);
    maybe(to, x.ground_net)
}

pub fn retention(to: &mut Text, x: Retention)
    ensures { Writes to.old (retention_text x) to.new }
{
    stored(to, x.name);
    stored(to, x.domain);
    stored(to, x.scope);
    stored(to, x.elements)
}

pub fn shifter(to: &mut Text, x: Shifter)
    ensures { Writes to.old (shifter_text x) to.new }
{
    stored(to, x.name);
    stored(to, x.domain)
}

pub fn port_state(to: &mut Text, x: PortState)
    ensures { Writes to.old (port_state_text x) to.new }
{
    below(to, x.name);
    number(to, x.first as u64);
    number(to, x.count as u64)
}

pub fn table(to: &mut Text, x: Table)
    ensures { Writes to.old (table_text x) to.new }
{
    stored(to, x.name);
    stored(to, x.scope);
    stored(to, x.supplies)
}

impl Dumped for Below {
    ghost text = { below_text };

    fn dump(&self, to: &mut Text) {
        below(to, *self)
    }
}

impl Dumped for Domain {
    ghost text = { domain_text };

    fn dump(&self, to: &mut Text) {
        domain(to, *self)
    }
}

impl Dumped for Port {
    ghost text = { port_text };

    fn dump(&self, to: &mut Text) {
        port(to, *self)
    }
}

impl Dumped for Switch {
    ghost text = { switch_text };

    fn dump(&self, to: &mut Text) {
        switch(to, *self)
    }
}

impl Dumped for Isolation {
    ghost text = { isolation_text };

    fn dump(&self, to: &mut Text) {
        isolation(to, *self)
    }
}

impl Dumped for Retention {
    ghost text = { retention_text };

    fn dump(&self, to: &mut Text) {
        retention(to, *self)
    }
}

impl Dumped for Shifter {
    ghost text = { shifter_text };

    fn dump(&self, to: &mut Text) {
        shifter(to, *self)
    }
}

impl Dumped for PortState {
    ghost text = { port_state_text };

    fn dump(&self, to: &mut Text) {
        port_state(to, *self)
    }
}

impl Dumped for Table {
    ghost text = { table_text };

    fn dump(&self, to: &mut Text) {
        table(to, *self)
    }
}
