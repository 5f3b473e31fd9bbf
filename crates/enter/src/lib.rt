// A command, where it writes neither the area nor the log nor words of states.
#![tactic(auto)]

ghost use Rattle.std.specs.Prelude.{◌++◌};
ghost use Rattle.spans.specs.Span.{bytes, pair_at};
ghost use Rattle.args.specs.View.{words_from};
ghost use Rattle.model.specs.Numbers.{named_by};
ghost use Rattle.cmdnames.specs.Table.{number_of};
ghost use Rattle.model.specs.Records.{Model};
ghost use Rattle.made.specs.Made.{Does};
ghost use Rattle.enter.specs.Entered.{done, Entering, Told};
ghost use Rattle.spans.specs.Memory.{memory};

use cmdnames::Command;
use domaincmds::{create_power_domain, set_domain_supply_net};
use isolationcmds::{set_isolation, set_isolation_control};
use made::{Brief, Deed};
use netcmds::create_supply_net;
use plaincmds::{
    not_simulated, set, set_design_top, set_level_shifter, set_retention, unsupported,
};
use portcmds::{connect_supply_net, create_supply_port};
use spans::span::Memory;
use store::state::{Domain, Few, Isolation, Table};
use store::stored::Below;
use tablecmds::{add_pst_state, create_pst};
use text::part::Rows;

// What the command does to the records; its words begin with its name.
pub fn enter<'a>(
    mem: &Memory<'a>,
    command: &Rows,
    b: Brief,
    domains: Few<Domain>,
    nets: Few<Below>,
    isolations: Few<Isolation>,
    tables: Few<Table>,
    c: Command,
) -> Deed
    requires { Entering command.now.rows.now command.now.n (number_of c) domains nets isolations tables }
    ensures { Does mem.now.files.now mem.now.area.now command.now.rows.now command.now.n (Told b domains nets isolations tables) result (λ (m : Model). done (named_by (number_of c)) m (bytes (memory mem.now) (pair_at command.now.rows.now 0)) (words_from (memory mem.now) command.now.rows.now command.now.n 1)) }
{
    match c {
        Command::Set => set(mem, command, b),
        Command::SetDesignTop => set_design_top(mem, command, b),
        Command::CreatePowerDomain => create_power_domain(mem, command, b),
        Command::CreateSupplyNet => create_supply_net(mem, command, b, nets),
        Command::CreateSupplyPort => create_supply_port(mem, command, b),
        Command::ConnectSupplyNet => connect_supply_net(mem, command, b),
        Command::SetDomainSupplyNet => set_domain_supply_net(mem, command, b, domains),
        Command::SetIsolation => set_isolation(mem, command, b, isolations),
        Command::SetIsolationControl => set_isolation_control(mem, command, b, isolations),
        Command::SetRetention => set_retention(mem, command, b),
        Command::SetRetentionControl => Deed::Nothing,
        Command::SetLevelShifter => set_level_shifter(mem, command, b),
        Command::CreatePst => create_pst(mem, command, b),
        Command::AddPstState => add_pst_state(mem, command, b, tables),
        Command::Unknown => unsupported(mem, command.rows),
        Command::NotSimulated => not_simulated(command.rows),
        _ => unreachable!(),
    }
}
