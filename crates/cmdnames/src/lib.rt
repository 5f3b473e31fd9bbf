// The command that a word names.
#![tactic(auto)]

ghost use Rattle.std.specs.Prelude.{◌≡◌, ◌≤◌, ◌++◌};
ghost use Rattle.spans.specs.Span.{bytes};
ghost use Rattle.model.specs.Names.{command_named};
ghost use Rattle.model.specs.Numbers.{named_by};
ghost use Rattle.cmdnames.specs.Table.{Numbered, number_of};
ghost use Rattle.spans.specs.Memory.{memory};

use spans::span::{Memory, Span, is};

// What a word names: a command of its own, one of the eleven that are parsed and not simulated, or none.
#[derive(Clone, Copy)]
pub enum Command {
    Set,
    Puts,
    LoadUpf,
    SetDesignTop,
    SetScope,
    CreatePowerDomain,
    CreateSupplyNet,
    CreateSupplyPort,
    ConnectSupplyNet,
    SetDomainSupplyNet,
    CreatePowerSwitch,
    SetIsolation,
    SetIsolationControl,
    SetRetention,
    SetRetentionControl,
    SetLevelShifter,
    AddPortState,
    CreatePst,
    AddPstState,
    NotSimulated,
    Unknown,
}

const NAMES: [&[u8]; 30] = [
    b"set",
    b"puts",
    b"load_upf",
    b"set_design_top",
    b"set_scope",
    b"create_power_domain",
    b"create_supply_net",
    b"create_supply_port",
    b"connect_supply_net",
    b"set_domain_supply_net",
    b"create_supply_set",
    b"associate_supply_set",
    b"add_power_state",
    b"set_port_attributes",
    b"set_design_attributes",
    b"upf_version",
    b"create_logic_net",
    b"create_logic_port",
    b"connect_logic_net",
    b"set_partial_on_translation",
    b"set_simstate_behavior",
    b"create_power_switch",
    b"set_isolation",
    b"set_isolation_control",
    b"set_retention",
    b"set_retention_control",
    b"set_level_shifter",
    b"add_port_state",
    b"create_pst",
    b"add_pst_state",
];

// The place of the name that a word is in the table, from 0; 30 for no name of it.
fn number<'a>(mem: &Memory<'a>, w: Span) -> usize
    ensures { Numbered (bytes (memory mem.now) w) result }
{
    NAMES
        .iter()
        .position(|name| is(mem, w, name))
        .unwrap_or(NAMES.len())
}

// The command that has its name at this place.
fn command_at(k: usize) -> Command
    ensures { named_by (number_of result) ≡ named_by k }
{
    match k {
        0 => Command::Set,
        1 => Command::Puts,
        2 => Command::LoadUpf,
        3 => Command::SetDesignTop,
        4 => Command::SetScope,
        5 => Command::CreatePowerDomain,
        6 => Command::CreateSupplyNet,
        7 => Command::CreateSupplyPort,
        8 => Command::ConnectSupplyNet,
        9 => Command::SetDomainSupplyNet,
        21 => Command::CreatePowerSwitch,
        22 => Command::SetIsolation,
        23 => Command::SetIsolationControl,
        24 => Command::SetRetention,
        25 => Command::SetRetentionControl,
        26 => Command::SetLevelShifter,
        27 => Command::AddPortState,
        28 => Command::CreatePst,
        29 => Command::AddPstState,
        _ => {
            if k < 30 {
                Command::NotSimulated
            } else {
                Command::Unknown
            }
        }
    }
}

// The command that a word names.
pub fn named_command<'a>(mem: &Memory<'a>, w: Span) -> Command
    ensures { command_named (bytes (memory mem.now) w) ≡ named_by (number_of result) }
{
    command_at(number(mem, w))
}
