// The files, command by command.
#![tactic(auto)]

pub mod file;
pub mod whole;
