// The arguments of a command as questions to its list of words. Nothing is stored.
#![tactic(auto)]

pub mod argument;
pub mod role;
pub mod state;
