// A file read command by command: the next command's words, split and then substituted.
#![tactic(auto)]

pub mod next;
pub mod resolve;
pub mod split;
