// Substitution: a written word with its variables replaced, into the area.
#![tactic(auto)]

pub mod piece;
pub mod put;
pub mod variable;
pub mod written;
