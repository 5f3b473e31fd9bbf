// The supply nets in the Rust's order, and what glue and package have for each.
#![tactic(auto)]

pub mod nets;
pub mod write;
