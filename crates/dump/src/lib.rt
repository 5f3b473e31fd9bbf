// The state as numbers in decimal, for a caller in C or Rust.
#![tactic(auto)]

pub mod field;
pub mod record;
pub mod table;
