// Templates in the Rust's own syntax, filled with texts in pieces.
#![tactic(auto)]

pub mod arg;
pub mod fill;
pub mod path;
pub mod source;
