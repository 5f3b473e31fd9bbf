// Power switches: glue and report lines.
#![tactic(auto)]

pub mod on;
pub mod write;
