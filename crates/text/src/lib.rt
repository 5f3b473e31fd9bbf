// Bytes and byte strings: classes of bytes, comparing, parts, scanning, decimal numbers.
// Every function is total: past an end it answers 0 or nothing.
#![tactic(auto)]

pub mod class;
pub mod compare;
pub mod number;
pub mod part;
pub mod scan;
