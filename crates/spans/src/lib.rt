// Stored byte strings: spans of one list, the joined files followed by an area, and appending to that area.
#![tactic(auto)]

pub mod area;
pub mod span;
