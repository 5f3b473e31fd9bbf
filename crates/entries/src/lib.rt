// A value read as a list: its entries one after the other, each a span of the value as it stands, and their bytes. Nothing is copied.
#![tactic(auto)]

pub mod byte;
pub mod item;
pub mod scan;
