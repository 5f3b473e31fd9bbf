// Writing text piece by piece into a lent buffer. What does not fit is dropped, and the place is then one past the end.
// Every writer answers the place behind what it wrote.
#![tactic(auto)]

pub mod bytewise;
pub mod clear;
pub mod emit;
pub mod items;
pub mod number;
pub mod template;
