// What the commands carried out have left, as a state by value over stored strings; what can grow long stands as rows of numbers in lent memory.
#![tactic(auto)]

pub mod budget;
pub mod row;
pub mod start;
pub mod state;
pub mod stored;
pub mod word;
