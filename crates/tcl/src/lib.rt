// The Tcl-subset reader: joining of lines, and the words of a joined text as parts of it.
#![tactic(auto)]

pub mod join;
pub mod word;
