// Strings that are never copied out: a scope, a slash, and a word or an entry of a list, read byte by byte. Every function is total.
#![tactic(auto)]

pub mod compare;
pub mod name;
pub mod part;
pub mod put;
