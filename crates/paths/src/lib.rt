// The path of what a walk comes to, in pieces that are nowhere joined: an element, a stored name with `/` as `.`; a tail of bytes, the instance names below it
// with a dot behind each piece; and a name.
#![tactic(auto)]

pub mod entry;
pub mod path;
