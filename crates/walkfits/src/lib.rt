// What the walk's answer says of an accepted job and of its scope. Laws only.
#![tactic(auto)]
