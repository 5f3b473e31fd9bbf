// The laws of the file reader's cycle.
#![tactic(auto)]
