// The records and the commands.
#![tactic(auto)]
