// The walk: the signals that a domain loses.
#![tactic(auto)]
