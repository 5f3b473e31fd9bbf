// The files of a job, read.
#![tactic(auto)]
