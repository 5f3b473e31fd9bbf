// No code: what holds of every accepted job is stated and proved in specs/.
#![tactic(auto)]
