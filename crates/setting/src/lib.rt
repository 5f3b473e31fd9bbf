// What the values that generation works on stand for: relations and laws, no code.
#![tactic(auto)]
