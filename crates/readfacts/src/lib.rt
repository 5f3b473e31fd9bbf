// No code: what holds of every reading that ends is stated and proved in specs/.
#![tactic(auto)]
