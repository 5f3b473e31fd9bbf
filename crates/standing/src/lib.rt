// What a reading that ends leaves is what generation asks, and stands for its setting: laws, no code.
#![tactic(auto)]
