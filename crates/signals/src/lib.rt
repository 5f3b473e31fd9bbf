// The signals that a domain of an accepted job loses, and the starred cases of document 01. Theorems only.
#![tactic(auto)]
