// Instances of the theorems: theorems alone, no code.

#![tactic(auto)]
