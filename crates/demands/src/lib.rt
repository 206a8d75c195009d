// The demands on the directory: theorems alone, no code.

#![tactic(auto)]
