// The reading calls on sound blocks: theorems alone, no code.

#![tactic(auto)]
