// The bench sheet, computed: mathematics, no code.

#![tactic(auto)]
