// With which capacities no insert lacks an inner record: theorems alone, no code.

#![tactic(auto)]
