// What a block shows: laws alone, no code.

#![tactic(auto)]
