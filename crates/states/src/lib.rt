// What each write of crate `writes` does to the view of a block: mathematics, no code.

#![tactic(auto)]
