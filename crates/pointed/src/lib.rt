// On a sound block the point that the code finds is the mathematics' point: mathematics, no code.

#![tactic(auto)]
