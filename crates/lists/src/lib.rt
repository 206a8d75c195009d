// The loops over slices that the crates above need, each once, and each equal to a definition on the slice's list.
#![tactic(auto)]

pub mod scan; // tests of every element, first and last places, counts
pub mod compare; // two runs of bytes beside each other
pub mod edit; // a run copied in and filled up with 0, one element shifted in or out
