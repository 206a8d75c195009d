// The walk down from the root: search, prefix search, minimum and maximum. Each ends and answers on any memory.
#![tactic(auto)]

pub mod answer; // what the calls answer
pub mod arrive; // arriving at a record: its reference and its own rule, tested first
pub mod seen; // a leaf that was arrived at, and its tag
pub mod lookup; // the walk, search and prefix search
pub mod minmax; // minimum and maximum
