// Delete: the whole check, then a plan made by reading alone, then the plan applied, which refuses nothing.
#![tactic(auto)]

pub mod answer; // what the call answers
pub mod plan; // what becomes of the leaf and of the record above it
pub mod apply; // the plan applied
pub mod delete; // the call
