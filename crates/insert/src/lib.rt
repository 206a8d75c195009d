// Insert: the whole check, then a plan made by reading alone, then the plan applied, which refuses nothing.
#![tactic(auto)]

pub mod answer; // what the call answers
pub mod plan; // where the new leaf goes, or why it cannot
pub mod apply; // the plan applied
pub mod insert; // the call
