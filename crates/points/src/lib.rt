// The point of a tag: where it stands in the tree, or where it would stand. It is found by reading alone, and insert and delete begin with it.
#![tactic(auto)]

pub mod insert_point; // the way of a tag down the tree, to its point
pub mod places; // records by their references
