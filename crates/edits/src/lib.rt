// Records, written: children added, replaced and taken out where they stand, and records built anew in this or another kind. Each function changes its own part
// of the words and no other.
#![tactic(auto)]

pub mod header; // an inner record's head
pub mod inner_node_sorted; // bodies of kinds 1 and 2
pub mod inner_node_indirect; // bodies of kind 3
pub mod inner_node_direct; // bodies of kind 4
pub mod representation; // inner records of any kind
