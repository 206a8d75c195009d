// Records, read: what a record must be, and its row of children. A record is a part of the words; its head is laid out by the form, its body by the kind.
#![tactic(auto)]

pub mod header; // an inner record's head
pub mod inner_node_sorted; // bodies of kinds 1 and 2
pub mod inner_node_indirect; // bodies of kind 3
pub mod inner_node_direct; // bodies of kind 4
pub mod representation; // inner records of any kind
pub mod leaf_node; // leaves
