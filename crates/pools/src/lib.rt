// The pools, written: free records found, the words of leaves and of their list, the words of the trailer that change, and start.
#![tactic(auto)]

pub mod pools; // free records
pub mod leaf_node; // leaves
pub mod links; // the list of the leaves, and the words of the trailer that change
pub mod start; // a fresh directory
