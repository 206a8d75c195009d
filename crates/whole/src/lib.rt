// The whole check: whether a block is sound. It works in the lent slices, with a byte of scratch for each record.
#![tactic(auto)]

pub mod marks; // a byte of scratch for each record
pub mod witness; // the tags of two leaves, and a prefix and a tag, beside each other
pub mod well_formed; // a record and its children by turns
pub mod sweep; // every record of the pools in turn
pub mod check; // the call
