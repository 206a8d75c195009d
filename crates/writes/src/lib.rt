// Records of a block written where they stand. What writes an inner record, or a reference to it, changes the words of one record or of the trailer; what puts a
// leaf into the list or takes it out changes the leaf, its key bytes and the links to it.
#![tactic(auto)]

pub mod representation; // inner records
pub mod leaf_node; // leaves, their key bytes and their list
pub mod above; // the record above, or the root
