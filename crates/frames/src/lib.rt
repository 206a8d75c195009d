// How a block is laid out: the kind table, the forms, the frame that the trailer gives, and the places that references name.
#![tactic(auto)]

pub mod kind; // the kind table
pub mod form; // the forms, and the sizes of records
pub mod frame; // the trailer, the frame, places
pub mod block; // a block that is lent for reading, with its frame
