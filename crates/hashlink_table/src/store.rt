//! The slots with their nodes, and the code that moves nodes. `Table` and its searches are outside of this
//! module. They can read a slot's node or hash only by a call that takes a step.

pub mod bucket;
pub mod cell;
pub mod group;
pub mod growth;
pub mod head;
pub mod insertion;
pub mod lanes;
pub mod mark;
pub mod removal;
pub mod slots;
