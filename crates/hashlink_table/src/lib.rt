//! A hash table of nodes, which finds nodes by their hashes.
//!
//! The table keeps small handles and the hashes that were given with them. It never hashes, and never
//! compares keys: a search asks its caller's closure. Only `reserve` grows the table, so an insert does not
//! allocate.
#![tactic(auto)]

mod error;
mod hashed;
mod search;
mod steps;
mod store;
mod table;

pub use error::TryReserveError;
pub use hashed::Hashed;
pub use search::FoundNode;
pub use steps::Steps;
pub use table::{MAX_ROOM, NO_SLOT, Table};

// A slot takes 8 bytes and a node, and a group 32 bytes.
const _: () = prove!(std::mem::size_of::<store::slots::Rest>() == 8);

const _: () = prove!(std::mem::size_of::<store::group::Group>() == 32);
