//! The ring of nodes, which keeps the entries of a list in order.
#![tactic(auto)]

mod arena;
mod chain;
mod entry;
mod link_writes;
mod node;
mod nodes;
mod pool;

pub use chain::{Chain, FreeBlock};
pub use entry::Entry;
pub use node::Node;
pub use nodes::Nodes;
