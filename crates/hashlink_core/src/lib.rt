//! A keyed list: a ring of nodes whose keys are pairwise unequal, and the default hashers.
#![tactic(auto)]

mod compare;
mod equivalent;
mod extend_error;
mod hash_builder;
mod hasher;
mod into_iter;
mod iter;
mod keyed_list;
mod texts;

pub use compare::{iter_cmp, iter_eq, iter_partial_cmp};
pub use equivalent::Equivalent;
pub use extend_error::ExtendError;
pub use hash_builder::DefaultHashBuilder;
pub use hasher::DefaultHasher;
pub use hashlink_nodes::{Chain, FreeBlock, Node};
pub use hashlink_table::{FoundNode, NO_SLOT, TryReserveError};
pub use into_iter::IntoIter;
pub use iter::{Iter, Keys, Values};
pub use keyed_list::KeyedList;
