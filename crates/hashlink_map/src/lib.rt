//! `LinkedHashMap`: a hash map that keeps its entries in an order which the caller controls.
#![tactic(auto)]

mod as_node;
mod at_node;
mod clone;
mod compare;
mod cursor;
mod debug;
mod drain;
mod emptied;
mod entry;
mod extend;
mod hashing;
mod index;
mod into_iter;
mod iter_from;
mod iter_mut;
mod map;
mod places_left;
mod raw_entry;
mod try_insert_error;
mod values_mut;

pub use as_node::AsNode;
pub use cursor::CursorMut;
pub use drain::{AsChain, Drain, DrainOf, Drainable};
pub use entry::{Entry, OccupiedEntry, VacantEntry};
pub use hashlink_core::{
    Chain, DefaultHashBuilder, DefaultHasher, Equivalent, ExtendError, FreeBlock, IntoIter, Iter,
    Keys, TryReserveError, Values,
};
pub use iter_from::IterFrom;
pub use iter_mut::IterMut;
pub use map::LinkedHashMap;
pub use raw_entry::{
    RawEntryBuilder, RawEntryBuilderMut, RawEntryMut, RawOccupiedEntryMut, RawVacantEntryMut,
};
pub use try_insert_error::TryInsertError;
pub use values_mut::ValuesMut;
