//! `LruCache`: a map that holds up to a given number of entries, and evicts the least recently used one to
//! make room for a new one.
#![tactic(auto)]

mod cache;
mod debug;
mod drain;
mod emptied;
pub mod laws;

pub use cache::LruCache;
pub use drain::Drain;
pub use hashlink_map::{
    DefaultHashBuilder, DefaultHasher, Entry, Equivalent, ExtendError, IntoIter, Iter, IterMut,
    Keys, OccupiedEntry, RawEntryBuilder, RawEntryBuilderMut, RawEntryMut, RawOccupiedEntryMut,
    RawVacantEntryMut, TryInsertError, VacantEntry, Values,
};
