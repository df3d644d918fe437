//! Raw entries: places in a map, without a given key. The caller has to meet the conditions of a method,
//! which does not test them. A clause sees a raw entry as the map's state and the index of its node, if it
//! has one.
use hashlink_core::DefaultHashBuilder;
use std::hash::{BuildHasher, Hash};

mod builders;
mod methods;
mod occupied;
mod vacant;

pub use builders::{RawEntryBuilder, RawEntryBuilderMut};
pub use occupied::RawOccupiedEntryMut;
pub use vacant::RawVacantEntryMut;

/// A place in a map, found by a lookup.
#[derive(Drop)]
pub enum RawEntryMut<'a, K: Eq + Hash, V, S: BuildHasher = DefaultHashBuilder> {
    /// The key is present.
    Occupied(RawOccupiedEntryMut<'a, K, V, S>),
    /// The key is absent.
    Vacant(RawVacantEntryMut<'a, K, V, S>),
}
