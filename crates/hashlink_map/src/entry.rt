//! Entries of a map: the place of a key that was looked up, occupied or vacant. An entry holds the given key,
//! which is the key passed to `entry`. A clause sees an entry as the map's state, the index of its node if it
//! has one, and the given key.
use hashlink_core::DefaultHashBuilder;
use std::hash::{BuildHasher, Hash};

mod methods;
mod occupied;
mod vacant;

pub use occupied::OccupiedEntry;
pub use vacant::VacantEntry;

/// The place of a key in a map, with the given key.
#[derive(Drop)]
pub enum Entry<'a, K: Eq + Hash, V, S: BuildHasher = DefaultHashBuilder> {
    /// The key is present.
    Occupied(OccupiedEntry<'a, K, V, S>),
    /// The key is absent.
    Vacant(VacantEntry<'a, K, V, S>),
}
