//! The room and the free nodes of a map. No call here changes an entry.
ghost use Rattle.std.specs.Prelude.{◌≡◌, ◌+◌, ◌^◌, ◌<◌, ◌↔◌, length, Err};
ghost use Rattle.hashlink_model.specs.Steps.{Reserves, Shrinks};
ghost use Rattle.hashlink_core.specs.Keyed.{state_of, entries_of};

use super::LinkedHashMap;
use hashlink_core::TryReserveError;
use std::alloc::AllocError;
use std::hash::{BuildHasher, Hash};

impl<K: Eq + Hash, V, S: BuildHasher> LinkedHashMap<K, V, S> {
    /// Reserves room for `additional` more entries. If there already is room for them, it cannot fail and
    /// changes nothing. Otherwise the table grows, which takes linear time in the new capacity and hashes
    /// nothing.
    ///
    /// It returns `CapacityOverflow` if the map could then have more than 2^62 entries, and `AllocError` if
    /// the allocation fails or the table would need more than 2^31 buckets. After an error nothing has
    /// changed.
    pub fn reserve(&mut self, additional: usize) -> Result<(), TryReserveError>
        ensures reserves { Reserves (state_of self.old) (state_of self.new) additional result }
        ensures overflow { (result ≡ Err TryReserveError.CapacityOverflow) ↔
            (2 ^ 62 < length (entries_of self.old) + additional) }
    {
        self.list.reserve(additional)
    }

    /// Does the same as `reserve`.
    pub fn try_reserve(&mut self, additional: usize) -> Result<(), TryReserveError>
        ensures reserves { Reserves (state_of self.old) (state_of self.new) additional result }
        ensures overflow { (result ≡ Err TryReserveError.CapacityOverflow) ↔
            (2 ^ 62 < length (entries_of self.old) + additional) }
    {
        self.reserve(additional)
    }

    /// Releases the free nodes, and the room that the entries do not need. It takes linear time in the old
    /// capacity, which is at least the number of entries and free nodes.
    ///
    /// For a moment it needs memory for the smaller table. If this allocation fails, it returns `AllocError`
    /// and keeps the room, but has released the free nodes. Without entries it cannot fail, and the capacity
    /// is 0 afterwards.
    pub fn shrink_to_fit(&mut self) -> Result<(), AllocError>
        ensures { Shrinks (state_of self.old) (state_of self.new) result }
    {
        self.list.shrink()
    }
}
