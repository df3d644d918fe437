//! The map. A clause sees it as its state: the entries from front to back, and the numbers of free nodes, of
//! room and of stored links.
ghost use Rattle.std.specs.Prelude.{◌≡◌, ◌^◌, ◌<◌, ◌↔◌, length, IfOk, IsOk, IsTrue, Err};
ghost use Rattle.hashlink_model.specs.{Entries.IsEntries, MapState.{empty_map, HasRoom}, Steps.IsMadeWith};
ghost use Rattle.hashlink_core.specs.Keyed.{state_of, entries_of};

mod inserts;
mod memory;
mod moves;
mod reads;
mod removals;
mod retains;
mod walks;

use hashlink_core::{DefaultHashBuilder, KeyedList, TryReserveError};
use std::alloc::Global;
use std::hash::{BuildHasher, Hash};
use std::marker::Model;

/// A hash map whose entries are in one order, from front to back. An insert puts its pair at the back. If the
/// key is present, its entry moves to the back.
#[derive(Drop)]
pub struct LinkedHashMap<K: Eq + Hash, V, S: BuildHasher = DefaultHashBuilder> {
    pub(crate) list: KeyedList<K, V, S>,
}

impl<K: Eq + Hash, V, S: BuildHasher> Model for LinkedHashMap<K, V, S> {
    ghost use Rattle.hashlink_core.specs.Keyed.{Keyed};

    ghost Value = { Keyed K V S };

    ghost view = { λ m. m.list };
}

impl<K: Eq + Hash, V> LinkedHashMap<K, V, DefaultHashBuilder> {
    ghost use Rattle.hashlink_core.specs.Hashing.{default_builder};

    /// Creates an empty map, which hashes with `DefaultHasher`. It does not allocate.
    pub fn new(alloc: Global) -> Self
        ensures { state_of result ≡ empty_map default_builder }
    {
        LinkedHashMap::with_hasher(alloc, DefaultHashBuilder)
    }

    /// Creates an empty map with room for `capacity` entries, which hashes with `DefaultHasher`. It takes
    /// linear time in `capacity`, and does not allocate if that is 0.
    ///
    /// It returns `CapacityOverflow` if `capacity` is above 2^62, and `AllocError` if the allocation fails or
    /// the table would need more than 2^31 buckets.
    pub fn with_capacity(alloc: Global, capacity: usize) -> Result<Self, TryReserveError>
        ensures made { IfOk result (λ map. IsMadeWith capacity default_builder (state_of map)) }
        ensures none { capacity ≡ 0 → IsOk result }
        ensures overflow { (result ≡ Err TryReserveError.CapacityOverflow) ↔ (2 ^ 62 < capacity) }
    {
        LinkedHashMap::with_capacity_and_hasher(alloc, capacity, DefaultHashBuilder)
    }
}

impl<K: Eq + Hash, V, S: BuildHasher> LinkedHashMap<K, V, S> {
    /// Creates an empty map that hashes with `hash_builder`. It does not allocate.
    pub fn with_hasher(alloc: Global, hash_builder: S) -> Self
        ensures { state_of result ≡ empty_map hash_builder }
    {
        LinkedHashMap {
            list: KeyedList::with_hasher(alloc, hash_builder),
        }
    }

    /// Creates an empty map with room for `capacity` entries, which hashes with `hash_builder`. It takes
    /// linear time in `capacity`, and does not allocate if that is 0.
    ///
    /// It returns `CapacityOverflow` if `capacity` is above 2^62, and `AllocError` if the allocation fails or
    /// the table would need more than 2^31 buckets.
    pub fn with_capacity_and_hasher(
        alloc: Global,
        capacity: usize,
        hash_builder: S,
    ) -> Result<Self, TryReserveError>
    where
        S: Drop,
        ensures made { IfOk result (λ map. IsMadeWith capacity hash_builder (state_of map)) }
        ensures none { capacity ≡ 0 → IsOk result }
        ensures overflow { (result ≡ Err TryReserveError.CapacityOverflow) ↔ (2 ^ 62 < capacity) }
    {
        let list = KeyedList::with_room(alloc, capacity, hash_builder)?;
        Ok(LinkedHashMap { list })
    }

    /// Returns the number of entries. It takes constant time.
    pub fn len(&self) -> usize
        ensures len { result ≡ length (entries_of self.now) }
        ensures small { result < 2 ^ 63 }

        // No two keys of a map are equal.
        ensures distinct { IsEntries K.eq (entries_of self.now) }
    {
        self.list.len()
    }

    /// Returns whether the map is empty. It takes constant time.
    pub fn is_empty(&self) -> bool
        ensures { IsTrue result ↔ (length (entries_of self.now) ≡ 0) }
    {
        self.list.len() == 0
    }

    /// Returns the number of entries that the map can hold before its table has to grow. It takes constant
    /// time and does not allocate.
    pub fn capacity(&self) -> usize
        ensures capacity { result ≡ self.now.room }

        // Every map has room for all its nodes, in use or free.
        ensures enough { HasRoom (state_of self.now) }
    {
        self.list.capacity()
    }

    /// Returns the allocator of the map, which is the one that it was made with. It takes constant time.
    pub fn allocator(&self) -> Global {
        self.list.allocator()
    }

    /// Returns a reference to the map's `BuildHasher`. It takes constant time.
    pub fn hasher(&self) -> &S
        ensures { result.now ≡ self.now.hasher }
    {
        self.list.hasher()
    }
}
