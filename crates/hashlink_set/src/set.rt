//! The set. A contract sees the state of a map with values of type `()`: the elements from front to back, and
//! the numbers of free nodes, of room and of stored links.
ghost use Rattle.std.specs.{Prelude.{◌≡◌, ◌^◌, ◌<◌, ◌↔◌, length, IfOk, IsOk, IsTrue, Err}, List.IsDistinct};
ghost use Rattle.hashlink_model.specs.{MapState.{empty_map, HasRoom}, Steps.IsMadeWith, Sets.elements_of};

mod inserts;
mod memory;
mod moves;
mod reads;
mod removals;
mod retains;
mod walks;

use hashlink_map::{DefaultHashBuilder, LinkedHashMap, TryReserveError};
use std::alloc::Global;
use std::hash::{BuildHasher, Hash};
use std::marker::Model;

/// A hash set whose elements are in one order, from front to back. An insert puts its element at the back. If
/// an equal element is present, the present one moves to the back instead.
#[derive(Drop)]
pub struct LinkedHashSet<T: Eq + Hash, S: BuildHasher = DefaultHashBuilder> {
    pub(crate) map: LinkedHashMap<T, (), S>,
    // The allocator of the map, for the sets that the operators build from this one.
    pub(crate) alloc: Global,
}

impl<T: Eq + Hash, S: BuildHasher> Model for LinkedHashSet<T, S> {
    ghost use Rattle.hashlink_model.specs.Sets.{SetState};
    ghost use Rattle.hashlink_core.specs.Keyed.{state_of};

    ghost Value = { SetState T S };

    ghost view = { λ s. state_of s.map };
}

impl<T: Eq + Hash> LinkedHashSet<T, DefaultHashBuilder> {
    ghost use Rattle.hashlink_core.specs.Hashing.{default_builder};

    /// Creates an empty set, which hashes with `DefaultHasher`. It does not allocate.
    pub fn new(alloc: Global) -> Self
        ensures { result ≡ empty_map default_builder }
    {
        LinkedHashSet::with_hasher(alloc, DefaultHashBuilder)
    }

    /// Creates an empty set with room for `capacity` elements, which hashes with `DefaultHasher`. It takes
    /// linear time in `capacity`, and does not allocate if that is 0.
    ///
    /// It returns `CapacityOverflow` if `capacity` is above 2^62, and `AllocError` if the allocation fails or
    /// the table would need more than 2^31 buckets.
    pub fn with_capacity(alloc: Global, capacity: usize) -> Result<Self, TryReserveError>
        ensures made { IfOk result (IsMadeWith capacity default_builder) }
        ensures none { capacity ≡ 0 → IsOk result }
        ensures overflow { (result ≡ Err TryReserveError.CapacityOverflow) ↔ (2 ^ 62 < capacity) }
    {
        LinkedHashSet::with_capacity_and_hasher(alloc, capacity, DefaultHashBuilder)
    }
}

impl<T: Eq + Hash, S: BuildHasher> LinkedHashSet<T, S> {
    /// Creates an empty set that hashes with `hash_builder`. It does not allocate.
    pub fn with_hasher(alloc: Global, hash_builder: S) -> Self
        ensures { result ≡ empty_map hash_builder }
    {
        LinkedHashSet {
            map: LinkedHashMap::with_hasher(alloc, hash_builder),
            alloc,
        }
    }

    /// Creates an empty set with room for `capacity` elements, which hashes with `hash_builder`. It takes
    /// linear time in `capacity`, and does not allocate if that is 0.
    ///
    /// It returns `CapacityOverflow` if `capacity` is above 2^62, and `AllocError` if the allocation fails or
    /// the table would need more than 2^31 buckets.
    pub fn with_capacity_and_hasher(
        alloc: Global,
        capacity: usize,
        hash_builder: S,
    ) -> Result<Self, TryReserveError>
    where
        S: Drop,
        ensures made { IfOk result (IsMadeWith capacity hash_builder) }
        ensures none { capacity ≡ 0 → IsOk result }
        ensures overflow { (result ≡ Err TryReserveError.CapacityOverflow) ↔ (2 ^ 62 < capacity) }
    {
        let map = LinkedHashMap::with_capacity_and_hasher(alloc, capacity, hash_builder)?;
        Ok(LinkedHashSet { map, alloc })
    }

    /// Returns the number of elements. It takes constant time.
    pub fn len(&self) -> usize
        ensures len { result ≡ length (elements_of self.now) }
        ensures small { result < 2 ^ 63 }

        // No two elements are equal, in this set as in every set.
        ensures distinct { IsDistinct T.eq (elements_of self.now) }
    {
        self.map.len()
    }

    /// Returns whether the set is empty. It takes constant time.
    pub fn is_empty(&self) -> bool
        ensures { IsTrue result ↔ (length (elements_of self.now) ≡ 0) }
    {
        self.len() == 0
    }

    /// Returns the number of elements that the set can hold before its table has to grow. It takes constant
    /// time and does not allocate.
    pub fn capacity(&self) -> usize
        ensures capacity { result ≡ self.now.room }

        // There is room for every node, in use or free, in this set as in every set.
        ensures enough { HasRoom self.now }
    {
        self.map.capacity()
    }

    /// Returns a reference to the set's `BuildHasher`. It takes constant time.
    pub fn hasher(&self) -> &S
        ensures { result.now ≡ self.now.hasher }
    {
        self.map.hasher()
    }
}
