//! The cache: a map and a capacity. A contract sees the map's state and the capacity. The front of the map is
//! the least recently used entry.
ghost use Rattle.std.specs.Prelude.{◌≡◌, ◌-◌, ◌^◌, ◌<◌, ◌↔◌, length, IsTrue};
ghost use Rattle.hashlink_model.specs.Entries.{IsEntries};
ghost use Rattle.hashlink_lru.specs.Cached.{empty_cache};

mod compared;
mod entries;
mod extend;
mod get_or_insert;
mod inserts;
mod pushes;
mod reads;
mod removals;
mod walks;

use hashlink_map::{DefaultHashBuilder, LinkedHashMap};
use std::alloc::Global;
use std::hash::{BuildHasher, Hash};

/// A hash map that holds up to a given number of entries, its capacity. The entries are in the order of their
/// last uses. To make room for a new entry, it evicts the front, which is the least recently used entry.
#[derive(Drop)]
pub struct LruCache<K: Eq + Hash, V, S: BuildHasher = DefaultHashBuilder> {
    pub(crate) map: LinkedHashMap<K, V, S>,
    capacity: usize,
}

impl<K: Eq + Hash, V> LruCache<K, V, DefaultHashBuilder> {
    ghost use Rattle.hashlink_core.specs.Hashing.{default_builder};
    ghost use Rattle.hashlink_lru.specs.Cached.{state_of};

    /// Creates an empty cache of this capacity, which hashes with `DefaultHasher`. It does not allocate.
    pub fn new(alloc: Global, capacity: usize) -> Self
        ensures { state_of result ≡ empty_cache default_builder capacity }
    {
        LruCache::with_hasher(alloc, capacity, DefaultHashBuilder)
    }

    /// Creates an empty cache of the greatest capacity, which evicts no entry by itself. It does not
    /// allocate.
    pub fn new_unbounded(alloc: Global) -> Self
        ensures { state_of result ≡ empty_cache default_builder (2 ^ 64 - 1) }
    {
        LruCache::new(alloc, usize::MAX)
    }
}

impl<K: Eq + Hash, V, S: BuildHasher> LruCache<K, V, S> {
    ghost use Rattle.hashlink_lru.specs.Cached.{entries_of, state_of};

    /// Creates an empty cache of this capacity, which hashes with `hash_builder`. It does not allocate.
    pub fn with_hasher(alloc: Global, capacity: usize, hash_builder: S) -> Self
        ensures { state_of result ≡ empty_cache hash_builder capacity }
    {
        LruCache {
            map: LinkedHashMap::with_hasher(alloc, hash_builder),
            capacity,
        }
    }

    /// Returns the allocator that the cache was made with. It takes constant time.
    pub fn allocator(&self) -> Global {
        self.map.allocator()
    }

    /// Returns a reference to the cache's `BuildHasher`. It takes constant time.
    pub fn hasher(&self) -> &S
        ensures { result.now ≡ (state_of self.now).map.hasher }
    {
        self.map.hasher()
    }

    /// Returns the capacity: the number of entries that the cache holds. Inserts through entries, cursors or
    /// `map_mut` can exceed it, and at capacity 0 so can `get_or_insert_with` and `get_or_try_insert_with`.
    /// It takes constant time.
    pub fn capacity(&self) -> usize
        ensures { result ≡ (state_of self.now).cap }
    {
        self.capacity
    }

    /// Returns the number of entries. It takes constant time.
    pub fn len(&self) -> usize
        ensures len { result ≡ length (entries_of self.now) }
        ensures small { result < 2 ^ 63 }

        // No two keys are equal, in this cache as in every cache.
        ensures distinct { IsEntries K.eq (entries_of self.now) }
    {
        self.map.len()
    }

    /// Returns whether the cache is empty. It takes constant time.
    pub fn is_empty(&self) -> bool
        ensures { IsTrue result ↔ (length (entries_of self.now) ≡ 0) }
    {
        self.map.is_empty()
    }
}
