//! The cache: a map whose values carry their weights, a budget, and the sum of the weights. A contract sees
//! the map's state and the budget. The front of the map is the least recently used entry.
ghost use Rattle.std.specs.Prelude.{◌≡◌, ◌^◌, ◌<◌, ◌≤◌, ◌↔◌, length, IsTrue};
ghost use Rattle.hashlink_model.specs.{Entries.IsEntries, Weights.total_weight};
ghost use Rattle.hashlink_weighted.specs.Weighed.{entries_of, empty_weighted};

mod emptied;
mod eviction;
mod inserts;
mod lookups;

use crate::iter::WeightedIter;
use hashlink_map::{DefaultHashBuilder, LinkedHashMap};
use std::alloc::Global;
use std::hash::{BuildHasher, Hash};
use std::marker::Model;

/// A hash map whose entries carry weights, which sum to at most a budget. The entries are in the order of
/// their last uses. To make room for a new entry, it evicts from the front, where the least recently used
/// entry is.
#[derive(Drop)]
pub struct WeightedCache<K: Eq + Hash, V, S: BuildHasher = DefaultHashBuilder> {
    map: LinkedHashMap<K, (V, u64), S>,
    total: u64,
    budget: u64,
}

impl<K: Eq + Hash, V, S: BuildHasher> Model for WeightedCache<K, V, S> {
    ghost use Rattle.hashlink_core.specs.Keyed as keyed;
    ghost use Rattle.hashlink_core.specs.Keyed.{state_of};
    ghost use Rattle.hashlink_model.specs.Weights.{WeightedState};
    ghost use Rattle.hashlink_weighted.specs.Weighed.{HasTotal};

    ghost Value = { WeightedState K V S };

    ghost view = { λ c. record { map = state_of c.map; budget = c.budget } };

    ghost invariant = { λ c. HasTotal (keyed.entries_of c.map) c.total c.budget };
}

impl<K: Eq + Hash, V> WeightedCache<K, V, DefaultHashBuilder> {
    ghost use Rattle.hashlink_core.specs.Hashing.{default_builder};

    /// Creates an empty cache of this budget, which hashes with `DefaultHasher`. It does not allocate.
    pub fn new(alloc: Global, budget: u64) -> Self
        ensures { result ≡ empty_weighted default_builder budget }
    {
        WeightedCache::with_hasher(alloc, budget, DefaultHashBuilder)
    }
}

impl<K: Eq + Hash, V, S: BuildHasher> WeightedCache<K, V, S> {
    ghost use Rattle.std.specs.Map.Iter.{ShowsInOrder, ShowsInReverse};
    ghost use Rattle.hashlink_weighted.specs.Weighed.{deref_weighed};

    /// Creates an empty cache of this budget, which hashes with `hash_builder`. It does not allocate.
    pub fn with_hasher(alloc: Global, budget: u64, hash_builder: S) -> Self
        ensures { result ≡ empty_weighted hash_builder budget }
    {
        WeightedCache {
            map: LinkedHashMap::with_hasher(alloc, hash_builder),
            total: 0,
            budget,
        }
    }

    /// Returns the budget: the greatest sum that the weights may have. It never changes. It takes constant
    /// time.
    pub fn budget(&self) -> u64
        ensures { result ≡ self.now.budget }
    {
        self.budget
    }

    /// Returns the sum of the weights, which in every cache is at most its budget. It takes constant time.
    pub fn total(&self) -> u64
        ensures sum { result ≡ total_weight (entries_of self.now) }
        ensures within { result ≤ self.now.budget }
    {
        self.total
    }

    /// Returns the number of entries. It takes constant time.
    pub fn len(&self) -> usize
        ensures len { result ≡ length (entries_of self.now) }
        ensures small { result < 2 ^ 63 }

        // No two keys are equal, in this cache as in every cache.
        ensures distinct { IsEntries K.eq (entries_of self.now) }
    {
        self.map.len()
    }

    /// Returns whether the cache is empty. It takes constant time.
    pub fn is_empty(&self) -> bool
        ensures { IsTrue result ↔ (length (entries_of self.now) ≡ 0) }
    {
        self.map.is_empty()
    }

    /// Returns an iterator over the entries with their weights, from front to back, so the least recently
    /// used one is first. It is not a use. It does not allocate, and each step takes constant time.
    pub fn iter(&self) -> WeightedIter<'_, K, V>
        ensures rest { result ≡ entries_of self.now }
        ensures runs { ShowsInOrder (deref_weighed {K = K} {V = V}) }
        ensures runs_back { ShowsInReverse (deref_weighed {K = K} {V = V}) }
        ensures fits { length (entries_of self.now) < 2 ^ 63 }
    {
        WeightedIter::new(self.map.iter())
    }
}
