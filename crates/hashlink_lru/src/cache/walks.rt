//! Iterators over a cache, from both ends. They do not count as uses. No iterator allocates, and each step
//! takes constant time.
ghost use Rattle.std.specs.Map.Iter.{ShowsInOrder, ShowsInReverse, deref, deref_pair, GivesInOrder};
ghost use Rattle.std.specs.{Prelude.{◌≡◌, ◌^◌, ◌<◌, length}, Borrow.sem, Map.{keys_of, values_of}};
ghost use Rattle.std.specs.Map.Iter.{GivesInReverse};
ghost use Rattle.hashlink_model.specs.Entries.{IsEntries};
ghost use Rattle.hashlink_lru.specs.Cached.{entries_of, map_of};

use super::LruCache;
use hashlink_map::{IntoIter, Iter, IterMut, Keys, Values};
use std::hash::{BuildHasher, Hash};

impl<K: Eq + Hash, V, S: BuildHasher> LruCache<K, V, S> {
    ghost use Rattle.hashlink_core.specs.Keyed.{state_of};
    ghost use Rattle.hashlink_map.specs.{IterMut.{walk_map, walk_state}, WritingWalk.writing_walk};
    ghost use Rattle.hashlink_lru.specs.Lends.{HandsOnMap};

    /// Returns an iterator over the entries, from front to back, so the least recently used one is first. It
    /// is not a use. It does not allocate, and each step takes constant time.
    pub fn iter(&self) -> Iter<'_, K, V>
        ensures rest { result ≡ entries_of self.now }
        ensures distinct { IsEntries K.eq (entries_of self.now) }
        ensures runs { ShowsInOrder (deref_pair {K = K} {X = V}) }
        ensures runs_back { ShowsInReverse (deref_pair {K = K} {X = V}) }
        ensures fits { length (entries_of self.now) < 2 ^ 63 }
    {
        self.map.iter()
    }

    /// Returns a lending iterator over the entries, from front to back, with mutable references to the
    /// values. It is not a use. It takes constant time and does not allocate.
    pub fn iter_mut(&mut self) -> IterMut<'_, K, V, S>
        ensures* hands_on { sem 𝓛
            (HandsOnMap K.row V.row S.row S.Hasher.row K.Hash S.BuildHasher S.Hasher.Hasher
            self.entry (walk_map result).ghost_name) }
        ensures unchanged { (walk_map result).now ≡ map_of self.old }
        ensures rest { walk_state result ≡ writing_walk (state_of (map_of self.old)) 0
            (length (entries_of self.old)) }
    {
        self.map.iter_mut()
    }

    /// Returns an iterator over the keys, from front to back. It is not a use. It does not allocate, and each
    /// step takes constant time.
    pub fn keys(&self) -> Keys<'_, K, V>
        ensures rest { result ≡ keys_of (entries_of self.now) }
        ensures runs { ShowsInOrder (deref {X = K}) }
        ensures runs_back { ShowsInReverse (deref {X = K}) }
        ensures fits { length (entries_of self.now) < 2 ^ 63 }
    {
        self.map.keys()
    }

    /// Returns an iterator over the values, from front to back. It is not a use. It does not allocate, and
    /// each step takes constant time.
    pub fn values(&self) -> Values<'_, K, V>
        ensures rest { result ≡ values_of (entries_of self.now) }
        ensures runs { ShowsInOrder (deref {X = V}) }
        ensures runs_back { ShowsInReverse (deref {X = V}) }
        ensures fits { length (entries_of self.now) < 2 ^ 63 }
    {
        self.map.values()
    }
}

/// Turns the cache into an owning iterator over its entries, from front to back. It frees the table and
/// the free nodes, in linear time in the number of free nodes, and does not allocate.
impl<K: Eq + Hash + Drop, V: Drop, S: BuildHasher + Drop> IntoIterator for LruCache<K, V, S> {
    type Item = (K, V);

    type IntoIter = IntoIter<K, V>;

    ghost into_iter_gives = { λ c r. r ≡ entries_of c };

    fn into_iter(self) -> IntoIter<K, V>
        ensures into_iter_gives { result ≡ entries_of self }
        ensures distinct { IsEntries K.eq (entries_of self) }
        ensures runs { GivesInOrder (K × V) }
        ensures runs_back { GivesInReverse (K × V) }
        ensures fits { length (entries_of self) < 2 ^ 63 }
    {
        let LruCache { map, capacity: _ } = self;
        map.into_iter()
    }
}

/// Returns the iterator that `iter` returns. It takes constant time and does not allocate.
impl<'a, K: Eq + Hash, V, S: BuildHasher> IntoIterator for &'a LruCache<K, V, S> {
    type Item = (&'a K, &'a V);

    type IntoIter = Iter<'a, K, V>;

    ghost into_iter_gives = { λ c r. (r ≡ entries_of c.now) × (length (entries_of c.now) < 2 ^ 63)
        × ShowsInOrder (deref_pair {K = K} {X = V}) };

    fn into_iter(self) -> Iter<'a, K, V> {
        self.iter()
    }
}
