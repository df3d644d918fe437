//! The map's entries, which act on the cache at their places. An insert through one can exceed the capacity
//! by one.
//!
//! What `entry` and `raw_entry_mut` return borrows the map inside the cache. Afterwards the cache has what
//! the map then has, at the same capacity. For `entry` the proof of this is written by hand. If the cache
//! that a caller uses is itself borrowed, the caller's generated proof knows nothing about the cache after
//! the entry is gone, unless a method takes the entry by value at once. `make_room` followed by an entry of
//! `map_mut` does the same, and the proof then knows everything. `hashlink_uses` has a proved caller for each
//! form.
ghost use Rattle.std.specs.{Prelude.◌≡◌, Borrow.sem};
ghost use Rattle.hashlink_model.specs.{Cache.{EntersCache, EvictsFront}, Entries.IsEntries};
ghost use Rattle.hashlink_core.specs.Keyed as keyed;

use super::LruCache;
use hashlink_map::{Entry, LinkedHashMap, RawEntryBuilder, RawEntryBuilderMut};
use std::hash::{BuildHasher, Hash};

impl<K: Eq + Hash, V, S: BuildHasher> LruCache<K, V, S> {
    ghost use Rattle.hashlink_map.specs.{Entry.{entry_map, entry_state}, RawEntry.{read_map, found_map}};
    ghost use Rattle.hashlink_lru.specs.{Cached.{entries_of, map_of, state_of}, Lends.{HandsOnMap, LendsMap}};

    /// Returns a mutable reference to the map of the cache, for any of its methods. It takes constant time.
    ///
    /// No method of the map evicts the entries beyond the capacity. So through this reference, or through a
    /// cursor, the cache can exceed its capacity by any number, until one of its own inserts succeeds.
    pub fn map_mut(&mut self) -> &mut LinkedHashMap<K, V, S>
        ensures* lends { sem 𝓛 (LendsMap K.row V.row S.row S.Hasher.row K.Hash S.BuildHasher S.Hasher.Hasher
            self.entry result) }
        ensures unchanged { result.now ≡ map_of self.old }
    {
        &mut self.map
    }

    /// Evicts the front if there are more entries than the capacity, even if it is the key's own entry. Then
    /// returns the entry of the key, which holds the given key. It looks the key up as `peek` does. It stores
    /// at most three links and does not allocate.
    ///
    /// So an insert through the entry can exceed the capacity by one. If an entry was evicted, its node is
    /// free, and that insert cannot fail.
    pub fn entry(&mut self, key: K) -> Entry<'_, K, V, S>
    where
        K: Drop,
        V: Drop,
        ensures* hands_on { sem 𝓛
            (HandsOnMap K.row V.row S.row S.Hasher.row K.Hash S.BuildHasher S.Hasher.Hasher
            self.entry (entry_map result).ghost_name) }
        ensures enters { EntersCache K.eq (state_of self.old) key (entry_state result) }
        ensures distinct { IsEntries K.eq (entry_state result).map.entries }
    {
        self.roomy_map().entry(key)
    }

    /// Returns a builder that finds an entry to read: by a key, by a key and its hash, or by a hash and a
    /// test. It takes constant time and hashes nothing.
    pub fn raw_entry(&self) -> RawEntryBuilder<'_, K, V, S>
        ensures { read_map result ≡ map_of self.now }
    {
        self.map.raw_entry()
    }

    /// Evicts the front if there are more entries than the capacity. Then returns a builder that finds an
    /// entry to change: by a key, by a key and its hash, or by a hash and a test. It takes constant time,
    /// hashes nothing, stores at most three links and does not allocate.
    ///
    /// So an insert through the entry can exceed the capacity by one. If an entry was evicted, its node is
    /// free, and that insert cannot fail.
    pub fn raw_entry_mut(&mut self) -> RawEntryBuilderMut<'_, K, V, S>
    where
        K: Drop,
        V: Drop,
        ensures* hands_on { sem 𝓛
            (HandsOnMap K.row V.row S.row S.Hasher.row K.Hash S.BuildHasher S.Hasher.Hasher
            self.entry (found_map result).ghost_name) }
        ensures evicts { EvictsFront (state_of self.old).map (keyed.state_of (found_map result).now)
            (state_of self.old).cap }
        ensures distinct { IsEntries K.eq (keyed.entries_of (found_map result).now) }
    {
        self.roomy_map().raw_entry_mut()
    }

    /// Evicts the front if there are more entries than the capacity, and returns the map.
    #[tactic(auto, using(std::proofs::Common::rules))]
    fn roomy_map(&mut self) -> &mut LinkedHashMap<K, V, S>
    where
        K: Drop,
        V: Drop,
        ensures* hands_on { sem 𝓛
            (HandsOnMap K.row V.row S.row S.Hasher.row K.Hash S.BuildHasher S.Hasher.Hasher
            self.entry result.ghost_name) }
        ensures evicts { EvictsFront (state_of self.old).map (keyed.state_of result.now)
            (state_of self.old).cap }
        ensures distinct { IsEntries K.eq (keyed.entries_of result.now) }
    {
        self.make_room();
        &mut self.map
    }
}
