//! Vacant raw entries.
ghost use Rattle.std.specs.{Prelude.{◌≡◌, ◌∷◌, None, IfOk, IfErr, length}, Borrow.sem, List.All, Map.keys_of};
ghost use Rattle.hashlink_model.specs.Entries.{place_of};
ghost use Rattle.hashlink_core.specs.{Keyed.{state_of, entries_of}, Tied.hash_with};

use super::RawOccupiedEntryMut;
use crate::map::LinkedHashMap;
use hashlink_core::{DefaultHashBuilder, NO_SLOT};
use std::hash::{BuildHasher, Hash};

/// A vacant raw entry: a pair whose key is absent can be inserted here.
#[derive(Drop)]
pub struct RawVacantEntryMut<'a, K: Eq + Hash, V, S: BuildHasher = DefaultHashBuilder> {
    pub(crate) map: &'a mut LinkedHashMap<K, V, S>,
}

impl<'a, K: Eq + Hash, V, S: BuildHasher> RawVacantEntryMut<'a, K, V, S> {
    ghost use Rattle.hashlink_map.specs.RawEntry.{raw_vacant_map, raw_occupied_map, raw_place, Hashes};
    ghost use Rattle.hashlink_map.specs.RawLends.{HandsOnNew, LendsNewPair};
    ghost use Rattle.hashlink_model.specs.MapState.{AddsEntry};

    /// Inserts the pair at the back, and returns its key and a mutable reference to its value. The key has to
    /// be absent. It hashes the key once, and stores at most four links.
    ///
    /// It allocates only if no node is free. A full table then grows first, in linear time in the new
    /// capacity. If an allocation fails, it returns the pair in `Err` and changes no entry; the room may have
    /// grown.
    pub fn insert(self, key: K, value: V) -> Result<(&'a K, &'a mut V), (K, V)>
        requires absent { place_of (K.eq key) (entries_of (raw_vacant_map self).now) ≡ None }
        ensures* lends { sem 𝓛 (LendsNewPair K.row V.row S.row S.Hasher.row K.Hash
            S.BuildHasher S.Hasher.Hasher (raw_vacant_map self.entry) key value result) }
        ensures pair { IfOk result (λ p. (p.0.now ≡ key) × (p.1.now ≡ value)) }
        ensures handed_back { IfErr result (λ p. p ≡ (key, value)) }
    {
        RawOccupiedEntryMut::pair_of(self.insert_entry(key, value))
    }

    /// Inserts the pair at the back, and returns its key and a mutable reference to its value. The key has to
    /// be absent, and `hash` has to be its hash. It hashes nothing, and stores at most four links.
    ///
    /// It allocates only if no node is free. A full table then grows first, in linear time in the new
    /// capacity. If an allocation fails, it returns the pair in `Err` and changes no entry; the room may have
    /// grown.
    pub fn insert_hashed_nocheck(
        self,
        hash: u64,
        key: K,
        value: V,
    ) -> Result<(&'a K, &'a mut V), (K, V)>
        requires absent { place_of (K.eq key) (entries_of (raw_vacant_map self).now) ≡ None }
        requires hash { hash ≡ hash_with S.build_hasher S.Hasher.write S.Hasher.finish K.hash_input
            (raw_vacant_map self).now.hasher key }
        ensures* lends { sem 𝓛 (LendsNewPair K.row V.row S.row S.Hasher.row K.Hash
            S.BuildHasher S.Hasher.Hasher (raw_vacant_map self.entry) key value result) }
        ensures pair { IfOk result (λ p. (p.0.now ≡ key) × (p.1.now ≡ value)) }
        ensures handed_back { IfErr result (λ p. p ≡ (key, value)) }
    {
        RawOccupiedEntryMut::pair_of(self.insert_entry_hashed_nocheck(hash, key, value))
    }

    /// Does the same as `insert_hashed_nocheck`. For the new key and every key of the map, `hasher` has to
    /// return what the map's own hasher returns. The map keeps each hash, so `hasher` is not called.
    pub fn insert_with_hasher<F: Fn(&K) -> u64>(
        self,
        hash: u64,
        key: K,
        value: V,
        hasher: F,
    ) -> Result<(&'a K, &'a mut V), (K, V)>
    where
        F: Drop,
        requires absent { place_of (K.eq key) (entries_of (raw_vacant_map self).now) ≡ None }
        requires hash { hash ≡ hash_with S.build_hasher S.Hasher.write S.Hasher.finish K.hash_input
            (raw_vacant_map self).now.hasher key }
        requires hasher { All (Hashes F.Fn
            (hash_with S.build_hasher S.Hasher.write S.Hasher.finish K.hash_input
            (raw_vacant_map self).now.hasher) hasher) (key ∷ keys_of (entries_of (raw_vacant_map self).now)) }
        ensures* lends { sem 𝓛 (LendsNewPair K.row V.row S.row S.Hasher.row K.Hash
            S.BuildHasher S.Hasher.Hasher (raw_vacant_map self.entry) key value result) }
        ensures pair { IfOk result (λ p. (p.0.now ≡ key) × (p.1.now ≡ value)) }
        ensures handed_back { IfErr result (λ p. p ≡ (key, value)) }
    {
        RawOccupiedEntryMut::pair_of(self.insert_entry_with_hasher(hash, key, value, hasher))
    }

    /// Inserts the pair at the back, and returns its entry. The key has to be absent. It hashes the key once,
    /// and stores at most four links.
    ///
    /// It allocates only if no node is free. A full table then grows first, in linear time in the new
    /// capacity. If an allocation fails, it returns the pair in `Err` and changes no entry; the room may have
    /// grown.
    pub fn insert_entry(self, key: K, value: V) -> Result<RawOccupiedEntryMut<'a, K, V, S>, (K, V)>
        requires absent { place_of (K.eq key) (entries_of (raw_vacant_map self).now) ≡ None }
        ensures* hands_on { sem 𝓛 (HandsOnNew K.row V.row S.row S.Hasher.row
            (raw_vacant_map self.entry) key value result) }
        ensures same_map { IfOk result
            (λ o. (raw_occupied_map o).ghost_name ≡ (raw_vacant_map self.entry).ghost_name) }
        ensures adds { IfOk result (λ o. AddsEntry K.eq (state_of (raw_vacant_map self.entry).now)
            (state_of (raw_occupied_map o).now) key value
            (length (entries_of (raw_vacant_map self.entry).now))) }
        ensures last { IfOk result (λ o. raw_place o ≡ length (entries_of (raw_vacant_map self.entry).now)) }
        ensures handed_back { IfErr result (λ p. p ≡ (key, value)) }
    {
        let map = &*self.map;
        let hash = map.list.hash_of(&key);
        self.insert_entry_hashed_nocheck(hash, key, value)
    }

    /// Inserts the pair at the back, and returns its entry. The key has to be absent, and `hash` has to be
    /// its hash. It hashes nothing, and stores at most four links.
    ///
    /// It allocates only if no node is free. A full table then grows first, in linear time in the new
    /// capacity. If an allocation fails, it returns the pair in `Err` and changes no entry; the room may have
    /// grown.
    #[inline]
    pub fn insert_entry_hashed_nocheck(
        self,
        hash: u64,
        key: K,
        value: V,
    ) -> Result<RawOccupiedEntryMut<'a, K, V, S>, (K, V)>
        requires absent { place_of (K.eq key) (entries_of (raw_vacant_map self).now) ≡ None }
        requires hash { hash ≡ hash_with S.build_hasher S.Hasher.write S.Hasher.finish K.hash_input
            (raw_vacant_map self).now.hasher key }
        ensures* hands_on { sem 𝓛 (HandsOnNew K.row V.row S.row S.Hasher.row
            (raw_vacant_map self.entry) key value result) }
        ensures same_map { IfOk result
            (λ o. (raw_occupied_map o).ghost_name ≡ (raw_vacant_map self.entry).ghost_name) }
        ensures adds { IfOk result (λ o. AddsEntry K.eq (state_of (raw_vacant_map self.entry).now)
            (state_of (raw_occupied_map o).now) key value
            (length (entries_of (raw_vacant_map self.entry).now))) }
        ensures last { IfOk result (λ o. raw_place o ≡ length (entries_of (raw_vacant_map self.entry).now)) }
        ensures handed_back { IfErr result (λ p. p ≡ (key, value)) }
    {
        let RawVacantEntryMut { map } = self;
        let node = map.push_back(hash, key, value)?;
        Ok(RawOccupiedEntryMut {
            map,
            node,
            slot: NO_SLOT,
        })
    }

    /// Does the same as `insert_entry_hashed_nocheck`. For the new key and every key of the map, `hasher` has
    /// to return what the map's own hasher returns. The map keeps each hash, so `hasher` is not called.
    pub fn insert_entry_with_hasher<F: Fn(&K) -> u64>(
        self,
        hash: u64,
        key: K,
        value: V,
        hasher: F,
    ) -> Result<RawOccupiedEntryMut<'a, K, V, S>, (K, V)>
    where
        F: Drop,
        requires absent { place_of (K.eq key) (entries_of (raw_vacant_map self).now) ≡ None }
        requires hash { hash ≡ hash_with S.build_hasher S.Hasher.write S.Hasher.finish K.hash_input
            (raw_vacant_map self).now.hasher key }
        requires hasher { All (Hashes F.Fn
            (hash_with S.build_hasher S.Hasher.write S.Hasher.finish K.hash_input
            (raw_vacant_map self).now.hasher) hasher) (key ∷ keys_of (entries_of (raw_vacant_map self).now)) }
        ensures* hands_on { sem 𝓛 (HandsOnNew K.row V.row S.row S.Hasher.row
            (raw_vacant_map self.entry) key value result) }
        ensures same_map { IfOk result
            (λ o. (raw_occupied_map o).ghost_name ≡ (raw_vacant_map self.entry).ghost_name) }
        ensures adds { IfOk result (λ o. AddsEntry K.eq (state_of (raw_vacant_map self.entry).now)
            (state_of (raw_occupied_map o).now) key value
            (length (entries_of (raw_vacant_map self.entry).now))) }
        ensures last { IfOk result (λ o. raw_place o ≡ length (entries_of (raw_vacant_map self.entry).now)) }
        ensures handed_back { IfErr result (λ p. p ≡ (key, value)) }
    {
        self.insert_entry_hashed_nocheck(hash, key, value)
    }
}
