//! Vacant entries. None of their methods hashes.
ghost use Rattle.std.specs.{Prelude.{◌≡◌, None, Some, Ok, IfOk, IfErr, length}, Borrow.sem};
ghost use Rattle.hashlink_model.specs.{Entries.place_of, Lookups.{Updates, UpdatesLast}, MapState.AddsEntry};
ghost use Rattle.hashlink_core.specs.{Keyed.{entries_of, state_of}, Tied.hash_with};

use crate::map::LinkedHashMap;
use crate::raw_entry::{RawOccupiedEntryMut, RawVacantEntryMut};
use crate::try_insert_error::TryInsertError;
use hashlink_core::{DefaultHashBuilder, NO_SLOT};
use std::hash::{BuildHasher, Hash};

/// A vacant entry. It holds the given key, which is absent from the map.
pub struct VacantEntry<'a, K: Eq + Hash, V, S: BuildHasher = DefaultHashBuilder> {
    pub(crate) map: &'a mut LinkedHashMap<K, V, S>,
    pub(crate) hash: u64,
    pub(crate) key: K,
    ghost hashed: { hash ≡ hash_with S.build_hasher S.Hasher.write S.Hasher.finish K.hash_input
        map.now.hasher key },
    ghost absent: { place_of (K.eq key) (entries_of map.now) ≡ None },
}

impl<K: Eq + Hash + Drop, V, S: BuildHasher> Drop for VacantEntry<'_, K, V, S> {
    fn drop(self)
        ensures { self.exit.0.now ≡ self.entry.map.now }
    {
        let VacantEntry {
            map: _,
            hash: _,
            key: _,
        } = self;
    }
}

impl<'a, K: Eq + Hash, V, S: BuildHasher> VacantEntry<'a, K, V, S> {
    ghost use Rattle.hashlink_map.specs.{Entry.{vacant_map, vacant_state}, TryInsert.HandsBack};
    ghost use Rattle.hashlink_map.specs.{EntryLends.{LendsNew, LendsTryNew}, RawLends.HandsOnNew};
    ghost use Rattle.hashlink_map.specs.RawEntry.{raw_occupied_map, raw_vacant_map, raw_place};

    /// Returns a reference to the given key. It takes constant time.
    pub fn key(&self) -> &K
        ensures { result.now ≡ (vacant_state self.now).key }
    {
        &self.key
    }

    /// Returns the given key, and ends the entry. The map does not change. It takes constant time.
    pub fn into_key(self) -> K
        ensures key { result ≡ (vacant_state self.entry).key }
        ensures unchanged { self.exit.0.now ≡ (vacant_map self.entry).now }
    {
        let VacantEntry {
            map: _,
            hash: _,
            key,
        } = self;
        key
    }

    /// Inserts the given key with the value at the back, and returns a mutable reference to the value. It
    /// stores at most four links.
    ///
    /// It allocates only if no node is free. A full table then grows first, in linear time in the new
    /// capacity. If an allocation fails, it returns the given key and the value in `Err` and changes no
    /// entry; the room may have grown.
    pub fn insert(self, value: V) -> Result<&'a mut V, (K, V)>
        ensures* lends { sem 𝓛 (LendsNew K.row V.row S.row S.Hasher.row self.entry value result) }
        ensures value { IfOk result (λ v. v.now ≡ value) }
        ensures updates { IfOk result (λ _. UpdatesLast K.eq (vacant_state self.entry).map.entries
            (vacant_state self.entry).key) }
        ensures handed_back { IfErr result (λ pair. pair ≡ ((vacant_state self.entry).key, value)) }
    {
        let VacantEntry { map, hash, key } = self;
        let node = map.push_back(hash, key, value)?;
        Ok(map.value_at_mut(node))
    }

    /// Does the same as `insert` with the value of `made`. If `made` is an `Err`, the map does not change.
    pub(crate) fn try_insert<E>(
        self,
        made: Result<V, E>,
    ) -> Result<&'a mut V, TryInsertError<K, V, E>>
        ensures* lends { sem 𝓛 (LendsTryNew K.row V.row S.row S.Hasher.row self.entry result) }
        ensures value { IfOk result (λ v. made ≡ Ok v.now) }
        ensures updates { IfOk result (λ _. UpdatesLast K.eq (vacant_state self.entry).map.entries
            (vacant_state self.entry).key) }
        ensures handed_back { IfErr result (HandsBack (λ m. made ≡ m) (vacant_state self.entry).key) }
    {
        let VacantEntry { map, hash, key } = self;
        let value = match made {
            Ok(value) => value,
            Err(error) => return Err(TryInsertError::Make(key, error)),
        };
        match map.push_back(hash, key, value) {
            Ok(node) => Ok(map.value_at_mut(node)),
            Err(pair) => Err(TryInsertError::Memory(pair)),
        }
    }

    /// Inserts the given key with the value at the back, and returns the entry. It stores at most four links.
    ///
    /// It allocates only if no node is free. A full table then grows first, in linear time in the new
    /// capacity. If an allocation fails, it returns the given key and the value in `Err` and changes no
    /// entry; the room may have grown.
    pub fn insert_entry(self, value: V) -> Result<RawOccupiedEntryMut<'a, K, V, S>, (K, V)>
        ensures* hands_on { sem 𝓛 (HandsOnNew K.row V.row S.row S.Hasher.row (vacant_map self.entry)
            (vacant_state self.entry).key value result) }
        ensures same_map { IfOk result
            (λ o. (raw_occupied_map o).ghost_name ≡ (vacant_map self.entry).ghost_name) }
        ensures adds { IfOk result (λ o. AddsEntry K.eq (vacant_state self.entry).map
            (state_of (raw_occupied_map o).now) (vacant_state self.entry).key value
            (length (vacant_state self.entry).map.entries)) }
        ensures updates { IfOk result (λ o. Updates K.eq (vacant_state self.entry).map.entries
            (entries_of (raw_occupied_map o).now) (vacant_state self.entry).key (Some value)) }
        ensures last { IfOk result (λ o. raw_place o ≡ length (vacant_state self.entry).map.entries) }
        ensures handed_back { IfErr result (λ p. p ≡ ((vacant_state self.entry).key, value)) }
    {
        let VacantEntry { map, hash, key } = self;
        let node = map.push_back(hash, key, value)?;
        Ok(RawOccupiedEntryMut {
            map,
            node,
            slot: NO_SLOT,
        })
    }

    /// Returns the raw entry at this place. The given key is dropped. It takes constant time.
    pub fn raw_entry_mut(self) -> RawVacantEntryMut<'a, K, V, S>
    where
        K: Drop,
        ensures same_map { (raw_vacant_map result).ghost_name ≡ (vacant_map self.entry).ghost_name }
        ensures unchanged { (raw_vacant_map result).now ≡ (vacant_map self.entry).now }
    {
        let VacantEntry {
            map,
            hash: _,
            key: _,
        } = self;
        RawVacantEntryMut { map }
    }
}
