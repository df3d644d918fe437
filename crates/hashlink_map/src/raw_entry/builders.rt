//! Calls that find raw entries: by a query for the key, by its hash, or at either end.
ghost use Rattle.std.specs.{Prelude.{◌≡◌, ◌-◌, [], Some, IfSome, IfNone, MatchOption, length, ⊤}, Borrow.sem};
ghost use Rattle.std.specs.{Option.option_map, Map.{keys_of, lookup_entry}, Map.Iter.deref_pair};
ghost use Rattle.hashlink_model.specs.{Entries.IsEntries, Entry.{raw_entry_of, raw_entry_match}};
ghost use Rattle.hashlink_core.specs.{Keyed.{state_of, entries_of, PassesAt}, Telling.Tells, Tied.hash_with};
ghost use Rattle.hashlink_map.specs.RawEntry.{read_map, found_map, raw_map, raw_state, raw_pair};
ghost use Rattle.hashlink_map.specs.{RawEntry.{raw_occupied_map, raw_place}, RawLends.HandsOnOccupied};

use super::{RawEntryMut, RawOccupiedEntryMut, RawVacantEntryMut};
use crate::map::LinkedHashMap;
use hashlink_core::{DefaultHashBuilder, Equivalent, NO_SLOT};
use std::hash::{BuildHasher, Hash};

/// A builder that finds entries to read.
#[derive(Clone, Copy)]
pub struct RawEntryBuilder<'a, K: Eq + Hash, V, S: BuildHasher = DefaultHashBuilder> {
    pub(crate) map: &'a LinkedHashMap<K, V, S>,
}

/// A builder that finds entries to change.
#[derive(Drop)]
pub struct RawEntryBuilderMut<'a, K: Eq + Hash, V, S: BuildHasher = DefaultHashBuilder> {
    pub(crate) map: &'a mut LinkedHashMap<K, V, S>,
}

impl<K: Eq + Hash, V, S: BuildHasher> LinkedHashMap<K, V, S> {
    /// Returns a builder that finds an entry to read: by a key, by a key and its hash, or by a hash and a
    /// test. It takes constant time and hashes nothing.
    #[inline]
    pub fn raw_entry(&self) -> RawEntryBuilder<'_, K, V, S>
        ensures { read_map result ≡ self.now }
    {
        RawEntryBuilder { map: self }
    }

    /// Returns a builder that finds an entry to change: by a key, by a key and its hash, or by a hash and a
    /// test. It takes constant time and hashes nothing.
    #[inline]
    pub fn raw_entry_mut(&mut self) -> RawEntryBuilderMut<'_, K, V, S>
        ensures same_map { (found_map result).ghost_name ≡ self.entry.ghost_name }
        ensures unchanged { (found_map result).now ≡ self.old }
    {
        RawEntryBuilderMut { map: self }
    }

    /// Returns the entry at the front, or `None` if the map is empty. It takes constant time and hashes
    /// nothing.
    pub fn front_entry(&mut self) -> Option<RawOccupiedEntryMut<'_, K, V, S>>
        ensures* hands_on { sem 𝓛 (HandsOnOccupied K.row V.row S.row S.Hasher.row self.entry result) }
        ensures same_map { IfSome result (λ o. (raw_occupied_map o).ghost_name ≡ self.entry.ghost_name) }
        ensures unchanged { IfSome result (λ o. (raw_occupied_map o).now ≡ self.old) }
        ensures first { IfSome result (λ o. raw_place o ≡ 0) }
        ensures none { IfNone result (entries_of self.old ≡ []) }
    {
        let node = self.list.front()?;
        Some(RawOccupiedEntryMut {
            map: self,
            node,
            slot: NO_SLOT,
        })
    }

    /// Returns the entry at the back, or `None` if the map is empty. It takes constant time and hashes
    /// nothing.
    pub fn back_entry(&mut self) -> Option<RawOccupiedEntryMut<'_, K, V, S>>
        ensures* hands_on { sem 𝓛 (HandsOnOccupied K.row V.row S.row S.Hasher.row self.entry result) }
        ensures same_map { IfSome result (λ o. (raw_occupied_map o).ghost_name ≡ self.entry.ghost_name) }
        ensures unchanged { IfSome result (λ o. (raw_occupied_map o).now ≡ self.old) }
        ensures last { IfSome result (λ o. raw_place o ≡ length (entries_of self.old) - 1) }
        ensures none { IfNone result (entries_of self.old ≡ []) }
    {
        let node = self.list.back()?;
        Some(RawOccupiedEntryMut {
            map: self,
            node,
            slot: NO_SLOT,
        })
    }
}

impl<'a, K: Eq + Hash, V, S: BuildHasher> RawEntryBuilder<'a, K, V, S> {
    /// Returns the stored pair of the key, or `None` if it is absent. It hashes the key once.
    #[inline(always)]
    pub fn from_key<Q: Equivalent<K>>(self, key: Q) -> Option<(&'a K, &'a V)>
        ensures { option_map deref_pair result ≡ lookup_entry (Q.matches key)
            (entries_of (read_map self.entry)) }
    {
        self.map.get_key_value(key)
    }

    /// Returns the stored pair of the key, or `None` if it is absent. `hash` has to be the hash of the key.
    /// The call hashes nothing.
    #[inline(always)]
    pub fn from_key_hashed_nocheck<Q: Equivalent<K>>(
        self,
        hash: u64,
        key: Q,
    ) -> Option<(&'a K, &'a V)>
        requires { hash ≡ hash_with S.build_hasher S.Hasher.write S.Hasher.finish Q.hash_input
            (read_map self).hasher key }
        ensures { option_map deref_pair result ≡ lookup_entry (Q.matches key)
            (entries_of (read_map self.entry)) }
    {
        let map = self.map;
        let found = map.list.find(hash, key)?;
        Some(map.pair_at(found.node))
    }

    /// Returns the stored pair whose key has this hash and passes the test `is_match`, or `None` if there is
    /// none. `is_match` has to be callable on each key in the map, and to distinguish the keys equal to one
    /// key of this hash from all others. The call hashes nothing.
    #[inline(always)]
    pub fn from_hash<F: Fn(&K) -> bool>(self, hash: u64, is_match: F) -> Option<(&'a K, &'a V)>
    where
        F: Drop,
        requires { (k : K) × Tells F.Fn K.eq
            (hash_with S.build_hasher S.Hasher.write S.Hasher.finish K.hash_input (read_map self).hasher)
            (keys_of (entries_of (read_map self))) is_match hash k }
        ensures { (k : K) → Tells F.Fn K.eq
            (hash_with S.build_hasher S.Hasher.write S.Hasher.finish K.hash_input
            (read_map self.entry).hasher) (keys_of (entries_of (read_map self.entry))) is_match hash k
            → option_map deref_pair result ≡ lookup_entry (K.eq k) (entries_of (read_map self.entry)) }
    {
        let map = self.map;
        let found = map.list.find_with(hash, is_match)?;
        Some(map.pair_at(found.node))
    }
}

impl<K: Eq + Hash, V, S: BuildHasher> LinkedHashMap<K, V, S> {
    /// Returns the place of the key, which it hashes once. Unlike with `raw_entry_mut` and `from_key`, a
    /// caller can prove exactly what the map is afterwards.
    #[inline(always)]
    pub fn raw_entry_of<Q: Equivalent<K>>(&mut self, key: Q) -> RawEntryMut<'_, K, V, S>
        ensures same_map { (raw_map result).ghost_name ≡ self.entry.ghost_name }
        ensures unchanged { (raw_map result).now ≡ self.old }
        ensures found { raw_state result ≡ raw_entry_match (Q.matches key) (state_of self.old) }
        ensures pair { raw_pair (raw_state result) ≡ lookup_entry (Q.matches key) (entries_of self.old) }
        ensures equal { MatchOption (raw_state result).place ⊤
            (PassesAt (Q.matches key) (entries_of self.old)) }
        ensures distinct { IsEntries K.eq (entries_of self.old) }
    {
        let hash = self.list.hash_of(key);
        self.raw_entry_hashed_nocheck(hash, key)
    }

    /// Returns the place of the key. `hash` has to be the hash of the key. The call hashes nothing. Unlike
    /// with `raw_entry_mut` and `from_key_hashed_nocheck`, a caller can prove exactly what the map is
    /// afterwards.
    #[inline(always)]
    pub fn raw_entry_hashed_nocheck<Q: Equivalent<K>>(
        &mut self,
        hash: u64,
        key: Q,
    ) -> RawEntryMut<'_, K, V, S>
        requires { hash ≡ hash_with S.build_hasher S.Hasher.write S.Hasher.finish Q.hash_input
            self.old.hasher key }
        ensures same_map { (raw_map result).ghost_name ≡ self.entry.ghost_name }
        ensures unchanged { (raw_map result).now ≡ self.old }
        ensures found { raw_state result ≡ raw_entry_match (Q.matches key) (state_of self.old) }
        ensures pair { raw_pair (raw_state result) ≡ lookup_entry (Q.matches key) (entries_of self.old) }
        ensures equal { MatchOption (raw_state result).place ⊤
            (PassesAt (Q.matches key) (entries_of self.old)) }
        ensures distinct { IsEntries K.eq (entries_of self.old) }
    {
        match self.list.find(hash, key) {
            Some(found) => RawEntryMut::Occupied(RawOccupiedEntryMut {
                map: self,
                node: found.node,
                slot: found.slot,
            }),
            None => RawEntryMut::Vacant(RawVacantEntryMut { map: self }),
        }
    }

    /// Returns the place whose key has this hash and passes the test `is_match`. `is_match` has to be
    /// callable on each key in the map, and to distinguish the keys equal to one key of this hash from all
    /// others. The call hashes nothing. Unlike with `raw_entry_mut` and `from_hash`, a caller can prove
    /// exactly what the map is afterwards.
    #[inline(always)]
    pub fn raw_entry_from_hash<F: Fn(&K) -> bool>(
        &mut self,
        hash: u64,
        is_match: F,
    ) -> RawEntryMut<'_, K, V, S>
    where
        F: Drop,
        requires { (k : K) × Tells F.Fn K.eq
            (hash_with S.build_hasher S.Hasher.write S.Hasher.finish K.hash_input self.old.hasher)
            (keys_of (entries_of self.old)) is_match hash k }
        ensures same_map { (raw_map result).ghost_name ≡ self.entry.ghost_name }
        ensures unchanged { (raw_map result).now ≡ self.old }
        ensures found { (k : K) → Tells F.Fn K.eq
            (hash_with S.build_hasher S.Hasher.write S.Hasher.finish K.hash_input self.old.hasher)
            (keys_of (entries_of self.old)) is_match hash k
            → raw_state result ≡ raw_entry_of K.eq (state_of self.old) k }
        ensures pair { (k : K) → Tells F.Fn K.eq
            (hash_with S.build_hasher S.Hasher.write S.Hasher.finish K.hash_input self.old.hasher)
            (keys_of (entries_of self.old)) is_match hash k
            → raw_pair (raw_state result) ≡ lookup_entry (K.eq k) (entries_of self.old) }
        ensures equal { (k : K) → Tells F.Fn K.eq
            (hash_with S.build_hasher S.Hasher.write S.Hasher.finish K.hash_input self.old.hasher)
            (keys_of (entries_of self.old)) is_match hash k
            → MatchOption (raw_state result).place ⊤ (PassesAt (K.eq k) (entries_of self.old)) }
        ensures distinct { IsEntries K.eq (entries_of self.old) }
    {
        match self.list.find_with(hash, is_match) {
            Some(found) => RawEntryMut::Occupied(RawOccupiedEntryMut {
                map: self,
                node: found.node,
                slot: found.slot,
            }),
            None => RawEntryMut::Vacant(RawVacantEntryMut { map: self }),
        }
    }
}

impl<'a, K: Eq + Hash, V, S: BuildHasher> RawEntryBuilderMut<'a, K, V, S> {
    /// Returns the place of the key, which it hashes once.
    #[inline(always)]
    pub fn from_key<Q: Equivalent<K>>(self, key: Q) -> RawEntryMut<'a, K, V, S>
        ensures same_map { (raw_map result).ghost_name ≡ (found_map self.entry).ghost_name }
        ensures unchanged { (raw_map result).now ≡ (found_map self.entry).now }
        ensures found { raw_state result ≡ raw_entry_match (Q.matches key)
            (state_of (found_map self.entry).now) }
        ensures pair { raw_pair (raw_state result)
            ≡ lookup_entry (Q.matches key) (entries_of (found_map self.entry).now) }
        ensures equal { MatchOption (raw_state result).place ⊤
            (PassesAt (Q.matches key) (entries_of (found_map self.entry).now)) }
        ensures distinct { IsEntries K.eq (entries_of (found_map self.entry).now) }
    {
        let RawEntryBuilderMut { map } = self;
        map.raw_entry_of(key)
    }

    /// Returns the place of the key. `hash` has to be the hash of the key. The call hashes nothing.
    #[inline(always)]
    pub fn from_key_hashed_nocheck<Q: Equivalent<K>>(
        self,
        hash: u64,
        key: Q,
    ) -> RawEntryMut<'a, K, V, S>
        requires { hash ≡ hash_with S.build_hasher S.Hasher.write S.Hasher.finish Q.hash_input
            (found_map self).now.hasher key }
        ensures same_map { (raw_map result).ghost_name ≡ (found_map self.entry).ghost_name }
        ensures unchanged { (raw_map result).now ≡ (found_map self.entry).now }
        ensures found { raw_state result ≡ raw_entry_match (Q.matches key)
            (state_of (found_map self.entry).now) }
        ensures pair { raw_pair (raw_state result)
            ≡ lookup_entry (Q.matches key) (entries_of (found_map self.entry).now) }
        ensures equal { MatchOption (raw_state result).place ⊤
            (PassesAt (Q.matches key) (entries_of (found_map self.entry).now)) }
        ensures distinct { IsEntries K.eq (entries_of (found_map self.entry).now) }
    {
        let RawEntryBuilderMut { map } = self;
        map.raw_entry_hashed_nocheck(hash, key)
    }

    /// Returns the place whose key has this hash and passes the test `is_match`. `is_match` has to be
    /// callable on each key in the map, and to distinguish the keys equal to one key of this hash from all
    /// others. The call hashes nothing.
    #[inline(always)]
    pub fn from_hash<F: Fn(&K) -> bool>(self, hash: u64, is_match: F) -> RawEntryMut<'a, K, V, S>
    where
        F: Drop,
        requires { (k : K) × Tells F.Fn K.eq
            (hash_with S.build_hasher S.Hasher.write S.Hasher.finish K.hash_input (found_map self).now.hasher)
            (keys_of (entries_of (found_map self).now)) is_match hash k }
        ensures same_map { (raw_map result).ghost_name ≡ (found_map self.entry).ghost_name }
        ensures unchanged { (raw_map result).now ≡ (found_map self.entry).now }
        ensures found { (k : K) → Tells F.Fn K.eq
            (hash_with S.build_hasher S.Hasher.write S.Hasher.finish K.hash_input
            (found_map self.entry).now.hasher) (keys_of (entries_of (found_map self.entry).now)) is_match
            hash k
            → raw_state result ≡ raw_entry_of K.eq (state_of (found_map self.entry).now) k }
        ensures pair { (k : K) → Tells F.Fn K.eq
            (hash_with S.build_hasher S.Hasher.write S.Hasher.finish K.hash_input
            (found_map self.entry).now.hasher) (keys_of (entries_of (found_map self.entry).now)) is_match
            hash k
            → raw_pair (raw_state result) ≡ lookup_entry (K.eq k) (entries_of (found_map self.entry).now) }
        ensures equal { (k : K) → Tells F.Fn K.eq
            (hash_with S.build_hasher S.Hasher.write S.Hasher.finish K.hash_input
            (found_map self.entry).now.hasher) (keys_of (entries_of (found_map self.entry).now)) is_match
            hash k
            → MatchOption (raw_state result).place ⊤
            (PassesAt (K.eq k) (entries_of (found_map self.entry).now)) }
        ensures distinct { IsEntries K.eq (entries_of (found_map self.entry).now) }
    {
        let RawEntryBuilderMut { map } = self;
        map.raw_entry_from_hash(hash, is_match)
    }
}
