//! `entry`, and the methods of `Entry`.
ghost use Rattle.std.specs.{Prelude.{◌≡◌, None, Some, Ok, IfOk, IfErr, unwrap_or}, Borrow.{sem, MutBor}};
ghost use Rattle.std.specs.{Option.UnwrapsOrElse, Map.lookup};
ghost use Rattle.hashlink_model.specs.{Entries.{IsEntries, stored_key}, Entry.entry_of, Lookups.UpdatesLast};
ghost use Rattle.hashlink_core.specs.Keyed.{state_of, entries_of};
ghost use Rattle.hashlink_map.specs.Entry.{entry_map, entry_state, entry_value, Modifies};
ghost use Rattle.hashlink_map.specs.{EntryLends.{LendsOrNew, LendsOrTryNew}, TryInsert.HandsBack};

use super::{Entry, OccupiedEntry, VacantEntry};
use crate::map::LinkedHashMap;
use crate::try_insert_error::TryInsertError;
use std::alloc::Global;
use std::default::MadeWith;
use std::hash::{BuildHasher, Hash};

impl<K: Eq + Hash, V, S: BuildHasher> LinkedHashMap<K, V, S> {
    /// Returns the entry of the key. It looks the key up as `get` does, and hashes it once. The methods of
    /// the entry hash nothing.
    #[inline(always)]
    pub fn entry(&mut self, key: K) -> Entry<'_, K, V, S>
        ensures same_map { (entry_map result).ghost_name ≡ self.entry.ghost_name }
        ensures unchanged { (entry_map result).now ≡ self.old }
        ensures entry { entry_state result ≡ entry_of K.eq (state_of self.old) key }
        ensures value { entry_value (entry_state result) ≡ lookup (K.eq key) (entries_of self.old) }
        ensures distinct { IsEntries K.eq (entries_of self.old) }
    {
        let hash = self.list.hash_of(&key);
        match self.list.find(hash, &key) {
            Some(found) => Entry::Occupied(OccupiedEntry {
                map: self,
                node: found.node,
                slot: found.slot,
                key,
            }),
            None => Entry::Vacant(VacantEntry {
                map: self,
                hash,
                key,
            }),
        }
    }
}

impl<'a, K: Eq + Hash, V, S: BuildHasher> Entry<'a, K, V, S> {
    /// Returns a reference to the stored key if the entry is occupied, and to the given key if it is vacant.
    /// It takes constant time.
    pub fn key(&self) -> &K
        ensures { result.now ≡ stored_key K.eq (entry_state self.now).map.entries (entry_state self.now).key }
    {
        match self {
            Entry::Occupied(entry) => entry.key(),
            Entry::Vacant(entry) => entry.key(),
        }
    }

    /// Returns a mutable reference to the value. An occupied entry moves to the back. A vacant one inserts
    /// the given key with `default` at the back. So the map ends as an `insert` of the written value leaves
    /// it. It hashes nothing, and stores at most six links if the entry is occupied and four if it is vacant.
    ///
    /// It allocates only if the entry is vacant and no node is free. A full table then grows first, in linear
    /// time in the new capacity. If an allocation fails, it returns the given key and `default` in `Err` and
    /// changes no entry; the room may have grown.
    pub fn or_insert(self, default: V) -> Result<&'a mut V, (K, V)>
    where
        K: Drop,
        V: Drop,
        ensures* lends { sem 𝓛 (LendsOrNew K.row V.row S.row S.Hasher.row self.entry result) }
        ensures value { IfOk result (λ v. v.now ≡ unwrap_or (entry_value (entry_state self.entry)) default) }
        ensures updates { IfOk result (λ _. UpdatesLast K.eq (entry_state self.entry).map.entries
            (entry_state self.entry).key) }
        ensures handed_back { IfErr result (λ pair. pair ≡ ((entry_state self.entry).key, default)) }
    {
        let make = move || -> V
            ensures { result ≡ default }
        { default };
        self.or_insert_with(make)
    }

    /// Does the same as `or_insert` with the value that `default` returns. It calls `default` only if the
    /// entry is vacant, and `default` then has to be callable. If an allocation fails, it returns the given
    /// key and the value that was made in `Err` and changes no entry; the room may have grown.
    pub fn or_insert_with<F: FnOnce() -> V>(self, default: F) -> Result<&'a mut V, (K, V)>
    where
        K: Drop,
        F: Drop,
        requires { entry_value (entry_state self) ≡ None → F.pre default }
        ensures* lends { sem 𝓛 (LendsOrNew K.row V.row S.row S.Hasher.row self.entry result) }
        ensures value { IfOk result
            (λ v. UnwrapsOrElse (entry_value (entry_state self.entry)) (F.post default) v.now) }
        ensures updates { IfOk result (λ _. UpdatesLast K.eq (entry_state self.entry).map.entries
            (entry_state self.entry).key) }
        ensures handed_back { IfErr result (λ pair. pair.0 ≡ (entry_state self.entry).key) }
        ensures made { IfErr result (λ pair. F.post default pair.1) }
    {
        match self {
            Entry::Occupied(entry) => entry.into_last_mut(),
            Entry::Vacant(entry) => entry.insert(default()),
        }
    }

    /// Does the same as `or_insert` with the default value of its type, which it makes only if the entry is
    /// vacant. For a number this is 0, for a collection an empty one with the map's allocator. If an
    /// allocation fails, it returns the given key and this value in `Err` and changes no entry; the room may
    /// have grown.
    pub fn or_default(self) -> Result<&'a mut V, (K, V)>
    where
        K: Drop,
        V: MadeWith<Global>,
        ensures* lends { sem 𝓛 (LendsOrNew K.row V.row S.row S.Hasher.row self.entry result) }
        ensures value { IfOk result
            (λ v. UnwrapsOrElse (entry_value (entry_state self.entry)) V.is_made_with v.now) }
        ensures updates { IfOk result (λ _. UpdatesLast K.eq (entry_state self.entry).map.entries
            (entry_state self.entry).key) }
        ensures handed_back { IfErr result (λ pair. pair.0 ≡ (entry_state self.entry).key) }
        ensures made { IfErr result (λ pair. V.is_made_with pair.1) }
    {
        match self {
            Entry::Occupied(entry) => entry.into_last_mut(),
            Entry::Vacant(entry) => {
                let default = V::made_with(entry.map.allocator());
                entry.insert(default)
            }
        }
    }

    /// Does the same as `or_insert` with the value that `default` returns. It calls `default` only if the
    /// entry is vacant, and `default` then has to be callable. If `default` fails, the call returns its error
    /// and the given key in `TryInsertError::Make`, and changes nothing.
    ///
    /// It allocates only if the entry is vacant and no node is free. A full table then grows first, in linear
    /// time in the new capacity. If an allocation fails, it returns the given key and the value that was made
    /// in `TryInsertError::Memory`, and changes no entry; the room may have grown.
    pub fn or_try_insert_with<E, F: FnOnce() -> Result<V, E>>(
        self,
        default: F,
    ) -> Result<&'a mut V, TryInsertError<K, V, E>>
    where
        K: Drop,
        F: Drop,
        requires { entry_value (entry_state self) ≡ None → F.pre default }
        ensures* lends { sem 𝓛 (LendsOrTryNew K.row V.row S.row S.Hasher.row self.entry result) }
        ensures value { IfOk result
            (λ v. UnwrapsOrElse (entry_value (entry_state self.entry)) (λ x. F.post default (Ok x)) v.now) }
        ensures updates { IfOk result (λ _. UpdatesLast K.eq (entry_state self.entry).map.entries
            (entry_state self.entry).key) }
        ensures handed_back { IfErr result (HandsBack (F.post default) (entry_state self.entry).key) }
    {
        match self {
            Entry::Occupied(entry) => entry.into_last_mut(),
            Entry::Vacant(entry) => entry.try_insert(default()),
        }
    }

    /// Calls `f` on the value if the entry is occupied, and returns the entry. Nothing moves. `f` then has to
    /// be callable on the value. Apart from `f`, the call hashes nothing and does not allocate.
    pub fn and_modify<F: FnOnce(&mut V)>(self, f: F) -> Self
    where
        F: Drop,
        requires { (p : MutBor V) → entry_value (entry_state self) ≡ Some p.now → F.pre f p }
        ensures same_map { (entry_map result).ghost_name ≡ (entry_map self.entry).ghost_name }
        ensures modifies { Modifies F.FnOnce f (entry_state self.entry) (entry_state result) }
    {
        match self {
            Entry::Occupied(mut entry) => {
                f(entry.get_mut());
                Entry::Occupied(entry)
            }
            Entry::Vacant(entry) => Entry::Vacant(entry),
        }
    }
}
