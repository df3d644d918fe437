//! Occupied entries. Each of their methods takes constant time, and none hashes or allocates.
ghost use Rattle.std.specs.{Prelude.{◌≡◌, ◌-◌, length, None, Some, IfOk}, Borrow.sem};
ghost use Rattle.hashlink_model.specs.Entry.{key_at, value_at, InsertsValue, InsertsEntry, ReplacesEntry};
ghost use Rattle.hashlink_model.specs.Lookups.{KeepsLookups, Updates, UpdatesLast};
ghost use Rattle.hashlink_model.specs.{MapState.{RemovesAt, MovesAt}, Entry.{ReplacesKey, TakesEntry}};
ghost use Rattle.hashlink_core.specs.Keyed.{entries_of, state_of, HoldsKey};

use crate::as_node::AsNode;
use crate::cursor::CursorMut;
use crate::map::LinkedHashMap;
use crate::raw_entry::RawOccupiedEntryMut;
use hashlink_core::{DefaultHashBuilder, Node};
use std::hash::{BuildHasher, Hash};

/// An occupied entry. It holds the given key, which equals the stored one.
///
/// No contract covers an occupied entry that is dropped. So to prove what the map is afterwards, a caller
/// that is generic in the key ends the entry by `into_key` or by another method that takes it by value.
#[derive(Drop)]
pub struct OccupiedEntry<
    'a,
    K: Eq + Hash,
    V,
    S: BuildHasher = DefaultHashBuilder,
    N: AsNode = Node,
> {
    pub(crate) map: &'a mut LinkedHashMap<K, V, S>,
    pub(crate) node: N,
    // Where the search found the node in the table: a hint for a removal.
    pub(crate) slot: usize,
    pub(crate) key: K,
    ghost stands: { HoldsKey K.eq map.now.nodes key (N.node node) },
}

impl<'a, K: Eq + Hash, V, S: BuildHasher> OccupiedEntry<'a, K, V, S> {
    ghost use Rattle.hashlink_map.specs.Entry.{occupied_map, occupied_place, occupied_state, occupied_with};
    ghost use Rattle.hashlink_map.specs.{Entry.{StandsAt, IsWritten}, Cursor.{cursor_map, cursor_state}};
    ghost use Rattle.hashlink_map.specs.RawEntry.{raw_occupied_map, raw_place};
    ghost use Rattle.hashlink_map.specs.EntryLends.{LendsFromOccupied, LendsForGood, LendsLast};

    /// Returns a reference to the stored key, which may be a different object from the given key. It takes
    /// constant time.
    pub fn key(&self) -> &K
        ensures { key_at (occupied_state self.now).map.entries (occupied_place self.now) ≡ Some result.now }
    {
        self.map.pair_at(self.node).0
    }

    /// Returns a reference to the value. It takes constant time.
    #[inline]
    pub fn get(&self) -> &V
        ensures { value_at (occupied_state self.now).map.entries (occupied_place self.now) ≡ Some result.now }
    {
        self.map.pair_at(self.node).1
    }

    /// Returns a mutable reference to the value. It takes constant time.
    pub fn get_mut(&mut self) -> &mut V
        ensures* lends { sem 𝓛 (LendsFromOccupied K.row V.row S.row S.Hasher.row self.entry result) }
        ensures value { value_at (occupied_state self.old).map.entries (occupied_place self.old)
            ≡ Some result.now }
        ensures written { (w : V) → IsWritten self.old w (occupied_with self.old w) }
    {
        let node = self.node;
        self.map.value_at_mut(node)
    }

    /// Returns a mutable reference to the value for as long as the map is borrowed. It takes constant time.
    #[inline]
    pub fn into_mut(self) -> &'a mut V
    where
        K: Drop,
        ensures* lends { sem 𝓛 (LendsForGood K.row V.row S.row S.Hasher.row self.entry result) }
        ensures value { value_at (occupied_state self.entry).map.entries (occupied_place self.entry)
            ≡ Some result.now }
        ensures written { (w : V) → IsWritten self.entry w (occupied_with self.entry w) }
    {
        let OccupiedEntry {
            map,
            node,
            slot: _,
            key: _,
        } = self;
        map.value_at_mut(node)
    }

    /// Moves the entry to the back, and returns a mutable reference to its value for as long as the map is
    /// borrowed. It never returns an `Err`. It returns a `Result` so that a clause can describe the map
    /// afterwards by a relation. For a bare reference, the clause would need a function.
    #[inline]
    pub(crate) fn into_last_mut<E>(self) -> Result<&'a mut V, E>
    where
        K: Drop,
        ensures* lends { sem 𝓛 (LendsLast K.row V.row S.row S.Hasher.row self.entry result) }
        ensures value { IfOk result
            (λ v. value_at (occupied_state self.entry).map.entries (occupied_place self.entry) ≡ Some v.now) }
        ensures updates { IfOk result (λ _. UpdatesLast K.eq (occupied_state self.entry).map.entries
            (occupied_state self.entry).key) }
    {
        let OccupiedEntry {
            map,
            node,
            slot: _,
            key: _,
        } = self;
        map.move_to_back(node);
        Ok(map.value_at_mut(node))
    }

    /// Moves the entry to the back. It stores at most six links.
    #[inline]
    pub fn to_back(&mut self)
        ensures same_map { (occupied_map self.new).ghost_name ≡ (occupied_map self.old).ghost_name }
        ensures moves { MovesAt (occupied_state self.old).map (occupied_state self.new).map
            (occupied_place self.old) (length (occupied_state self.old).map.entries) }
        ensures keeps { KeepsLookups K.eq (K.eq (occupied_state self.old).key)
            (occupied_state self.old).map.entries (occupied_state self.new).map.entries }
        ensures stands { StandsAt self.old self.new (length (occupied_state self.old).map.entries - 1) }
    {
        let node = self.node;
        self.map.move_to_back(node);
    }

    /// Moves the entry to the front. It stores at most six links.
    pub fn to_front(&mut self)
        ensures same_map { (occupied_map self.new).ghost_name ≡ (occupied_map self.old).ghost_name }
        ensures moves { MovesAt (occupied_state self.old).map (occupied_state self.new).map
            (occupied_place self.old) 0 }
        ensures keeps { KeepsLookups K.eq (K.eq (occupied_state self.old).key)
            (occupied_state self.old).map.entries (occupied_state self.new).map.entries }
        ensures stands { StandsAt self.old self.new 0 }
    {
        let node = self.node;
        self.map.move_to_front(node);
    }

    /// Replaces the value, moves the entry to the back, and returns the old value. The stored key stays. It
    /// stores at most six links.
    #[inline]
    pub fn insert(&mut self, value: V) -> V
        ensures same_map { (occupied_map self.new).ghost_name ≡ (occupied_map self.old).ghost_name }
        ensures inserts { InsertsValue (occupied_state self.old).map (occupied_state self.new).map
            (occupied_place self.old) value result }
        ensures updates { Updates K.eq (occupied_state self.old).map.entries
            (occupied_state self.new).map.entries (occupied_state self.old).key (Some value) }
        ensures stands { StandsAt self.old self.new (length (occupied_state self.old).map.entries - 1) }
    {
        let node = self.node;
        let old = self.map.replace_value_at(node, value);
        self.map.move_to_back(node);
        old
    }

    /// Replaces the pair by the given key and the value, moves the entry to the back, and returns the old
    /// pair. It stores at most six links.
    pub fn insert_entry(self, value: V) -> (K, V)
        ensures inserts { InsertsEntry (occupied_state self.entry).map (state_of self.exit.0.now)
            (occupied_place self.entry) (occupied_state self.entry).key value result }
        ensures updates { Updates K.eq (occupied_state self.entry).map.entries
            (entries_of self.exit.0.now) (occupied_state self.entry).key (Some value) }
    {
        let node = self.node;
        let key = self.key;
        let old = self.map.replace_pair_at(node, key, value);
        self.map.move_to_back(node);
        old
    }

    /// Replaces the pair by the given key and the value, and returns the old pair. The entry keeps its place.
    /// It stores no link.
    pub fn replace_entry(self, value: V) -> (K, V)
        ensures replaces { ReplacesEntry (occupied_state self.entry).map (state_of self.exit.0.now)
            (occupied_place self.entry) (occupied_state self.entry).key value result }
        ensures updates { Updates K.eq (occupied_state self.entry).map.entries
            (entries_of self.exit.0.now) (occupied_state self.entry).key (Some value) }
    {
        let node = self.node;
        let key = self.key;
        self.map.replace_pair_at(node, key, value)
    }

    /// Replaces the stored key by the given key, and returns the old key. The entry keeps its place and its
    /// value. It stores no link.
    #[inline]
    pub fn replace_key(self) -> K
        ensures replaces { ReplacesKey (occupied_state self.entry).map (state_of self.exit.0.now)
            (occupied_place self.entry) (occupied_state self.entry).key result }
        ensures keeps { KeepsLookups K.eq (K.eq (occupied_state self.entry).key)
            (occupied_state self.entry).map.entries (entries_of self.exit.0.now) }
    {
        let node = self.node;
        let key = self.key;
        self.map.replace_key_at(node, key)
    }

    /// Returns the given key, and ends the entry. The map does not change. It takes constant time.
    pub fn into_key(self) -> K
        ensures key { result ≡ (occupied_state self.entry).key }
        ensures unchanged { self.exit.0.now ≡ (occupied_map self.entry).now }
    {
        let OccupiedEntry {
            map: _,
            node: _,
            slot: _,
            key,
        } = self;
        key
    }

    /// Returns a cursor on this entry. The given key is dropped. It takes constant time.
    pub fn cursor_mut(self) -> CursorMut<'a, K, V, S>
    where
        K: Drop,
        ensures same_map { (cursor_map result).ghost_name ≡ (occupied_map self.entry).ghost_name }
        ensures unchanged { (cursor_map result).now ≡ (occupied_map self.entry).now }
        ensures stands { (cursor_state result).place ≡ occupied_place self.entry }
    {
        let OccupiedEntry {
            map,
            node,
            slot: _,
            key: _,
        } = self;
        CursorMut {
            map,
            place: Some(node),
        }
    }

    /// Returns the raw entry at this place. The given key is dropped. It takes constant time.
    pub fn raw_entry_mut(self) -> RawOccupiedEntryMut<'a, K, V, S>
    where
        K: Drop,
        ensures same_map { (raw_occupied_map result).ghost_name ≡ (occupied_map self.entry).ghost_name }
        ensures unchanged { (raw_occupied_map result).now ≡ (occupied_map self.entry).now }
        ensures stands { raw_place result ≡ occupied_place self.entry }
    {
        let OccupiedEntry {
            map,
            node,
            slot,
            key: _,
        } = self;
        RawOccupiedEntryMut { map, node, slot }
    }

    /// Removes the entry and returns its value. The given key and the stored key are dropped. It stores at
    /// most three links.
    #[inline(always)]
    pub fn remove(self) -> V
    where
        K: Drop,
        ensures value { value_at (occupied_state self.entry).map.entries (occupied_place self.entry)
            ≡ Some result }
        ensures removes { RemovesAt (occupied_state self.entry).map (state_of self.exit.0.now)
            (occupied_place self.entry) }
        ensures updates { Updates K.eq (occupied_state self.entry).map.entries
            (entries_of self.exit.0.now) (occupied_state self.entry).key None }
    {
        self.remove_entry().1
    }

    /// Removes the entry and returns the stored pair. The given key is dropped. It stores at most three
    /// links.
    #[inline(always)]
    pub fn remove_entry(self) -> (K, V)
    where
        K: Drop,
        ensures takes { TakesEntry (occupied_state self.entry).map (state_of self.exit.0.now)
            (occupied_place self.entry) result }
        ensures updates { Updates K.eq (occupied_state self.entry).map.entries
            (entries_of self.exit.0.now) (occupied_state self.entry).key None }
    {
        let node = self.node;
        let slot = self.slot;
        let map = &mut *self.map;
        map.list.remove(node, Some(slot))
    }
}
