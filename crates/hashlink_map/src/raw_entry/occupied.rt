//! Occupied raw entries. Each of their methods takes constant time, and none hashes or allocates.
ghost use Rattle.std.specs.Prelude.{◌≡◌, ◌-◌, length, slice_get, None, Some, Err, IfOk, IfErr, MatchResult};
ghost use Rattle.std.specs.{Borrow.sem, Map.Iter.deref_pair};
ghost use Rattle.hashlink_model.specs.{Lookups.{KeepsLookupsAt, UpdatesAt}, MapState.{RemovesAt, MovesAt}};
ghost use Rattle.hashlink_model.specs.Entry.{key_at, value_at, ReplacesKey, ReplacesValue, TakesEntry};
ghost use Rattle.hashlink_core.specs.{Keyed.{entries_of, state_of}, Places.Holds};

use crate::as_node::AsNode;
use crate::cursor::CursorMut;
use crate::map::LinkedHashMap;
use hashlink_core::{DefaultHashBuilder, Node};
use std::hash::{BuildHasher, Hash};

/// An occupied raw entry.
#[derive(Drop)]
pub struct RawOccupiedEntryMut<
    'a,
    K: Eq + Hash,
    V,
    S: BuildHasher = DefaultHashBuilder,
    N: AsNode = Node,
> {
    pub(crate) map: &'a mut LinkedHashMap<K, V, S>,
    pub(crate) node: N,
    // Where a search found the node in the table, or any number: a hint for a removal.
    pub(crate) slot: usize,
    ghost stands: { Holds map.now.nodes (N.node node) },
}

impl<'a, K: Eq + Hash, V, S: BuildHasher> RawOccupiedEntryMut<'a, K, V, S> {
    ghost use Rattle.hashlink_map.specs.RawEntry.{raw_occupied_map, raw_occupied_state, raw_place, raw_with};
    ghost use Rattle.hashlink_map.specs.RawLends.{LendsFromRaw, RawLendsForGood, RawRestsForGood};
    ghost use Rattle.hashlink_map.specs.{RawEntry.RawIsWritten, Cursor.{cursor_map, cursor_state}};
    ghost use Rattle.hashlink_map.specs.RawLends.{LendsPairOf};
    ghost use Rattle.hashlink_core.specs.Keyed.{EqualsKeyAt};

    /// Returns a reference to the stored key. It takes constant time.
    pub fn key(&self) -> &K
        ensures { key_at (raw_occupied_state self.now).map.entries (raw_place self.now) ≡ Some result.now }
    {
        self.map.pair_at(self.node).0
    }

    /// Returns a reference to the value. It takes constant time.
    #[inline]
    pub fn get(&self) -> &V
        ensures { value_at (raw_occupied_state self.now).map.entries (raw_place self.now) ≡ Some result.now }
    {
        self.map.pair_at(self.node).1
    }

    /// Returns the stored pair. It takes constant time.
    pub fn get_key_value(&self) -> (&K, &V)
        ensures { slice_get (raw_occupied_state self.now).map.entries (raw_place self.now)
            ≡ Some (deref_pair result) }
    {
        self.map.pair_at(self.node)
    }

    /// Returns a mutable reference to the value. It takes constant time.
    pub fn get_mut(&mut self) -> &mut V
        ensures* lends { sem 𝓛 (LendsFromRaw K.row V.row S.row S.Hasher.row self.entry result) }
        ensures value { value_at (raw_occupied_state self.old).map.entries (raw_place self.old)
            ≡ Some result.now }
        ensures written { (w : V) → RawIsWritten self.old w (raw_with self.old w) }
    {
        let node = self.node;
        self.map.value_at_mut(node)
    }

    /// Returns the stored key and a mutable reference to the value. It takes constant time.
    pub fn get_key_value_mut(&mut self) -> (&K, &mut V)
        ensures* lends { sem 𝓛 (LendsFromRaw K.row V.row S.row S.Hasher.row self.entry result.1) }
        ensures pair { slice_get (raw_occupied_state self.old).map.entries (raw_place self.old)
            ≡ Some (result.0.now, result.1.now) }
        ensures written { (w : V) → RawIsWritten self.old w (raw_with self.old w) }
    {
        let node = self.node;
        self.map.pair_at_mut(node)
    }

    /// Returns a mutable reference to the value for as long as the map is borrowed. It takes constant time.
    #[inline]
    pub fn into_mut(self) -> &'a mut V
        ensures* lends { sem 𝓛 (RawLendsForGood K.row V.row S.row S.Hasher.row self.entry result) }
        ensures value { value_at (raw_occupied_state self.entry).map.entries (raw_place self.entry)
            ≡ Some result.now }
        ensures written { (w : V) → RawIsWritten self.entry w (raw_with self.entry w) }
    {
        let RawOccupiedEntryMut { map, node, slot: _ } = self;
        map.value_at_mut(node)
    }

    /// Returns the stored key for as long as the map is borrowed. It takes constant time.
    pub fn into_key(self) -> &'a K
        ensures* unchanged { sem 𝓛 (RawRestsForGood K.row V.row S.row S.Hasher.row self.entry) }
        ensures key { key_at (raw_occupied_state self.entry).map.entries (raw_place self.entry)
            ≡ Some result.now }
    {
        let RawOccupiedEntryMut { map, node, slot: _ } = self;
        map.key_for_good(node)
    }

    /// Returns the stored key and a mutable reference to the value, for as long as the map is borrowed. It
    /// takes constant time.
    #[inline]
    pub fn into_key_value(self) -> (&'a K, &'a mut V)
        ensures* lends { sem 𝓛 (RawLendsForGood K.row V.row S.row S.Hasher.row self.entry result.1) }
        ensures pair { slice_get (raw_occupied_state self.entry).map.entries (raw_place self.entry)
            ≡ Some (result.0.now, result.1.now) }
    {
        let RawOccupiedEntryMut { map, node, slot: _ } = self;
        map.pair_at_mut(node)
    }

    /// Returns a cursor on this entry. It takes constant time.
    pub fn cursor_mut(self) -> CursorMut<'a, K, V, S>
        ensures same_map { (cursor_map result).ghost_name ≡ (raw_occupied_map self.entry).ghost_name }
        ensures unchanged { (cursor_map result).now ≡ (raw_occupied_map self.entry).now }
        ensures stands { (cursor_state result).place ≡ raw_place self.entry }
    {
        let RawOccupiedEntryMut { map, node, slot: _ } = self;
        CursorMut {
            map,
            place: Some(node),
        }
    }

    /// Returns the stored key of the entry and a mutable reference to its value, for as long as the map is
    /// borrowed, or the pair that was not inserted.
    pub(crate) fn pair_of(entered: Result<Self, (K, V)>) -> Result<(&'a K, &'a mut V), (K, V)>
        ensures* lends { sem 𝓛 (LendsPairOf K.row V.row S.row S.Hasher.row entered.entry result) }
        ensures pair { IfOk result (λ p. MatchResult entered.entry
            (λ o. slice_get (raw_occupied_state o).map.entries (raw_place o) ≡ Some (p.0.now, p.1.now))
            (λ _. ⊥)) }
        ensures handed_back { IfErr result (λ pair. entered.entry ≡ Err pair) }
    {
        match entered {
            Ok(entry) => Ok(entry.into_key_value()),
            Err(pair) => Err(pair),
        }
    }

    /// Moves the entry to the back. It stores at most six links.
    #[inline]
    pub fn to_back(&mut self)
        ensures same_map { (raw_occupied_map self.new).ghost_name ≡ (raw_occupied_map self.old).ghost_name }
        ensures moves { MovesAt (raw_occupied_state self.old).map (raw_occupied_state self.new).map
            (raw_place self.old) (length (raw_occupied_state self.old).map.entries) }
        ensures keeps { KeepsLookupsAt K.eq (raw_occupied_state self.old).map.entries
            (raw_occupied_state self.new).map.entries (raw_place self.old) }
        ensures stands { raw_place self.new ≡ length (raw_occupied_state self.old).map.entries - 1 }
    {
        let node = self.node;
        self.map.move_to_back(node);
    }

    /// Moves the entry to the front. It stores at most six links.
    pub fn to_front(&mut self)
        ensures same_map { (raw_occupied_map self.new).ghost_name ≡ (raw_occupied_map self.old).ghost_name }
        ensures moves { MovesAt (raw_occupied_state self.old).map (raw_occupied_state self.new).map
            (raw_place self.old) 0 }
        ensures keeps { KeepsLookupsAt K.eq (raw_occupied_state self.old).map.entries
            (raw_occupied_state self.new).map.entries (raw_place self.old) }
        ensures stands { raw_place self.new ≡ 0 }
    {
        let node = self.node;
        self.map.move_to_front(node);
    }

    /// Replaces the value, and returns the old one. The entry keeps its place. It stores no link.
    pub fn replace_value(&mut self, value: V) -> V
        ensures same_map { (raw_occupied_map self.new).ghost_name ≡ (raw_occupied_map self.old).ghost_name }
        ensures replaces { ReplacesValue (raw_occupied_state self.old).map (raw_occupied_state self.new).map
            (raw_place self.old) value result }
        ensures updates { UpdatesAt K.eq (raw_occupied_state self.old).map.entries
            (raw_occupied_state self.new).map.entries (raw_place self.old) (Some value) }
        ensures stands { raw_place self.new ≡ raw_place self.old }
    {
        let node = self.node;
        self.map.replace_value_at(node, value)
    }

    /// Replaces the stored key by one that has to be equal to it, and returns the old one. The entry keeps
    /// its place and its value. It stores no link.
    pub fn replace_key(&mut self, key: K) -> K
        requires { EqualsKeyAt K.eq (raw_occupied_state self.old).map.entries (raw_place self.old) key }
        ensures same_map { (raw_occupied_map self.new).ghost_name ≡ (raw_occupied_map self.old).ghost_name }
        ensures replaces { ReplacesKey (raw_occupied_state self.old).map (raw_occupied_state self.new).map
            (raw_place self.old) key result }
        ensures keeps { KeepsLookupsAt K.eq (raw_occupied_state self.old).map.entries
            (raw_occupied_state self.new).map.entries (raw_place self.old) }
        ensures stands { raw_place self.new ≡ raw_place self.old }
    {
        let node = self.node;
        self.map.replace_key_at(node, key)
    }
}

impl<'a, K: Eq + Hash, V, S: BuildHasher, N: AsNode> RawOccupiedEntryMut<'a, K, V, S, N> {
    ghost use Rattle.hashlink_map.specs.RawEntry.{raw_place, raw_occupied_state};

    /// Removes the entry and returns its value. The key is dropped. It stores at most three links.
    #[inline(always)]
    pub fn remove(self) -> V
    where
        K: Drop,
        ensures value { value_at (raw_occupied_state self.entry).map.entries (raw_place self.entry)
            ≡ Some result }
        ensures removes { RemovesAt (raw_occupied_state self.entry).map (state_of self.exit.0.now)
            (raw_place self.entry) }
        ensures updates { UpdatesAt K.eq (raw_occupied_state self.entry).map.entries
            (entries_of self.exit.0.now) (raw_place self.entry) None }
    {
        self.remove_entry().1
    }

    /// Removes the entry and returns its pair. It stores at most three links.
    #[inline(always)]
    pub fn remove_entry(self) -> (K, V)
        ensures takes { TakesEntry (raw_occupied_state self.entry).map (state_of self.exit.0.now)
            (raw_place self.entry) result }
        ensures updates { UpdatesAt K.eq (raw_occupied_state self.entry).map.entries
            (entries_of self.exit.0.now) (raw_place self.entry) None }
    {
        let node = self.node;
        let slot = self.slot;
        let map = &mut *self.map;
        map.list.remove(node.as_node(), Some(slot))
    }
}
