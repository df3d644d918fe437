//! The methods of `CursorMut`.
ghost use Rattle.std.specs.Prelude.{◌≡◌, IfOk, IfErr, IfSome, IfNone, OnOk, Some, length, slice_get};
ghost use Rattle.std.specs.{Borrow.sem, Option.{option_map, option_copied_mut}, Map.Iter.deref_pair};
ghost use Rattle.hashlink_model.specs.Cursor.{at_place, entry_in, place_next, place_previous, InsertsBefore};
ghost use Rattle.hashlink_model.specs.{Cursor.InsertsAfter, Entry.value_at, Lookups.Updates};
ghost use Rattle.hashlink_core.specs.{Keyed.entries_of, Places.{Holds, IsPlace, place_number}};

use super::CursorMut;
use crate::raw_entry::RawOccupiedEntryMut;
use hashlink_core::{NO_SLOT, Node};
use std::hash::{BuildHasher, Hash};

impl<'a, K: Eq + Hash, V, S: BuildHasher> CursorMut<'a, K, V, S> {
    ghost use Rattle.hashlink_map.specs.CursorLends.{LendsFromCursor, LendsPairFromCursor, LendsAtCursorNode};
    ghost use Rattle.hashlink_map.specs.Cursor.{cursor_map, cursor_state, lent_pair, TakesPlace, LentAt};
    ghost use Rattle.hashlink_map.specs.CursorLends.{LendsNextPair, LendsPreviousPair};
    ghost use Rattle.hashlink_map.specs.{RawLends.HandsOnOccupied, RawEntry.{raw_occupied_map, raw_place}};

    /// Moves to the next place: from the entry at the back to the guard, and from the guard to the entry at
    /// the front. It takes constant time, hashes nothing and stores no link.
    #[inline(always)]
    pub fn move_next(&mut self)
        ensures same_map { (cursor_map self.new).ghost_name ≡ (cursor_map self.old).ghost_name }
        ensures unchanged { (cursor_map self.new).now ≡ (cursor_map self.old).now }
        ensures moves { cursor_state self.new ≡ at_place (cursor_state self.old)
            (place_next (cursor_state self.old)) }
    {
        let map = &*self.map;
        self.place = map.list.next(self.place);
    }

    /// Moves to the previous place: from the entry at the front to the guard, and from the guard to the entry
    /// at the back. It takes constant time, hashes nothing and stores no link.
    #[inline(always)]
    pub fn move_prev(&mut self)
        ensures same_map { (cursor_map self.new).ghost_name ≡ (cursor_map self.old).ghost_name }
        ensures unchanged { (cursor_map self.new).now ≡ (cursor_map self.old).now }
        ensures moves { cursor_state self.new
            ≡ at_place (cursor_state self.old) (place_previous (cursor_state self.old)) }
    {
        let map = &*self.map;
        self.place = map.list.prev(self.place);
    }

    /// Returns the pair of the node.
    #[inline(always)]
    fn pair_at_node(&mut self, node: Node) -> (&K, &mut V)
        requires { Holds (cursor_map self.old).now.nodes node }
        ensures* lends { sem 𝓛 (LendsAtCursorNode K.row V.row S.row S.Hasher.row self.entry node result.1) }
        ensures pair { slice_get (entries_of (cursor_map self.old).now)
            (place_number (cursor_map self.old).now.nodes (Some node)) ≡ Some (lent_pair result) }
    {
        self.map.pair_at_mut(node)
    }

    /// Returns the pair at the place, or `None` at the guard.
    #[inline(always)]
    fn pair_at(&mut self, place: Option<Node>) -> Option<(&K, &mut V)>
        requires { IsPlace (cursor_map self.old).now.nodes place }
        ensures* lends { sem 𝓛 (LendsPairFromCursor K.row V.row S.row S.Hasher.row self.entry
            (place_number (cursor_map self.old).now.nodes place) result) }
        ensures pair { LentAt (cursor_state self.old)
            (place_number (cursor_map self.old).now.nodes place) result }
    {
        match place {
            Some(node) => Some(self.pair_at_node(node)),
            None => None,
        }
    }

    /// Returns the cursor and its place.
    #[inline(always)]
    fn with_place(&mut self) -> (&mut Self, Option<Node>)
        ensures { TakesPlace self.entry (cursor_state self.old).place result }
    {
        let place = self.place;
        (self, place)
    }

    /// Returns the key at the cursor and a mutable reference to its value, or `None` at the guard. It takes
    /// constant time and hashes nothing.
    #[inline(always)]
    pub fn current(&mut self) -> Option<(&K, &mut V)>
        ensures* lends { sem 𝓛 (LendsPairFromCursor K.row V.row S.row S.Hasher.row self.entry
            (cursor_state self.old).place result) }
        ensures pair { LentAt (cursor_state self.old) (cursor_state self.old).place result }
    {
        let (cursor, place) = self.with_place();
        cursor.pair_at(place)
    }

    /// Returns the cursor and the place after its own.
    #[inline(always)]
    fn with_next(&mut self) -> (&mut Self, Option<Node>)
        ensures { TakesPlace self.entry (place_next (cursor_state self.old)) result }
    {
        let map = &*self.map;
        let next = map.list.next(self.place);
        (self, next)
    }

    /// Returns the key at the next place and a mutable reference to its value, or `None` at the guard. It
    /// takes constant time and hashes nothing.
    #[inline(always)]
    pub fn peek_next(&mut self) -> Option<(&K, &mut V)>
        ensures* lends { sem 𝓛 (LendsNextPair K.row V.row S.row S.Hasher.row self.entry result) }
        ensures pair { LentAt (cursor_state self.old) (place_next (cursor_state self.old)) result }
    {
        let (cursor, place) = self.with_next();
        cursor.pair_at(place)
    }

    /// Returns the cursor and the place before its own.
    #[inline(always)]
    fn with_previous(&mut self) -> (&mut Self, Option<Node>)
        ensures { TakesPlace self.entry (place_previous (cursor_state self.old)) result }
    {
        let map = &*self.map;
        let previous = map.list.prev(self.place);
        (self, previous)
    }

    /// Returns the key at the previous place and a mutable reference to its value, or `None` at the guard. It
    /// takes constant time and hashes nothing.
    #[inline(always)]
    pub fn peek_prev(&mut self) -> Option<(&K, &mut V)>
        ensures* lends { sem 𝓛 (LendsPreviousPair K.row V.row S.row S.Hasher.row self.entry result) }
        ensures pair { LentAt (cursor_state self.old) (place_previous (cursor_state self.old)) result }
    {
        let (cursor, place) = self.with_previous();
        cursor.pair_at(place)
    }

    /// Returns a mutable reference to the value at the cursor, or `None` at the guard. It takes constant time
    /// and hashes nothing. Unlike with `current`, a caller can prove exactly what the map is afterwards.
    #[inline(always)]
    pub fn current_value(&mut self) -> Option<&mut V>
        ensures* lends { sem 𝓛 (LendsFromCursor K.row V.row S.row S.Hasher.row self.entry
            (cursor_state self.old).place result) }
        ensures value { option_copied_mut result
            ≡ value_at (cursor_state self.old).map.entries (cursor_state self.old).place }
    {
        match self.place {
            Some(node) => Some(self.map.value_at_mut(node)),
            None => None,
        }
    }

    /// Returns the entry at the cursor. At the guard it returns the cursor in `Err`. It takes constant time
    /// and hashes nothing.
    pub fn current_entry(self) -> Result<RawOccupiedEntryMut<'a, K, V, S>, Self>
        ensures entry { IfOk result
            (λ o. ((raw_occupied_map o).ghost_name ≡ (cursor_map self.entry).ghost_name)
            × ((raw_occupied_map o).now ≡ (cursor_map self.entry).now)
            × (raw_place o ≡ (cursor_state self.entry).place)) }
        ensures guard { IfErr result (λ c. ((cursor_map c).ghost_name ≡ (cursor_map self.entry).ghost_name)
            × ((cursor_map c).now ≡ (cursor_map self.entry).now)
            × (cursor_state c ≡ cursor_state self.entry)
            × ((cursor_state self.entry).place ≡ length (cursor_state self.entry).map.entries)) }
    {
        let CursorMut { map, place } = self;
        match place {
            Some(node) => Ok(RawOccupiedEntryMut {
                map,
                node,
                slot: NO_SLOT,
            }),
            None => Err(CursorMut { map, place: None }),
        }
    }

    /// Returns the entry at the cursor, or `None` at the guard. It takes constant time and hashes nothing.
    /// Unlike with `current_entry`, a caller can prove exactly what the map is afterwards.
    pub fn into_entry(self) -> Option<RawOccupiedEntryMut<'a, K, V, S>>
        ensures* hands_on { sem 𝓛 (HandsOnOccupied K.row V.row S.row S.Hasher.row
            (cursor_map self.entry) result) }
        ensures same_map { IfSome result
            (λ o. (raw_occupied_map o).ghost_name ≡ (cursor_map self.entry).ghost_name) }
        ensures unchanged { IfSome result (λ o. (raw_occupied_map o).now ≡ (cursor_map self.entry).now) }
        ensures stands { IfSome result (λ o. raw_place o ≡ (cursor_state self.entry).place) }
        ensures guard { IfNone result
            ((cursor_state self.entry).place ≡ length (cursor_state self.entry).map.entries) }
    {
        let CursorMut { map, place } = self;
        let node = place?;
        Some(RawOccupiedEntryMut {
            map,
            node,
            slot: NO_SLOT,
        })
    }

    /// Returns the entry at the cursor, or `None` at the guard. It takes constant time and hashes nothing.
    #[inline(always)]
    pub fn current_pair(&self) -> Option<(&K, &V)>
        ensures { option_map deref_pair result ≡ entry_in (cursor_state self.now)
            (cursor_state self.now).place }
    {
        self.map.pair_at_place(self.place)
    }

    /// Returns the entry at the next place, or `None` at the guard. It takes constant time and hashes
    /// nothing.
    #[inline(always)]
    pub fn next_pair(&self) -> Option<(&K, &V)>
        ensures { option_map deref_pair result
            ≡ entry_in (cursor_state self.now) (place_next (cursor_state self.now)) }
    {
        let map = &*self.map;
        map.pair_at_place(map.list.next(self.place))
    }

    /// Returns the entry at the previous place, or `None` at the guard. It takes constant time and hashes
    /// nothing.
    #[inline(always)]
    pub fn prev_pair(&self) -> Option<(&K, &V)>
        ensures { option_map deref_pair result
            ≡ entry_in (cursor_state self.now) (place_previous (cursor_state self.now)) }
    {
        let map = &*self.map;
        map.pair_at_place(map.list.prev(self.place))
    }

    /// Inserts the pair directly before the cursor, and returns the old value of the key if there was one. At
    /// the guard, the pair goes to the back. If the key is present, its entry keeps the stored key, takes the
    /// new value and moves directly before the cursor. If the cursor is on this entry, the entry does not
    /// move. The cursor stays on its entry, even if the index changes, or on the guard. The call looks the
    /// key up as `get` does. It stores at most six links if the key is present, and four if it is absent.
    ///
    /// It allocates only if the key is absent and no node is free. A full table then grows first, in linear
    /// time in the new capacity. If an allocation fails, it returns the pair in `Err` and changes no entry;
    /// the room may have grown.
    #[inline(always)]
    pub fn insert_before(&mut self, key: K, value: V) -> Result<Option<V>, (K, V)>
    where
        K: Drop,
        ensures same_map { (cursor_map self.new).ghost_name ≡ (cursor_map self.old).ghost_name }
        ensures inserts { InsertsBefore K.eq (cursor_state self.old)
            (cursor_state self.new) key value result }
        ensures updates { OnOk result (Updates K.eq (cursor_state self.old).map.entries
            (cursor_state self.new).map.entries key (Some value)) }
    {
        let place = self.place;
        self.map.insert_at(place, key, value)
    }

    /// Inserts the pair directly after the cursor, as `insert_before` does before it, and at the same cost.
    /// At the guard, the pair goes to the front. If an allocation fails, it returns the pair in `Err` and
    /// changes no entry; the room may have grown.
    #[inline(always)]
    pub fn insert_after(&mut self, key: K, value: V) -> Result<Option<V>, (K, V)>
    where
        K: Drop,
        ensures same_map { (cursor_map self.new).ghost_name ≡ (cursor_map self.old).ghost_name }
        ensures inserts { InsertsAfter K.eq (cursor_state self.old) (cursor_state self.new) key value result }
        ensures updates { OnOk result (Updates K.eq (cursor_state self.old).map.entries
            (cursor_state self.new).map.entries key (Some value)) }
    {
        let map = &*self.map;
        let place = map.list.next(self.place);
        self.map.insert_at(place, key, value)
    }
}
