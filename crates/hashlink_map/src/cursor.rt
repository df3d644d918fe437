//! Cursors. A cursor is on an entry of a map or on the guard, which is between the last entry and the first.
//! A clause sees a cursor as the map's state and the index of its place. The index of the guard is the
//! length.
ghost use Rattle.std.specs.{Prelude.{◌≡◌, ◌-◌, length}, Option.option_map};
ghost use Rattle.hashlink_core.specs.{Keyed.entries_of, Places.IsPlace};
ghost use Rattle.hashlink_map.specs.Standing.{IsPlace-prop};

use crate::as_node::AsNode;
use crate::map::LinkedHashMap;
use hashlink_core::{DefaultHashBuilder, Node};
use std::hash::{BuildHasher, Hash};

mod methods;

/// A place among the entries of a map, or the guard after the last one.
#[derive(Drop)]
pub struct CursorMut<'a, K: Eq + Hash, V, S: BuildHasher = DefaultHashBuilder, N: AsNode = Node> {
    pub(crate) map: &'a mut LinkedHashMap<K, V, S>,
    pub(crate) place: Option<N>,
    ghost within: { IsPlace map.now.nodes (option_map N.node place) } by { IsPlace-prop _ _ },
}

impl<K: Eq + Hash, V, S: BuildHasher> LinkedHashMap<K, V, S> {
    ghost use Rattle.hashlink_map.specs.Cursor.{cursor_map, cursor_state};

    /// Returns a cursor on the entry at the front, or on the guard if the map is empty. It takes constant
    /// time and does not allocate.
    pub fn cursor_front_mut(&mut self) -> CursorMut<'_, K, V, S>
        ensures same_map { (cursor_map result).ghost_name ≡ self.entry.ghost_name }
        ensures unchanged { (cursor_map result).now ≡ self.old }
        ensures first { (cursor_state result).place ≡ 0 }
    {
        let place = self.list.front();
        CursorMut { map: self, place }
    }

    /// Returns a cursor on the entry at the back, or on the guard if the map is empty. It takes constant time
    /// and does not allocate.
    pub fn cursor_back_mut(&mut self) -> CursorMut<'_, K, V, S>
        ensures same_map { (cursor_map result).ghost_name ≡ self.entry.ghost_name }
        ensures unchanged { (cursor_map result).now ≡ self.old }
        ensures last { (cursor_state result).place ≡ length (entries_of self.old) - 1 }
    {
        let place = self.list.back();
        CursorMut { map: self, place }
    }
}
