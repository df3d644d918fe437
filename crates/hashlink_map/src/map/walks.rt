//! Iterators over a map, from both ends. None of them allocates, and each step takes constant time.
ghost use Rattle.std.specs.{Prelude.{◌≡◌, ◌^◌, ◌<◌, length}, Map.{keys_of, values_of}};
ghost use Rattle.std.specs.Map.Iter.{ShowsInOrder, ShowsInReverse, deref, deref_pair};
ghost use Rattle.hashlink_model.specs.Entries.{IsEntries};
ghost use Rattle.hashlink_core.specs.Keyed.{entries_of, state_of};
ghost use Rattle.hashlink_map.specs.{IterMut.{walk_map, walk_state}, WritingWalk.writing_walk};

use super::LinkedHashMap;
use crate::iter_mut::IterMut;
use crate::places_left::PlacesLeft;
use crate::values_mut::ValuesMut;
use hashlink_core::{Iter, Keys, Values};
use std::hash::{BuildHasher, Hash};
use std::marker::PhantomData;

impl<K: Eq + Hash, V, S: BuildHasher> LinkedHashMap<K, V, S> {
    /// Returns an iterator over the entries, front to back. It does not allocate; a step takes constant time.
    pub fn iter(&self) -> Iter<'_, K, V>
        ensures rest { result ≡ entries_of self.now }
        ensures distinct { IsEntries K.eq (entries_of self.now) }
        ensures runs { ShowsInOrder (deref_pair {K = K} {X = V}) }
        ensures runs_back { ShowsInReverse (deref_pair {K = K} {X = V}) }
        ensures fits { length (entries_of self.now) < 2 ^ 63 }
    {
        self.list.iter()
    }

    /// Returns a lending iterator over the entries, from front to back, with mutable references to the
    /// values. It takes constant time and does not allocate.
    pub fn iter_mut(&mut self) -> IterMut<'_, K, V, S>
        ensures same_map { (walk_map result).ghost_name ≡ self.entry.ghost_name }
        ensures unchanged { (walk_map result).now ≡ self.old }
        ensures rest { walk_state result ≡ writing_walk (state_of self.old) 0 (length (entries_of self.old)) }
    {
        IterMut {
            places: PlacesLeft::all(self),
            map: self,
            lends: PhantomData,
        }
    }

    /// Returns an iterator over the keys, front to back. It does not allocate; a step takes constant time.
    pub fn keys(&self) -> Keys<'_, K, V>
        ensures rest { result ≡ keys_of (entries_of self.now) }
        ensures runs { ShowsInOrder (deref {X = K}) }
        ensures runs_back { ShowsInReverse (deref {X = K}) }
        ensures fits { length (entries_of self.now) < 2 ^ 63 }
    {
        self.list.keys()
    }

    /// Returns an iterator over the values, front to back. It does not allocate; a step takes constant time.
    pub fn values(&self) -> Values<'_, K, V>
        ensures rest { result ≡ values_of (entries_of self.now) }
        ensures runs { ShowsInOrder (deref {X = V}) }
        ensures runs_back { ShowsInReverse (deref {X = V}) }
        ensures fits { length (entries_of self.now) < 2 ^ 63 }
    {
        self.list.values()
    }

    /// Returns a lending iterator over the values, from front to back, with mutable references to them. It
    /// takes constant time and does not allocate.
    pub fn values_mut(&mut self) -> ValuesMut<'_, K, V, S>
        ensures same_map { (walk_map result).ghost_name ≡ self.entry.ghost_name }
        ensures unchanged { (walk_map result).now ≡ self.old }
        ensures rest { walk_state result ≡ writing_walk (state_of self.old) 0 (length (entries_of self.old)) }
    {
        ValuesMut {
            places: PlacesLeft::all(self),
            map: self,
            lends: PhantomData,
        }
    }
}
