//! The iterator that begins at the entry of a key.
ghost use Rattle.std.specs.{Prelude.{◌≡◌, ◌^◌, ◌<◌, ⊤, IfSome, length}, Iterator.{at_most, UpTo}};
ghost use Rattle.std.specs.{Iterator.SizeHint.IsWithinCount, Map.Iter.{TakesFirst, ShowsInOrder, deref_pair}};
ghost use Rattle.hashlink_model.specs.Entries.{IsEntries};
ghost use Rattle.hashlink_core.specs.Keyed.{entries_of};

use crate::map::LinkedHashMap;
use hashlink_core::{DefaultHashBuilder, Equivalent, Node};
use std::alloc::AllocError;
use std::hash::{BuildHasher, Hash};
use std::iter::FusedIterator;
use std::marker::Model;

/// An iterator over the entries of a map, from the entry of a key to the back. Contracts see it as the list
/// of the pairs left.
#[derive(Drop)]
pub struct IterFrom<'a, K: Eq + Hash, V, S: BuildHasher = DefaultHashBuilder> {
    map: &'a LinkedHashMap<K, V, S>,
    // The place of the next entry, which is the guard if none is left.
    place: Option<Node>,
}

impl<'a, K: Eq + Hash, V, S: BuildHasher> Model for IterFrom<'a, K, V, S> {
    ghost use Rattle.std.specs.Prelude.{List, drop};
    ghost use Rattle.hashlink_core.specs.{Keyed.entries_of, Places.{IsPlace, place_number}};

    ghost Value = { List (K × V) };

    ghost view = { λ i. drop (place_number i.map.now.nodes i.place) (entries_of i.map.now) };

    ghost invariant = { λ i. IsPlace i.map.now.nodes i.place };
}

impl<K: Eq + Hash, V, S: BuildHasher> LinkedHashMap<K, V, S> {
    ghost use Rattle.hashlink_map.specs.Reading.{entries_from};

    /// Returns an iterator over the entries from that of the key to the back. If the key is absent, it is
    /// empty. The call hashes the key once and does not allocate. Each step takes constant time.
    #[inline(always)]
    pub fn iter_from<Q: Equivalent<K>>(&self, key: Q) -> IterFrom<'_, K, V, S>
        ensures rest { result ≡ entries_from (Q.matches key) (entries_of self.now) }
        ensures distinct { IsEntries K.eq (entries_of self.now) }
        ensures runs { ShowsInOrder (deref_pair {K = K} {X = V}) }
        ensures fits { length (entries_of self.now) < 2 ^ 63 }
    {
        // A clause of `len` bounds the number of entries.
        let _count = self.len();
        IterFrom {
            map: self,
            place: self.find(key),
        }
    }
}

impl<'a, K: Eq + Hash, V, S: BuildHasher> Iterator for IterFrom<'a, K, V, S> {
    type Item = (&'a K, &'a V);

    ghost next_gives = { TakesFirst deref_pair };

    ghost remaining = { λ s. at_most (length s) };

    #[inline(always)]
    fn next(&mut self) -> Option<(&'a K, &'a V)> {
        let map = self.map;
        let node = self.place?;
        self.place = map.list.next(Some(node));
        Some(map.list.entry(node))
    }

    fn size_hint(&self) -> (usize, Option<usize>)
        ensures lower { IsWithinCount result.0 (at_most (length self.now)) }
        ensures upper { IfSome result.1 (UpTo (at_most (length self.now))) }
    {
        (0, Some(self.map.len()))
    }
}

impl<'a, K: Eq + Hash, V, S: BuildHasher> FusedIterator for IterFrom<'a, K, V, S> {}

impl<'a, K: Eq + Hash, V, S: BuildHasher> Clone for IterFrom<'a, K, V, S> {
    ghost is_clone = { λ s r. r ≡ s };

    ghost is_infallible = { λ _. ⊤ };

    fn clone(&self) -> Result<Self, AllocError> {
        Ok(IterFrom {
            map: self.map,
            place: self.place,
        })
    }
}
