//! Conversions of a map into an iterator.
ghost use Rattle.std.specs.Prelude.{◌≡◌, ◌^◌, ◌<◌, length};
ghost use Rattle.std.specs.Map.Iter.{ShowsInOrder, deref_pair, GivesInOrder, GivesInReverse};
ghost use Rattle.hashlink_model.specs.Entries.{IsEntries};
ghost use Rattle.hashlink_core.specs.Keyed.{entries_of};

use crate::map::LinkedHashMap;
use hashlink_core::{IntoIter, Iter};
use std::hash::{BuildHasher, Hash};

/// Turns the map into an owning iterator over its entries, from front to back. It frees the table and
/// the free nodes, in linear time in the number of free nodes, and does not allocate.
impl<K: Eq + Hash + Drop, V: Drop, S: BuildHasher + Drop> IntoIterator for LinkedHashMap<K, V, S> {
    type Item = (K, V);

    type IntoIter = IntoIter<K, V>;

    ghost into_iter_gives = { λ m r. r ≡ entries_of m };

    fn into_iter(self) -> IntoIter<K, V>
        ensures into_iter_gives { result ≡ entries_of self }
        ensures distinct { IsEntries K.eq (entries_of self) }
        ensures runs { GivesInOrder (K × V) }
        ensures runs_back { GivesInReverse (K × V) }
        ensures fits { length (entries_of self) < 2 ^ 63 }
    {
        // By a clause of `len`, no two keys are equal.
        let _count = self.len();
        let LinkedHashMap { list } = self;
        list.into_entries()
    }
}

/// Returns the iterator that `iter` returns: over the entries, from front to back. It takes constant time and
/// does not allocate.
impl<'a, K: Eq + Hash, V, S: BuildHasher> IntoIterator for &'a LinkedHashMap<K, V, S> {
    type Item = (&'a K, &'a V);

    type IntoIter = Iter<'a, K, V>;

    ghost into_iter_gives = { λ m r. (r ≡ entries_of m.now) × (length (entries_of m.now) < 2 ^ 63)
        × ShowsInOrder (deref_pair {K = K} {X = V}) };

    fn into_iter(self) -> Iter<'a, K, V> {
        self.iter()
    }
}
