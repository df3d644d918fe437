//! Inserts of many items in turn, each by `insert`.
ghost use Rattle.std.specs.{Prelude.{[], OnOk, OnErr, IfErr, map}, Map.Iter.deref_pair};
ghost use Rattle.std.specs.Iterator.{ExtendsWithItems, IsFinite, IsFiniteIterable};
ghost use Rattle.hashlink_model.specs.{Many.{AcceptsAll, StopsAt, StopsAtLast, InsertsPair}, MapState.Grows};
ghost use Rattle.hashlink_core.specs.Keyed.{state_of};
ghost use Rattle.hashlink_map.specs.Extending.{TakesItems};
ghost use Rattle.hashlink_map.specs.Reading.{GivesAll, GivesSome, ReadsAll, ReadsSome};

use crate::map::LinkedHashMap;
use hashlink_core::ExtendError;
use std::alloc::AllocError;
use std::hash::{BuildHasher, Hash};

impl<K: Eq + Hash + Drop, V: Drop, S: BuildHasher> LinkedHashMap<K, V, S> {
    /// Inserts each item in turn, as `insert` does, at the cost of an insert for each. The iterator has to
    /// end, and its `next` to be callable. No room is reserved in advance.
    ///
    /// If an allocation for an item fails, the items before it stay inserted, and no further item is read.
    /// The error contains this item and how many were inserted.
    pub fn extend<I: IntoIterator<Item = (K, V)>>(
        &mut self,
        iter: I,
    ) -> Result<(), ExtendError<K, V>>
        requires { IsFiniteIterable I.into_iter_gives I.IntoIter.can_next I.IntoIter.remaining iter }
        ensures all { OnOk result (ReadsAll I.into_iter_gives I.IntoIter.next_gives iter
            (λ items. AcceptsAll (InsertsPair K.eq) (state_of self.old) items (state_of self.new))) }
        ensures stopped { IfErr result (λ e. ReadsSome I.into_iter_gives I.IntoIter.next_gives iter
            (λ items. StopsAt (InsertsPair K.eq) (state_of self.old) items
            (state_of self.new) e.taken e.pair [])) }
    {
        let mut rest = iter.into_iter();
        self.extend_from(&mut rest)
    }

    /// Does the same as `extend` with an iterator that the caller keeps. It has to end, and its `next` to be
    /// callable. If an allocation fails, the items after the one in the error are left in the iterator.
    /// Otherwise none is left.
    pub fn extend_from<I: Iterator<Item = (K, V)>>(
        &mut self,
        iter: &mut I,
    ) -> Result<(), ExtendError<K, V>>
        requires may { I.can_next iter.old }
        requires ends { IsFinite (I.remaining iter.old) }
        ensures all { OnOk result (GivesAll I.next_gives iter.old iter.new
            (λ items. AcceptsAll (InsertsPair K.eq) (state_of self.old) items (state_of self.new))) }
        ensures stopped { IfErr result (λ e. GivesSome I.next_gives iter.old iter.new (λ items.
            StopsAt (InsertsPair K.eq) (state_of self.old) items (state_of self.new) e.taken e.pair [])) }
    {
        let mut taken = 0u64;
        while let Some((key, value)) = iter.next() {
            if let Err(pair) = self.insert(key, value) {
                return Err(ExtendError { taken, pair });
            }
            taken = taken.saturating_add(1);
        }
        Ok(())
    }
}

impl<'a, K: Eq + Hash + Copy + 'a, V: Copy + 'a, S: BuildHasher> LinkedHashMap<K, V, S> {
    /// Inserts a copy of each pair in turn, as `extend` does, at the cost of an insert for each. The iterator
    /// has to end, and its `next` to be callable.
    ///
    /// If an allocation for a pair fails, the pairs before it stay inserted, and no further pair is read. The
    /// error contains the copy of this pair and how many were inserted.
    pub fn extend_ref<I: IntoIterator<Item = (&'a K, &'a V)>>(
        &mut self,
        iter: I,
    ) -> Result<(), ExtendError<K, V>>
        requires { IsFiniteIterable I.into_iter_gives I.IntoIter.can_next I.IntoIter.remaining iter }
        ensures all { OnOk result (ReadsAll I.into_iter_gives I.IntoIter.next_gives iter
            (λ items. AcceptsAll (InsertsPair K.eq) (state_of self.old) (map deref_pair items)
            (state_of self.new))) }
        ensures stopped { IfErr result (λ e. ReadsSome I.into_iter_gives I.IntoIter.next_gives iter
            (λ items. StopsAt (InsertsPair K.eq) (state_of self.old) (map deref_pair items)
            (state_of self.new)
            e.taken e.pair [])) }
    {
        let mut copies = iter.into_iter().map(|(key, value)| (*key, *value));
        self.extend_from(&mut copies)
    }
}

/// Inserts the items as the function `extend` does. If an allocation fails, it returns `AllocError`. The
/// items inserted before stay, and the one that was not inserted is dropped.
impl<K: Eq + Hash + Drop, V: Drop, S: BuildHasher> Extend<(K, V)> for LinkedHashMap<K, V, S> {
    ghost extend_gives = { λ old items new. TakesItems (InsertsPair K.eq) (Grows 1) (state_of old) items
        (state_of new) };

    fn extend<I: IntoIterator<Item = (K, V)>>(&mut self, iter: I) -> Result<(), AllocError>
        requires { IsFiniteIterable I.into_iter_gives I.IntoIter.can_next I.IntoIter.remaining iter }
        ensures ran { ExtendsWithItems I.into_iter_gives I.IntoIter.next_gives
            (λ old items new. TakesItems (InsertsPair K.eq) (Grows 1) (state_of old) items (state_of new))
            iter self.old self.new result }
        ensures all { OnOk result (ReadsAll I.into_iter_gives I.IntoIter.next_gives iter
            (λ items. AcceptsAll (InsertsPair K.eq) (state_of self.old) items (state_of self.new))) }
        ensures stopped { OnErr result (ReadsSome I.into_iter_gives I.IntoIter.next_gives iter
            (λ items. StopsAtLast (InsertsPair K.eq) (state_of self.old) items (state_of self.new))) }
    {
        LinkedHashMap::extend(self, iter).map_err(|_| AllocError)
    }
}

/// Inserts copies of the pairs as the function `extend_ref` does. If an allocation fails, it returns
/// `AllocError`, and the copies inserted before stay.
impl<'a, K: Eq + Hash + Copy + 'a, V: Copy + 'a, S: BuildHasher> Extend<(&'a K, &'a V)>
    for LinkedHashMap<K, V, S> {
    ghost extend_gives = { λ old items new. TakesItems (InsertsPair K.eq) (Grows 1) (state_of old)
        (map deref_pair items) (state_of new) };

    fn extend<I: IntoIterator<Item = (&'a K, &'a V)>>(&mut self, iter: I) -> Result<(), AllocError>
        requires { IsFiniteIterable I.into_iter_gives I.IntoIter.can_next I.IntoIter.remaining iter }
        ensures ran { ExtendsWithItems I.into_iter_gives I.IntoIter.next_gives
            (λ old items new. TakesItems (InsertsPair K.eq) (Grows 1) (state_of old)
            (map deref_pair items) (state_of new))
            iter self.old self.new result }
        ensures all { OnOk result (ReadsAll I.into_iter_gives I.IntoIter.next_gives iter
            (λ items. AcceptsAll (InsertsPair K.eq) (state_of self.old) (map deref_pair items)
            (state_of self.new))) }
        ensures stopped { OnErr result (ReadsSome I.into_iter_gives I.IntoIter.next_gives iter
            (λ items. StopsAtLast (InsertsPair K.eq) (state_of self.old) (map deref_pair items)
            (state_of self.new))) }
    {
        self.extend_ref(iter).map_err(|_| AllocError)
    }
}
