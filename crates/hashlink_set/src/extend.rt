//! Inserts of many elements, each in turn by `insert`.
ghost use Rattle.std.specs.{Prelude.{[], OnOk, OnErr, IfErr, map}, Map.Iter.deref};
ghost use Rattle.std.specs.Iterator.{ExtendsWithItems, IsFinite, IsFiniteIterable};
ghost use Rattle.hashlink_model.specs.{Many.{AcceptsAll, StopsAt, StopsAtLast}, MapState.Grows};
ghost use Rattle.hashlink_model.specs.Sets.{SetInserts};
ghost use Rattle.hashlink_map.specs.Extending.{TakesItems};
ghost use Rattle.hashlink_map.specs.Reading.{GivesAll, GivesSome, ReadsAll, ReadsSome};

use crate::set::LinkedHashSet;
use hashlink_map::ExtendError;
use std::alloc::AllocError;
use std::hash::{BuildHasher, Hash};

impl<T: Eq + Hash + Drop, S: BuildHasher> LinkedHashSet<T, S> {
    /// Inserts each element in turn, as `insert` does, at the cost of an insert for each. The iterator has to
    /// end, and its `next` has to be callable. No room is reserved in advance.
    ///
    /// If an allocation for an element fails, the elements before it stay inserted. The error contains that
    /// element and their number. No further element is read.
    pub fn extend<I: IntoIterator<Item = T>>(&mut self, iter: I) -> Result<(), ExtendError<T, ()>>
        requires { IsFiniteIterable I.into_iter_gives I.IntoIter.can_next I.IntoIter.remaining iter }
        ensures all { OnOk result (ReadsAll I.into_iter_gives I.IntoIter.next_gives iter
            (λ items. AcceptsAll (SetInserts T.eq) self.old items self.new)) }
        ensures stopped { IfErr result (λ e. ReadsSome I.into_iter_gives I.IntoIter.next_gives iter
            (λ items. StopsAt (SetInserts T.eq) self.old items self.new e.taken e.pair.0 [])) }
    {
        let mut rest = iter.into_iter();
        self.extend_from(&mut rest)
    }

    /// Does the same as `extend` with an iterator that the caller keeps. It has to end, and its `next` has to
    /// be callable. If an allocation fails, the elements after the one in the error are left in the iterator.
    /// Otherwise none is left.
    pub fn extend_from<I: Iterator<Item = T>>(
        &mut self,
        iter: &mut I,
    ) -> Result<(), ExtendError<T, ()>>
        requires may { I.can_next iter.old }
        requires ends { IsFinite (I.remaining iter.old) }
        ensures all { OnOk result (GivesAll I.next_gives iter.old iter.new
            (λ items. AcceptsAll (SetInserts T.eq) self.old items self.new)) }
        ensures stopped { IfErr result (λ e. GivesSome I.next_gives iter.old iter.new
            (λ items. StopsAt (SetInserts T.eq) self.old items self.new e.taken e.pair.0 [])) }
    {
        let mut taken = 0u64;
        while let Some(element) = iter.next() {
            if let Err(back) = self.insert(element) {
                return Err(ExtendError {
                    taken,
                    pair: (back, ()),
                });
            }
            taken = taken.saturating_add(1);
        }
        Ok(())
    }
}

impl<'a, T: Eq + Hash + Copy + 'a, S: BuildHasher> LinkedHashSet<T, S> {
    /// Inserts a copy of each element in turn, as `extend` does, at the cost of an insert for each. The
    /// iterator has to end, and its `next` has to be callable.
    ///
    /// If an allocation for an element fails, the elements before it stay inserted. The error contains the
    /// copy of that element and their number. No further element is read.
    pub fn extend_ref<I: IntoIterator<Item = &'a T>>(
        &mut self,
        iter: I,
    ) -> Result<(), ExtendError<T, ()>>
        requires { IsFiniteIterable I.into_iter_gives I.IntoIter.can_next I.IntoIter.remaining iter }
        ensures all { OnOk result (ReadsAll I.into_iter_gives I.IntoIter.next_gives iter
            (λ items. AcceptsAll (SetInserts T.eq) self.old (map deref items) self.new)) }
        ensures stopped { IfErr result (λ e. ReadsSome I.into_iter_gives I.IntoIter.next_gives iter
            (λ items. StopsAt (SetInserts T.eq) self.old (map deref items) self.new e.taken e.pair.0 [])) }
    {
        let mut copies = iter.into_iter().copied();
        self.extend_from(&mut copies)
    }
}

/// Inserts the elements as the function `extend` does. If memory runs out, it returns `AllocError`, and the
/// items inserted before stay. The element that was not inserted is dropped.
impl<T: Eq + Hash + Drop, S: BuildHasher> Extend<T> for LinkedHashSet<T, S> {
    ghost extend_gives = { TakesItems (SetInserts T.eq) (Grows 1) };

    fn extend<I: IntoIterator<Item = T>>(&mut self, iter: I) -> Result<(), AllocError>
        requires { IsFiniteIterable I.into_iter_gives I.IntoIter.can_next I.IntoIter.remaining iter }
        ensures ran { ExtendsWithItems I.into_iter_gives I.IntoIter.next_gives
            (TakesItems (SetInserts T.eq) (Grows 1)) iter self.old self.new result }
        ensures all { OnOk result (ReadsAll I.into_iter_gives I.IntoIter.next_gives iter
            (λ items. AcceptsAll (SetInserts T.eq) self.old items self.new)) }
        ensures stopped { OnErr result (ReadsSome I.into_iter_gives I.IntoIter.next_gives iter
            (λ items. StopsAtLast (SetInserts T.eq) self.old items self.new)) }
    {
        LinkedHashSet::extend(self, iter).map_err(|_| AllocError)
    }
}

/// Inserts copies of the elements as the function `extend_ref` does. If memory runs out, it returns
/// `AllocError`, and the items inserted before stay.
impl<'a, T: Eq + Hash + Copy + 'a, S: BuildHasher> Extend<&'a T> for LinkedHashSet<T, S> {
    ghost extend_gives = { λ old items. TakesItems (SetInserts T.eq) (Grows 1) old (map deref items) };

    fn extend<I: IntoIterator<Item = &'a T>>(&mut self, iter: I) -> Result<(), AllocError>
        requires { IsFiniteIterable I.into_iter_gives I.IntoIter.can_next I.IntoIter.remaining iter }
        ensures ran { ExtendsWithItems I.into_iter_gives I.IntoIter.next_gives
            (λ old items. TakesItems (SetInserts T.eq) (Grows 1) old (map deref items))
            iter self.old self.new result }
        ensures all { OnOk result (ReadsAll I.into_iter_gives I.IntoIter.next_gives iter
            (λ items. AcceptsAll (SetInserts T.eq) self.old (map deref items) self.new)) }
        ensures stopped { OnErr result (ReadsSome I.into_iter_gives I.IntoIter.next_gives iter
            (λ items. StopsAtLast (SetInserts T.eq) self.old (map deref items) self.new)) }
    {
        self.extend_ref(iter).map_err(|_| AllocError)
    }
}
