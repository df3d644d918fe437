//! The draining iterator of a set.
ghost use Rattle.std.specs.{Prelude.{◌≡◌, Some, IfSome, length}, Iterator.{at_most, UpTo}};
ghost use Rattle.std.specs.Iterator.SizeHint.{IsWithinCount};
ghost use Rattle.hashlink_core.specs.Drained.{CanDrain, CanDrain-prop, with_free};
ghost use Rattle.hashlink_model.specs.Steps.{Drains};

use crate::set::LinkedHashSet;
use hashlink_map::{AsChain, Chain, DefaultHashBuilder, Drainable, FreeBlock};
use std::hash::{BuildHasher, Hash};
use std::iter::FusedIterator;

/// An iterator that removes the elements of a set and returns them, from front to back. When it is dropped,
/// exhausted or not, the set is empty and every node is free. If it is forgotten (`mem::forget`), the set is
/// empty too, but the elements left are never dropped, and the memory of their nodes is never returned.
pub struct Drain<
    'a,
    T: Eq + Hash,
    S: BuildHasher = DefaultHashBuilder,
    D: AsChain<T, ()> = Chain<T, ()>,
> {
    set: &'a mut LinkedHashSet<T, S>,
    chain: D,
    ghost fits: { CanDrain set.now (length (D.pairs chain)) } by { CanDrain-prop _ _ },
}

impl<'a, T: Eq + Hash + Drop, S: BuildHasher, D: AsChain<T, ()> + Drop> Drop
    for Drain<'a, T, S, D> {
    ghost use Rattle.hashlink_set.specs.Drain.{drained_set};

    fn drop(mut self)
        ensures { Drains (drained_set self.entry).now self.exit.0.now }
    {
        let mut left = self.chain.take();
        while let Some((_pair, block)) = left.take_first() {
            self.set.keep_free(block);
        }
        let Drain { set: _, chain: _ } = self;
    }
}

impl<T: Eq + Hash, S: BuildHasher> Drainable<T, ()> for LinkedHashSet<T, S> {
    ghost Hasher = { S };

    ghost map_state = { λ s. s };

    fn take_entries(&mut self) -> Chain<T, ()> {
        self.map.take_entries()
    }

    #[inline(always)]
    fn keep_free(&mut self, block: FreeBlock<T, ()>)
        requires { CanDrain self.old 1 }
        ensures freed { self.new ≡ with_free self.old }
    {
        self.map.keep_free(block);
    }
}

impl<T: Eq + Hash + Drop, S: BuildHasher> LinkedHashSet<T, S> {
    ghost use Rattle.hashlink_set.specs.Drain.{drained_set};

    /// Returns an iterator that removes the elements and returns them, from front to back. When it is
    /// dropped, exhausted or not, the set is empty. The call takes linear time in the number of buckets. The
    /// drop takes linear time in the number of elements left. A drain stores at most three links for each
    /// element, and neither hashes nor allocates.
    pub fn drain(&mut self) -> Drain<'_, T, S>
        ensures same_set { (drained_set result).ghost_name ≡ self.entry.ghost_name }
        ensures unchanged { (drained_set result).now ≡ self.old }
    {
        let chain = self.take_entries();
        Drain { set: self, chain }
    }
}

impl<'a, T: Eq + Hash + Drop, S: BuildHasher> Iterator for Drain<'a, T, S> {
    ghost use Rattle.hashlink_set.specs.Drain.{drain_rest, DrainSteps};

    type Item = T;

    ghost next_gives = { DrainSteps };

    ghost remaining = { λ s. at_most (length (drain_rest s)) };

    #[inline(always)]
    fn next(&mut self) -> Option<T> {
        let ((element, ()), block) = self.chain.take_first()?;
        self.set.keep_free(block);
        Some(element)
    }

    fn size_hint(&self) -> (usize, Option<usize>)
        ensures lower { IsWithinCount result.0 (at_most (length (drain_rest self.now))) }
        ensures upper { IfSome result.1 (UpTo (at_most (length (drain_rest self.now)))) }
        ensures exact { result ≡ (length (drain_rest self.now), Some (length (drain_rest self.now))) }
    {
        (self.chain.len(), Some(self.chain.len()))
    }
}

impl<'a, T: Eq + Hash + Drop, S: BuildHasher> DoubleEndedIterator for Drain<'a, T, S> {
    ghost use Rattle.hashlink_set.specs.Drain.{DrainStepsBack};

    ghost next_back_gives = { DrainStepsBack };

    #[inline(always)]
    fn next_back(&mut self) -> Option<T> {
        let ((element, ()), block) = self.chain.take_last()?;
        self.set.keep_free(block);
        Some(element)
    }
}

impl<'a, T: Eq + Hash + Drop, S: BuildHasher> ExactSizeIterator for Drain<'a, T, S> {
    fn len(&self) -> usize {
        self.chain.len()
    }
}

impl<'a, T: Eq + Hash + Drop, S: BuildHasher> FusedIterator for Drain<'a, T, S> {}
