//! The iterator over the elements of a set.
ghost use Rattle.std.specs.{Prelude.{◌≡◌, ◌^◌, ◌<◌, Some, IfSome, length, ⊤}, Iterator.{at_most, UpTo}};
ghost use Rattle.std.specs.{Iterator.SizeHint.IsWithinCount, List.IsDistinct};
ghost use Rattle.std.specs.Map.Iter.{TakesFirst, TakesLast, ShowsInOrder, ShowsInReverse, deref};
ghost use Rattle.hashlink_set.specs.Elements.{elements_in};

use hashlink_map::{Keys, LinkedHashMap};
use std::alloc::AllocError;
use std::fmt;
use std::hash::{BuildHasher, Hash};
use std::iter::FusedIterator;
use std::marker::Model;

/// An iterator over the elements, from front to back. Contracts see it as the list of the elements left.
#[derive(Drop)]
pub struct Iter<'a, T> {
    pub(crate) keys: Keys<'a, T, ()>,
}

impl<'a, T> Model for Iter<'a, T> {
    ghost use Rattle.std.specs.Prelude.{List};

    ghost Value = { List T };

    ghost view = { λ w. w.keys };
}

impl<'a, T: Eq + Hash> Iter<'a, T> {
    /// Returns an iterator over the keys of the map, from front to back. It does not allocate, and each step
    /// takes constant time.
    pub fn of<S: BuildHasher>(map: &'a LinkedHashMap<T, (), S>) -> Self
        ensures rest { result ≡ elements_in map.now }
        ensures runs { ShowsInOrder (deref {X = T}) }
        ensures runs_back { ShowsInReverse (deref {X = T}) }
        ensures fits { length (elements_in map.now) < 2 ^ 63 }
        ensures distinct { IsDistinct T.eq (elements_in map.now) }
    {
        // The clauses of `len` state that no two keys are equal.
        let _count = map.len();
        Iter { keys: map.keys() }
    }
}

impl<'a, T> Iterator for Iter<'a, T> {
    type Item = &'a T;

    ghost next_gives = { TakesFirst deref };

    ghost remaining = { λ s. at_most (length s) };

    #[inline(always)]
    fn next(&mut self) -> Option<&'a T> {
        self.keys.next()
    }

    fn size_hint(&self) -> (usize, Option<usize>)
        ensures lower { IsWithinCount result.0 (at_most (length self.now)) }
        ensures upper { IfSome result.1 (UpTo (at_most (length self.now))) }
        ensures exact { result ≡ (length self.now, Some (length self.now)) }
    {
        self.keys.size_hint()
    }
}

impl<'a, T> DoubleEndedIterator for Iter<'a, T> {
    ghost next_back_gives = { TakesLast deref };

    #[inline(always)]
    fn next_back(&mut self) -> Option<&'a T> {
        self.keys.next_back()
    }
}

impl<'a, T> ExactSizeIterator for Iter<'a, T> {
    fn len(&self) -> usize {
        self.keys.len()
    }
}

impl<'a, T> FusedIterator for Iter<'a, T> {}

impl<'a, T> Clone for Iter<'a, T> {
    ghost is_clone = { λ s r. r ≡ s };

    ghost is_infallible = { λ _. ⊤ };

    fn clone(&self) -> Result<Self, AllocError> {
        Ok(Iter {
            keys: self.keys.clone()?,
        })
    }
}

impl<'a, T: fmt::Debug> fmt::Debug for Iter<'a, T> {
    fn fmt<W: fmt::Write>(&self, f: &mut fmt::Formatter<W>) -> fmt::Result {
        f.debug_list().entries(self.clone().unwrap()).finish()
    }
}
