//! The owning iterator of a set.
ghost use Rattle.std.specs.Map.Iter.{TakesFirst, TakesLast, ShowsInOrder, deref, GivesInOrder};
ghost use Rattle.std.specs.{Prelude.{◌≡◌, ◌^◌, ◌<◌, Some, IfSome, length}, Iterator.{at_most, UpTo}};
ghost use Rattle.std.specs.{Iterator.SizeHint.IsWithinCount, List.IsDistinct, Map.Iter.GivesInReverse};
ghost use Rattle.hashlink_model.specs.Sets.{elements_of};

use crate::Iter;
use crate::set::LinkedHashSet;
use hashlink_map::IntoIter as IntoPairs;
use std::hash::{BuildHasher, Hash};
use std::iter::FusedIterator;
use std::marker::Model;

/// An owning iterator over the elements, from front to back. Contracts see it as the list of the elements
/// left. A step frees its element's node. When the iterator is dropped, it drops the elements left, and frees
/// every node.
#[derive(Drop)]
pub struct IntoIter<T> {
    pairs: IntoPairs<T, ()>,
}

impl<T> Model for IntoIter<T> {
    ghost use Rattle.std.specs.{Prelude.List, Map.keys_of};

    ghost Value = { List T };

    ghost view = { λ i. keys_of i.pairs };
}

impl<T: Drop> Iterator for IntoIter<T> {
    type Item = T;

    ghost next_gives = { TakesFirst (λ t. t) };

    ghost remaining = { λ s. at_most (length s) };

    #[inline(always)]
    fn next(&mut self) -> Option<T> {
        let (element, ()) = self.pairs.next()?;
        Some(element)
    }

    fn size_hint(&self) -> (usize, Option<usize>)
        ensures lower { IsWithinCount result.0 (at_most (length self.now)) }
        ensures upper { IfSome result.1 (UpTo (at_most (length self.now))) }
        ensures exact { result ≡ (length self.now, Some (length self.now)) }
    {
        self.pairs.size_hint()
    }
}

impl<T: Drop> DoubleEndedIterator for IntoIter<T> {
    ghost next_back_gives = { TakesLast (λ t. t) };

    #[inline(always)]
    fn next_back(&mut self) -> Option<T> {
        let (element, ()) = self.pairs.next_back()?;
        Some(element)
    }
}

impl<T: Drop> ExactSizeIterator for IntoIter<T> {
    fn len(&self) -> usize {
        self.pairs.len()
    }
}

impl<T: Drop> FusedIterator for IntoIter<T> {}

/// Turns the set into an owning iterator over its elements, from front to back. It frees the table and
/// the free nodes, in linear time in the number of free nodes, and does not allocate.
impl<T: Eq + Hash + Drop, S: BuildHasher + Drop> IntoIterator for LinkedHashSet<T, S> {
    type Item = T;

    type IntoIter = IntoIter<T>;

    ghost into_iter_gives = { λ s r. r ≡ elements_of s };

    fn into_iter(self) -> IntoIter<T>
        ensures into_iter_gives { result ≡ elements_of self }
        ensures distinct { IsDistinct T.eq (elements_of self) }
        ensures runs { GivesInOrder T }
        ensures runs_back { GivesInReverse T }
        ensures fits { length (elements_of self) < 2 ^ 63 }
    {
        // The clauses of `len` state that no two elements are equal.
        let _count = self.len();
        let LinkedHashSet { map, alloc: _ } = self;
        IntoIter {
            pairs: map.into_iter(),
        }
    }
}

/// Returns the iterator that `iter` returns. It takes constant time and does not allocate.
impl<'a, T: Eq + Hash, S: BuildHasher> IntoIterator for &'a LinkedHashSet<T, S> {
    type Item = &'a T;

    type IntoIter = Iter<'a, T>;

    ghost into_iter_gives = { λ s r. (r ≡ elements_of s.now) × (length (elements_of s.now) < 2 ^ 63)
        × ShowsInOrder (deref {X = T}) };

    fn into_iter(self) -> Iter<'a, T> {
        self.iter()
    }
}
