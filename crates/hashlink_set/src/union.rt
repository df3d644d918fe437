//! The iterator over the elements of two sets.
ghost use Rattle.std.specs.{Prelude.{◌≡◌, IfSome, length, ⊤}, Iterator.{at_most, UpTo}, List.IsDistinct};
ghost use Rattle.std.specs.Iterator.SizeHint.{IsWithinCount};
ghost use Rattle.hashlink_model.specs.Algebra.{union_hint, union_of};
ghost use Rattle.hashlink_set.specs.Elements.{elements_in};

use crate::iter::Iter;
use crate::iterators::next_of_two;
use crate::sifted::Difference;
use hashlink_map::{DefaultHashBuilder, LinkedHashMap};
use std::alloc::AllocError;
use std::fmt;
use std::hash::{BuildHasher, Hash};
use std::iter::FusedIterator;

/// The iterator that `union` returns: the elements of one set, and then the elements of the other that the
/// first lacks.
#[derive(Drop)]
pub struct Union<'a, T: Eq + Hash, S: BuildHasher = DefaultHashBuilder> {
    pub(crate) first: Iter<'a, T>,
    pub(crate) second: Difference<'a, T, S>,
}

impl<'a, T: Eq + Hash, S: BuildHasher> Union<'a, T, S> {
    ghost use Rattle.hashlink_set.specs.Walks.{union_rest, union_walk};

    /// Returns an iterator over the keys of `first`, and then over the keys of `second` that `first` lacks.
    pub fn of(first: &'a LinkedHashMap<T, (), S>, second: &'a LinkedHashMap<T, (), S>) -> Self
        ensures rest { union_rest T.eq result
            ≡ union_of T.eq (elements_in first.now) (elements_in second.now) }
        ensures unique { IsDistinct T.eq (union_rest T.eq result) }
        ensures walk { union_walk result
            ≡ record { left = elements_in first.now; right = elements_in second.now } }
        ensures other { result.second.other.now ≡ first.now }
    {
        Union {
            first: Iter::of(first),
            second: Difference::of(second, first),
        }
    }
}

impl<'a, T: Eq + Hash, S: BuildHasher> Iterator for Union<'a, T, S> {
    ghost use Rattle.hashlink_set.specs.Walks.{union_rest, union_walk, UnionSteps};

    type Item = &'a T;

    ghost next_gives = { UnionSteps T.eq };

    ghost remaining = { λ s. at_most (length (union_rest T.eq s)) };

    #[inline(always)]
    fn next(&mut self) -> Option<&'a T> {
        next_of_two(&mut self.first, &mut self.second)
    }

    fn size_hint(&self) -> (usize, Option<usize>)
        ensures lower { IsWithinCount result.0 (at_most (length (union_rest T.eq self.now))) }
        ensures upper { IfSome result.1 (UpTo (at_most (length (union_rest T.eq self.now)))) }
        ensures exact { result ≡ union_hint (union_walk self.now) }
    {
        let left = self.first.len();
        (left, left.checked_add(self.second.iter.len()))
    }
}

impl<'a, T: Eq + Hash, S: BuildHasher> FusedIterator for Union<'a, T, S> {}

impl<'a, T: Eq + Hash, S: BuildHasher> Clone for Union<'a, T, S> {
    ghost is_clone = { λ s r. r ≡ s };

    ghost is_infallible = { λ _. ⊤ };

    fn clone(&self) -> Result<Self, AllocError> {
        Ok(Union {
            first: self.first.clone()?,
            second: self.second.clone()?,
        })
    }
}

impl<'a, T: Eq + Hash + fmt::Debug, S: BuildHasher> fmt::Debug for Union<'a, T, S> {
    fn fmt<W: fmt::Write>(&self, f: &mut fmt::Formatter<W>) -> fmt::Result {
        f.debug_list().entries(self.clone().unwrap()).finish()
    }
}
