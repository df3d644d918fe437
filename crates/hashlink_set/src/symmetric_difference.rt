//! The iterator over the elements that are in exactly one of two sets.
ghost use Rattle.std.specs.{Prelude.{◌≡◌, IfSome, length, ⊤}, Iterator.{at_most, UpTo}, List.IsDistinct};
ghost use Rattle.std.specs.Iterator.SizeHint.{IsWithinCount};
ghost use Rattle.hashlink_model.specs.Algebra.{symmetric_difference_hint, symmetric_difference_of};
ghost use Rattle.hashlink_set.specs.Elements.{elements_in};

use crate::iterators::next_of_two;
use crate::sifted::Difference;
use hashlink_map::{DefaultHashBuilder, LinkedHashMap};
use std::alloc::AllocError;
use std::fmt;
use std::hash::{BuildHasher, Hash};
use std::iter::FusedIterator;

/// The iterator that `symmetric_difference` returns: the elements of the first set that the second lacks, and
/// then the ones of the second that the first lacks.
#[derive(Drop)]
pub struct SymmetricDifference<'a, T: Eq + Hash, S: BuildHasher = DefaultHashBuilder> {
    pub(crate) first: Difference<'a, T, S>,
    pub(crate) second: Difference<'a, T, S>,
}

impl<'a, T: Eq + Hash, S: BuildHasher> SymmetricDifference<'a, T, S> {
    ghost use Rattle.hashlink_set.specs.Walks.{symmetric_difference_rest, symmetric_difference_walk};

    /// Returns an iterator over the keys of `first` that `second` lacks, and then over the keys of `second`
    /// that `first` lacks.
    pub fn of(first: &'a LinkedHashMap<T, (), S>, second: &'a LinkedHashMap<T, (), S>) -> Self
        ensures rest { symmetric_difference_rest T.eq result
            ≡ symmetric_difference_of T.eq (elements_in first.now) (elements_in second.now) }
        ensures unique { IsDistinct T.eq (symmetric_difference_rest T.eq result) }
        ensures walk { symmetric_difference_walk result
            ≡ record { left = elements_in first.now; right = elements_in second.now } }
        ensures first { result.first.other.now ≡ second.now }
        ensures second { result.second.other.now ≡ first.now }
    {
        SymmetricDifference {
            first: Difference::of(first, second),
            second: Difference::of(second, first),
        }
    }
}

impl<'a, T: Eq + Hash, S: BuildHasher> Iterator for SymmetricDifference<'a, T, S> {
    ghost use Rattle.hashlink_set.specs.Walks.{symmetric_difference_rest, symmetric_difference_walk};
    ghost use Rattle.hashlink_set.specs.Walks.{SymmetricDifferenceSteps};

    type Item = &'a T;

    ghost next_gives = { SymmetricDifferenceSteps T.eq };

    ghost remaining = { λ s. at_most (length (symmetric_difference_rest T.eq s)) };

    #[inline(always)]
    fn next(&mut self) -> Option<&'a T> {
        next_of_two(&mut self.first, &mut self.second)
    }

    fn size_hint(&self) -> (usize, Option<usize>)
        ensures lower { IsWithinCount result.0 (at_most (length (symmetric_difference_rest T.eq self.now))) }
        ensures upper { IfSome result.1 (UpTo (at_most (length (symmetric_difference_rest T.eq self.now)))) }
        ensures exact { result ≡ symmetric_difference_hint (symmetric_difference_walk self.now) }
    {
        let left = self.first.iter.len();
        (0, left.checked_add(self.second.iter.len()))
    }
}

impl<'a, T: Eq + Hash, S: BuildHasher> FusedIterator for SymmetricDifference<'a, T, S> {}

impl<'a, T: Eq + Hash, S: BuildHasher> Clone for SymmetricDifference<'a, T, S> {
    ghost is_clone = { λ s r. r ≡ s };

    ghost is_infallible = { λ _. ⊤ };

    fn clone(&self) -> Result<Self, AllocError> {
        Ok(SymmetricDifference {
            first: self.first.clone()?,
            second: self.second.clone()?,
        })
    }
}

impl<'a, T: Eq + Hash + fmt::Debug, S: BuildHasher> fmt::Debug for SymmetricDifference<'a, T, S> {
    fn fmt<W: fmt::Write>(&self, f: &mut fmt::Formatter<W>) -> fmt::Result {
        f.debug_list().entries(self.clone().unwrap()).finish()
    }
}
