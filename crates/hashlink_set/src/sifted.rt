//! The iterators over the elements of a set that another set has, and over the elements that it lacks.
ghost use Rattle.std.specs.{Prelude.{◌≡◌, IfSome, length, ⊤}, Iterator.{at_most, UpTo}, List.IsDistinct};
ghost use Rattle.std.specs.Iterator.SizeHint.{IsWithinCount};
ghost use Rattle.hashlink_model.specs.Algebra.{part_hint, difference_of, intersection_of};
ghost use Rattle.hashlink_set.specs.Elements.{elements_in};

use crate::iter::Iter;
use hashlink_map::{DefaultHashBuilder, LinkedHashMap};
use std::alloc::AllocError;
use std::fmt;
use std::hash::{BuildHasher, Hash};
use std::iter::FusedIterator;

/// The iterator that `intersection` returns. A step looks at the elements up to the next that the other set
/// has.
pub type Intersection<'a, T, S = DefaultHashBuilder> = Sifted<'a, T, S, true>;

/// The iterator that `difference` returns. A step looks at the elements up to the next that the other set
/// lacks.
pub type Difference<'a, T, S = DefaultHashBuilder> = Sifted<'a, T, S, false>;

/// An iterator over the elements of a set that another set has or, if `HAS` is false, that it lacks.
#[derive(Drop)]
pub struct Sifted<'a, T: Eq + Hash, S: BuildHasher, const HAS: bool> {
    pub(crate) iter: Iter<'a, T>,
    pub(crate) other: &'a LinkedHashMap<T, (), S>,
}

impl<'a, T: Eq + Hash, S: BuildHasher> Intersection<'a, T, S> {
    ghost use Rattle.hashlink_set.specs.Walks.{intersection_rest};

    /// Returns an iterator over the keys of `first` that `second` has, in the order of `first`.
    pub fn of(first: &'a LinkedHashMap<T, (), S>, second: &'a LinkedHashMap<T, (), S>) -> Self
        ensures rest { intersection_rest T.eq result
            ≡ intersection_of T.eq (elements_in first.now) (elements_in second.now) }
        ensures unique { IsDistinct T.eq (intersection_rest T.eq result) }
        ensures left { result.iter ≡ elements_in first.now }
        ensures other { result.other.now ≡ second.now }
    {
        Sifted {
            iter: Iter::of(first),
            other: second,
        }
    }
}

impl<'a, T: Eq + Hash, S: BuildHasher> Difference<'a, T, S> {
    ghost use Rattle.hashlink_set.specs.Walks.{difference_rest};

    /// Returns an iterator over the keys of `first` that `second` lacks, in their order.
    pub fn of(first: &'a LinkedHashMap<T, (), S>, second: &'a LinkedHashMap<T, (), S>) -> Self
        ensures rest { difference_rest T.eq result
            ≡ difference_of T.eq (elements_in first.now) (elements_in second.now) }
        ensures unique { IsDistinct T.eq (difference_rest T.eq result) }
        ensures left { result.iter ≡ elements_in first.now }
        ensures other { result.other.now ≡ second.now }
        ensures distinct { IsDistinct T.eq (elements_in first.now) }
    {
        Sifted {
            iter: Iter::of(first),
            other: second,
        }
    }
}

impl<'a, T: Eq + Hash, S: BuildHasher, const HAS: bool> Iterator for Sifted<'a, T, S, HAS> {
    ghost use Rattle.hashlink_set.specs.Walks.{sifted_rest, SiftedSteps};

    type Item = &'a T;

    ghost next_gives = { SiftedSteps T.eq HAS };

    ghost remaining = { λ s. at_most (length (sifted_rest T.eq HAS s)) };

    #[inline(always)]
    fn next(&mut self) -> Option<&'a T> {
        while let Some(element) = self.iter.next() {
            if self.other.contains_key(element) == HAS {
                return Some(element);
            }
        }
        None
    }

    fn size_hint(&self) -> (usize, Option<usize>)
        ensures lower { IsWithinCount result.0 (at_most (length (sifted_rest T.eq HAS self.now))) }
        ensures upper { IfSome result.1 (UpTo (at_most (length (sifted_rest T.eq HAS self.now)))) }
        ensures exact { result ≡ part_hint self.now.iter }
    {
        (0, Some(self.iter.len()))
    }
}

impl<'a, T: Eq + Hash, S: BuildHasher, const HAS: bool> FusedIterator for Sifted<'a, T, S, HAS> {}

impl<'a, T: Eq + Hash, S: BuildHasher, const HAS: bool> Clone for Sifted<'a, T, S, HAS> {
    ghost is_clone = { λ s r. r ≡ s };

    ghost is_infallible = { λ _. ⊤ };

    fn clone(&self) -> Result<Self, AllocError> {
        Ok(Sifted {
            iter: self.iter.clone()?,
            other: self.other,
        })
    }
}

impl<'a, T: Eq + Hash + fmt::Debug, S: BuildHasher, const HAS: bool> fmt::Debug
    for Sifted<'a, T, S, HAS> {
    fn fmt<W: fmt::Write>(&self, f: &mut fmt::Formatter<W>) -> fmt::Result {
        f.debug_list().entries(self.clone().unwrap()).finish()
    }
}
