//! The iterator over the entries of a cache with a budget.
ghost use Rattle.std.specs.{Prelude.{◌≡◌, Some, IfSome, length, ⊤}, Iterator.{at_most, UpTo}};
ghost use Rattle.std.specs.{Iterator.SizeHint.IsWithinCount, Map.Iter.{TakesFirst, TakesLast}};
ghost use Rattle.hashlink_weighted.specs.Weighed.{deref_weighed};

use hashlink_map::Iter;
use std::alloc::AllocError;
use std::fmt;
use std::iter::FusedIterator;
use std::marker::Model;

/// An iterator over the keys, the values and the weights, from front to back. Contracts see it as the list of
/// the entries left.
#[derive(Drop)]
pub struct WeightedIter<'a, K, V> {
    inner: Iter<'a, K, (V, u64)>,
}

impl<'a, K, V> Model for WeightedIter<'a, K, V> {
    ghost use Rattle.std.specs.Prelude.{List, ℕ};

    ghost Value = { List (K × (V × ℕ)) };

    ghost view = { λ w. w.inner };
}

impl<'a, K, V> WeightedIter<'a, K, V> {
    /// Returns an iterator over the entries that an iterator of the map has yet to return.
    pub(crate) fn new(inner: Iter<'a, K, (V, u64)>) -> Self
        ensures { result ≡ inner.entry }
    {
        WeightedIter { inner }
    }
}

impl<'a, K, V> Iterator for WeightedIter<'a, K, V> {
    type Item = (&'a K, &'a V, u64);

    ghost next_gives = { TakesFirst deref_weighed };

    ghost remaining = { λ s. at_most (length s) };

    #[inline(always)]
    fn next(&mut self) -> Option<(&'a K, &'a V, u64)> {
        let (key, (value, weight)) = self.inner.next()?;
        Some((key, value, *weight))
    }

    fn size_hint(&self) -> (usize, Option<usize>)
        ensures lower { IsWithinCount result.0 (at_most (length self.now)) }
        ensures upper { IfSome result.1 (UpTo (at_most (length self.now))) }
        ensures exact { result ≡ (length self.now, Some (length self.now)) }
    {
        self.inner.size_hint()
    }
}

impl<'a, K, V> DoubleEndedIterator for WeightedIter<'a, K, V> {
    ghost next_back_gives = { TakesLast deref_weighed };

    #[inline(always)]
    fn next_back(&mut self) -> Option<(&'a K, &'a V, u64)> {
        let (key, (value, weight)) = self.inner.next_back()?;
        Some((key, value, *weight))
    }
}

impl<'a, K, V> ExactSizeIterator for WeightedIter<'a, K, V> {
    fn len(&self) -> usize {
        self.inner.len()
    }
}

impl<'a, K, V> FusedIterator for WeightedIter<'a, K, V> {}

impl<'a, K, V> Clone for WeightedIter<'a, K, V> {
    ghost is_clone = { λ s r. r ≡ s };

    ghost is_infallible = { λ _. ⊤ };

    fn clone(&self) -> Result<Self, AllocError> {
        Ok(WeightedIter {
            inner: self.inner.clone()?,
        })
    }
}

impl<'a, K: fmt::Debug, V: fmt::Debug> fmt::Debug for WeightedIter<'a, K, V> {
    fn fmt<W: fmt::Write>(&self, f: &mut fmt::Formatter<W>) -> fmt::Result {
        f.debug_list().entries(self.clone().unwrap()).finish()
    }
}
