//! The iterators over the keys and over the values of a keyed list.
ghost use Rattle.std.specs.{Prelude.{◌≡◌, Some, IfSome, length, map, ⊤}, Iterator.{at_most, UpTo}};
ghost use Rattle.std.specs.{Iterator.SizeHint.IsWithinCount, Map.Iter.{TakesFirst, TakesLast, deref}};

use super::Iter;
use std::alloc::AllocError;
use std::fmt;
use std::iter::FusedIterator;
use std::marker::{Model, PhantomData};

/// An iterator over the keys, from front to back. Contracts see it as the list of the keys left.
pub type Keys<'a, K, V> = Parts<'a, K, V, K, OfKeys>;

/// An iterator over the values, from front to back. Contracts see it as the list of the values left.
pub type Values<'a, K, V> = Parts<'a, K, V, V, OfValues>;

/// A part of an entry.
pub trait Part<K, V, X> {
    ghost part: { K × V → X };

    fn of<'a>(key: &'a K, value: &'a V) -> &'a X
        ensures { result.now ≡ part (key.now, value.now) };
}

/// The key of an entry.
pub struct OfKeys;

impl<K, V> Part<K, V, K> for OfKeys {
    ghost part = { λ e. e.0 };

    #[inline(always)]
    fn of<'a>(key: &'a K, _value: &'a V) -> &'a K {
        key
    }
}

/// The value of an entry.
pub struct OfValues;

impl<K, V> Part<K, V, V> for OfValues {
    ghost part = { λ e. e.1 };

    #[inline(always)]
    fn of<'a>(_key: &'a K, value: &'a V) -> &'a V {
        value
    }
}

/// An iterator over one part of each entry.
#[derive(Drop)]
pub struct Parts<'a, K, V, X, P: Part<K, V, X>> {
    inner: Iter<'a, K, V>,
    part: PhantomData<(&'a X, P)>,
}

impl<'a, K, V, X, P: Part<K, V, X>> Model for Parts<'a, K, V, X, P> {
    ghost use Rattle.std.specs.Prelude.{List, map};

    ghost Value = { List X };

    ghost view = { λ w. map P.part w.inner };
}

impl<'a, K, V, X, P: Part<K, V, X>> Parts<'a, K, V, X, P> {
    /// Returns an iterator over a part of each entry that `inner` has left.
    pub(crate) fn new(inner: Iter<'a, K, V>) -> Self
        ensures { result ≡ map P.part inner.entry }
    {
        Parts {
            inner,
            part: PhantomData,
        }
    }
}

impl<'a, K, V, X, P: Part<K, V, X>> Iterator for Parts<'a, K, V, X, P> {
    type Item = &'a X;

    ghost next_gives = { TakesFirst deref };

    ghost remaining = { λ s. at_most (length s) };

    #[inline(always)]
    fn next(&mut self) -> Option<&'a X> {
        let (key, value) = self.inner.next()?;
        Some(P::of(key, value))
    }

    fn size_hint(&self) -> (usize, Option<usize>)
        ensures lower { IsWithinCount result.0 (at_most (length self.now)) }
        ensures upper { IfSome result.1 (UpTo (at_most (length self.now))) }
        ensures exact { result ≡ (length self.now, Some (length self.now)) }
    {
        self.inner.size_hint()
    }
}

impl<'a, K, V, X, P: Part<K, V, X>> DoubleEndedIterator for Parts<'a, K, V, X, P> {
    ghost next_back_gives = { TakesLast deref };

    #[inline(always)]
    fn next_back(&mut self) -> Option<&'a X> {
        let (key, value) = self.inner.next_back()?;
        Some(P::of(key, value))
    }
}

impl<'a, K, V, X, P: Part<K, V, X>> ExactSizeIterator for Parts<'a, K, V, X, P> {
    fn len(&self) -> usize {
        self.inner.len()
    }
}

impl<'a, K, V, X, P: Part<K, V, X>> FusedIterator for Parts<'a, K, V, X, P> {}

impl<'a, K, V, X, P: Part<K, V, X>> Clone for Parts<'a, K, V, X, P> {
    ghost is_clone = { λ s r. r ≡ s };

    ghost is_infallible = { λ _. ⊤ };

    fn clone(&self) -> Result<Self, AllocError> {
        Ok(Parts {
            inner: self.inner.clone()?,
            part: PhantomData,
        })
    }
}

impl<'a, K: fmt::Debug, V> fmt::Debug for Keys<'a, K, V> {
    fn fmt<W: fmt::Write>(&self, f: &mut fmt::Formatter<W>) -> fmt::Result {
        f.debug_list().entries(self.clone().unwrap()).finish()
    }
}

impl<'a, K, V: fmt::Debug> fmt::Debug for Values<'a, K, V> {
    fn fmt<W: fmt::Write>(&self, f: &mut fmt::Formatter<W>) -> fmt::Result {
        f.debug_list().entries(self.clone().unwrap()).finish()
    }
}
