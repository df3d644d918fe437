//! The owning iterator over the entries of a keyed list.
ghost use Rattle.std.specs.{Prelude.{◌≡◌, Some, IfSome, length}, Iterator.{at_most, UpTo}};
ghost use Rattle.std.specs.{Iterator.SizeHint.IsWithinCount, Map.Iter.{TakesFirst, TakesLast}};

use hashlink_nodes::{Chain, Nodes};
use std::fmt;
use std::iter::FusedIterator;
use std::marker::Model;

/// An owning iterator over the entries, from front to back. Contracts see it as the list of the pairs left. A
/// step releases its entry's node. The drop of the iterator drops the pairs left and releases every node.
#[derive(Drop)]
pub struct IntoIter<K, V> {
    // The table, the guard and the free nodes were released before the first step.
    chain: Chain<K, V>,
}

impl<K, V> Model for IntoIter<K, V> {
    ghost use Rattle.std.specs.Prelude.{List};

    ghost Value = { List (K × V) };

    ghost view = { λ i. i.chain };
}

impl<K, V> IntoIter<K, V> {
    ghost use Rattle.hashlink_core.specs.Keyed.{pairs_in};

    /// Returns an iterator over the whole ring.
    pub(crate) fn new(nodes: Nodes<K, V>) -> Self
        ensures { result ≡ pairs_in nodes.entries }
    {
        IntoIter {
            chain: nodes.into_chain(),
        }
    }
}

impl<K: Drop, V: Drop> Iterator for IntoIter<K, V> {
    type Item = (K, V);

    ghost next_gives = { TakesFirst (λ p. p) };

    ghost remaining = { λ s. at_most (length s) };

    #[inline(always)]
    fn next(&mut self) -> Option<(K, V)> {
        self.chain.release_first()
    }

    fn size_hint(&self) -> (usize, Option<usize>)
        ensures lower { IsWithinCount result.0 (at_most (length self.now)) }
        ensures upper { IfSome result.1 (UpTo (at_most (length self.now))) }
        ensures exact { result ≡ (length self.now, Some (length self.now)) }
    {
        let left = self.chain.len();
        (left, Some(left))
    }
}

impl<K: Drop, V: Drop> DoubleEndedIterator for IntoIter<K, V> {
    ghost next_back_gives = { TakesLast (λ p. p) };

    #[inline(always)]
    fn next_back(&mut self) -> Option<(K, V)> {
        self.chain.release_last()
    }
}

impl<K: Drop, V: Drop> ExactSizeIterator for IntoIter<K, V> {
    fn len(&self) -> usize {
        self.chain.len()
    }
}

impl<K: Drop, V: Drop> FusedIterator for IntoIter<K, V> {}

impl<K: fmt::Debug, V: fmt::Debug> fmt::Debug for IntoIter<K, V> {
    fn fmt<W: fmt::Write>(&self, f: &mut fmt::Formatter<W>) -> fmt::Result {
        self.chain.fmt(f)
    }
}
