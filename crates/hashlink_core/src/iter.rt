//! The iterator over the entries of a keyed list.
ghost use Rattle.std.specs.{Prelude.{◌≡◌, ◌<◌, ◌^◌, Some, IfSome, length, ⊤}, Iterator.{at_most, UpTo}};
ghost use Rattle.std.specs.{Iterator.SizeHint.IsWithinCount, Map.Iter.{TakesFirst, TakesLast, deref_pair}};

mod parts;

use hashlink_nodes::{Node, Nodes};
pub use parts::{Keys, Values};
use std::alloc::AllocError;
use std::fmt;
use std::iter::FusedIterator;
use std::marker::Model;

/// An iterator over the entries, from front to back. Contracts see it as the list of the pairs left.
#[derive(Drop)]
pub struct Iter<'a, K, V> {
    nodes: &'a Nodes<K, V>,
    // The first and the last node left. If none is left, the two mean nothing.
    first: Node,
    last: Node,
    left: usize,
}

impl<'a, K, V> Model for Iter<'a, K, V> {
    ghost use Rattle.std.specs.Prelude.{List, Some};
    ghost use Rattle.hashlink_core.specs.Walk.{pairs_from, StandsBetween};

    ghost Value = { List (K × V) };

    ghost view = { λ i. pairs_from i.nodes.now.entries (Some i.first) i.left };

    ghost invariant = { λ i. StandsBetween i.nodes.now.entries (Some i.first) (Some i.last) i.left };
}

impl<'a, K, V> Iter<'a, K, V> {
    ghost use Rattle.hashlink_core.specs.Keyed.{pairs_in};

    /// Returns an iterator over the whole ring.
    pub(crate) fn new(nodes: &'a Nodes<K, V>) -> Self
        ensures rest { result ≡ pairs_in nodes.now.entries }
        ensures fits { length nodes.now.entries < 2 ^ 63 }
    {
        Iter {
            nodes,
            first: nodes.next(None).unwrap_or(Node::nowhere()),
            last: nodes.prev(None).unwrap_or(Node::nowhere()),
            left: nodes.len(),
        }
    }
}

impl<'a, K, V> Iterator for Iter<'a, K, V> {
    type Item = (&'a K, &'a V);

    ghost next_gives = { TakesFirst deref_pair };

    ghost remaining = { λ s. at_most (length s) };

    #[inline(always)]
    fn next(&mut self) -> Option<(&'a K, &'a V)> {
        if self.left == 0 {
            return None;
        }
        let (nodes, node) = (self.nodes, self.first);
        self.first = nodes.after(node);
        self.left -= 1;
        Some(nodes.entry(node))
    }

    fn size_hint(&self) -> (usize, Option<usize>)
        ensures lower { IsWithinCount result.0 (at_most (length self.now)) }
        ensures upper { IfSome result.1 (UpTo (at_most (length self.now))) }
        ensures exact { result ≡ (length self.now, Some (length self.now)) }
    {
        (self.left, Some(self.left))
    }
}

impl<'a, K, V> DoubleEndedIterator for Iter<'a, K, V> {
    ghost next_back_gives = { TakesLast deref_pair };

    #[inline(always)]
    fn next_back(&mut self) -> Option<(&'a K, &'a V)> {
        if self.left == 0 {
            return None;
        }
        let (nodes, node) = (self.nodes, self.last);
        self.last = nodes.before(node);
        self.left -= 1;
        Some(nodes.entry(node))
    }
}

impl<'a, K, V> ExactSizeIterator for Iter<'a, K, V> {
    fn len(&self) -> usize {
        self.left
    }
}

impl<'a, K, V> FusedIterator for Iter<'a, K, V> {}

impl<'a, K, V> Clone for Iter<'a, K, V> {
    ghost is_clone = { λ s r. r ≡ s };

    ghost is_infallible = { λ _. ⊤ };

    fn clone(&self) -> Result<Self, AllocError> {
        Ok(Iter {
            nodes: self.nodes,
            first: self.first,
            last: self.last,
            left: self.left,
        })
    }
}

impl<'a, K: fmt::Debug, V: fmt::Debug> fmt::Debug for Iter<'a, K, V> {
    fn fmt<W: fmt::Write>(&self, f: &mut fmt::Formatter<W>) -> fmt::Result {
        f.debug_list().entries(self.clone().unwrap()).finish()
    }
}
