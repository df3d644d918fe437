//! Entries that were taken out of a ring.
ghost use Rattle.std.specs.Prelude.{◌≡◌, [], ◌∷◌, ◌++◌, MatchOption};
ghost use Rattle.std.specs.Map.Iter.{TakesFirst, TakesLast};

use crate::arena::Block;
use crate::node::Node;
use crate::pool::Pool;
use std::alloc::Global;
use std::fmt;
use std::marker::Model;
use std_alloc::room::Vacant;

/// The block of a node whose entry was taken out. It contains nothing.
pub type FreeBlock<K, V> = Vacant<Block<(K, V)>, Global>;

/// The entries that were taken out of a ring, in order, each in its node. Contracts see the pairs. It has no
/// guard and no free node. No step stores a link in it.
pub struct Chain<K, V> {
    pub(crate) pool: Pool<K, V>,
    // The first and the last node. If there is none, they mean nothing.
    pub(crate) first: Node,
    pub(crate) last: Node,
    pub(crate) len: usize,
    pub(crate) alloc: Global,
}

impl<K, V> Model for Chain<K, V> {
    ghost use Rattle.std.specs.Prelude.{List};

    ghost Value = { List (K × V) };

    ghost use Rattle.hashlink_nodes.specs.Chain.{pairs_of, IsSoundChain};

    ghost view = { pairs_of };

    ghost invariant = { IsSoundChain };
}

impl<K, V> Chain<K, V> {
    ghost use Rattle.std.specs.Prelude.{length};

    /// Creates a chain without entries.
    pub fn new(alloc: Global) -> Self
        ensures { result ≡ [] }
    {
        Chain {
            pool: Pool::new(),
            first: Node::nowhere(),
            last: Node::nowhere(),
            len: 0,
            alloc,
        }
    }

    /// Returns the number of entries.
    #[inline]
    pub fn len(&self) -> usize
        ensures { result ≡ length self.now }
    {
        self.len
    }

    /// Returns the allocator of the blocks.
    pub fn allocator(&self) -> Global {
        self.alloc
    }

    /// Removes the first entry and returns it with its block, or returns `None` if there is none.
    #[inline(always)]
    pub fn take_first(&mut self) -> Option<((K, V), FreeBlock<K, V>)>
        ensures { MatchOption result ((self.old ≡ []) × (self.new ≡ [])) (λ r. self.old ≡ r.0 ∷ self.new) }
    {
        if self.len() == 0 {
            return None;
        }
        let node = self.first;
        self.first = self.pool.next(node);
        let pair = self.pool.take(node);
        let vacant = self.pool.vacate(node, self.alloc);
        self.len -= 1;
        Some((pair, vacant))
    }

    /// Removes the last entry and returns it with its block, or returns `None` if there is none.
    #[inline(always)]
    pub fn take_last(&mut self) -> Option<((K, V), FreeBlock<K, V>)>
        ensures { MatchOption result ((self.old ≡ []) × (self.new ≡ []))
            (λ r. self.old ≡ self.new ++ r.0 ∷ []) }
    {
        if self.len() == 0 {
            return None;
        }
        let node = self.last;
        self.last = self.pool.prev(node);
        let pair = self.pool.take(node);
        let vacant = self.pool.vacate(node, self.alloc);
        self.len -= 1;
        Some((pair, vacant))
    }

    /// Removes the first entry, frees its block and returns it, or returns `None` if there is none.
    #[inline(always)]
    pub fn release_first(&mut self) -> Option<(K, V)>
        ensures { TakesFirst (λ p. p) self.old result self.new }
    {
        let (pair, vacant) = self.take_first()?;
        vacant.free();
        Some(pair)
    }

    /// Removes the last entry, frees its block and returns it, or returns `None` if there is none.
    #[inline(always)]
    pub fn release_last(&mut self) -> Option<(K, V)>
        ensures { TakesLast (λ p. p) self.old result self.new }
    {
        let (pair, vacant) = self.take_last()?;
        vacant.free();
        Some(pair)
    }

    /// Ends a chain that has no entry.
    pub fn end(self)
        requires { self ≡ [] }
    {
        let Chain {
            pool,
            first: _,
            last: _,
            len: _,
            alloc: _,
        } = self;
        pool.end();
    }
}

/// Drops the entries, and frees their blocks.
impl<K: Drop, V: Drop> Drop for Chain<K, V> {
    fn drop(mut self) {
        while let Some(_pair) = self.release_first() {}
        self.end();
    }
}

impl<K: fmt::Debug, V: fmt::Debug> fmt::Debug for Chain<K, V> {
    fn fmt<W: fmt::Write>(&self, f: &mut fmt::Formatter<W>) -> fmt::Result {
        let mut list = f.debug_list();
        let mut node = self.first;
        for _ in 0..self.len {
            list.entry(&self.pool.pair(node));
            node = self.pool.next(node);
        }
        list.finish()
    }
}
