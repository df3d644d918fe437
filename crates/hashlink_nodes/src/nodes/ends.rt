//! Calls that free blocks.
ghost use Rattle.std.specs.Prelude.{◌≡◌, ◌+◌, ◌<◌, [], length, map, drop};
ghost use Rattle.hashlink_nodes.specs.Ring.{pair_of};

use super::Nodes;
use crate::chain::Chain;

impl<K, V> Nodes<K, V> {
    /// Frees the blocks of the free nodes.
    pub fn release_free(&mut self)
        ensures entries { self.new.entries ≡ self.old.entries }
        ensures free { self.new.free ≡ [] }
        ensures link_writes { self.new.link_writes ≡ self.old.link_writes }
    {
        while self.spare() > 0 {
            self.release_first_free();
        }
    }

    fn release_first_free(&mut self)
        requires { 0 < length self.old.free }
        ensures entries { self.new.entries ≡ self.old.entries }
        ensures free { self.new.free ≡ drop 1 self.old.free }
        ensures link_writes { self.new.link_writes ≡ self.old.link_writes }
    {
        let node = self.first_spare;
        let first_spare = self.pool.next(node);
        self.pool.release(node, self.alloc);
        self.first_spare = first_spare;
        self.spare -= 1;
    }

    /// Drops the entries and frees their blocks. The free nodes stay. It stores two links, or none if there
    /// is no entry.
    pub fn release_all(&mut self)
    where
        K: Drop,
        V: Drop,
        ensures entries { self.new.entries ≡ [] }
        ensures free { self.new.free ≡ self.old.free }
        ensures unchanged { length self.old.entries ≡ 0 → self.new ≡ self.old }
        ensures link_writes { 0 < length self.old.entries → self.new.link_writes ≡ self.old.link_writes + 2 }
    {
        let _entries = self.take_entries();
    }

    /// Takes all entries out, and frees the blocks of the guard and of the free nodes.
    pub fn into_chain(mut self) -> Chain<K, V>
        ensures { result ≡ map (λ e. pair_of e.1) self.entries }
    {
        let chain = self.take_entries();
        self.release_free();
        self.end();
        chain
    }

    /// Ends a ring that has no nodes, and frees the guard's block.
    pub(super) fn end(self)
        requires entries { self.entries ≡ [] }
        requires free { self.free ≡ [] }
    {
        let Nodes {
            mut pool,
            guard,
            first_spare: _,
            len: _,
            spare: _,
            alloc,
        } = self;
        if let Some(guard) = guard {
            pool.release(guard, alloc);
            pool.end();
        } else {
            pool.end();
        }
    }
}
