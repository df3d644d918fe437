//! The ring of nodes.
#![tactic(auto, using(crate::proofs::Calls::ring_calls))]

ghost use Rattle.std.specs.Prelude.{◌≡◌, ◌+◌, ◌*◌, ◌^◌, ◌<◌, [], ◌∷◌, ◌++◌, length, drop, Some, IsOk, IfOk};
ghost use Rattle.std.specs.{Prelude.{map, min, IfErr, OnOk, OnErr}, Option.option_map, List.IsDistinct};
ghost use Rattle.std.specs.Map.{keys_of, lookup, remove_entry};
ghost use Rattle.hashlink_nodes.specs.Node.{same_node};
ghost use Rattle.hashlink_nodes.specs.Ring.{ring, held, pair_of, put_before, Holds, IsPlace};

mod ends;
mod moves;
mod reads;
mod values;

use crate::chain::{Chain, FreeBlock};
use crate::node::Node;
use crate::pool::Pool;
use std::alloc::Global;
use std::marker::Model;

/// Entries in a ring of nodes, and free nodes, which later inserts use. Each node is a block of its own.
pub struct Nodes<K, V> {
    pool: Pool<K, V>,
    // This field is not beside `spare`. If it were, one instruction would read both, and would have to wait
    // if one of them was just written.
    len: usize,
    // The guard links the last entry to the first. The first push makes it.
    guard: Option<Node>,
    // Each free node links to the next one. If there is none, this field means nothing.
    first_spare: Node,
    spare: usize,
    alloc: Global,
}

impl<K, V> Model for Nodes<K, V> {
    ghost use Rattle.hashlink_nodes.specs.Ring.{Ring};

    ghost Value = { Ring K V };

    ghost use Rattle.hashlink_nodes.specs.Shape.{ring_of, IsSound};

    ghost view = { ring_of };

    ghost invariant = { IsSound };
}

impl<K, V> Nodes<K, V> {
    /// Creates an empty ring. It does not allocate.
    pub fn new(alloc: Global) -> Self
        ensures { result ≡ ring [] [] 0 }
    {
        Nodes {
            pool: Pool::new(),
            guard: None,
            first_spare: Node::nowhere(),
            len: 0,
            spare: 0,
            alloc,
        }
    }

    /// Returns the allocator of the blocks.
    pub fn allocator(&self) -> Global {
        self.alloc
    }

    /// Inserts an entry directly before the place, and returns its node. It allocates only if no node is
    /// free. If an allocation fails, it returns the pair in `Err`, and no entry and no free node changes. It
    /// stores four links, whether the node is new or not. The two links that a new guard gets are not
    /// counted.
    pub fn push_before(
        &mut self,
        place: Option<Node>,
        number: usize,
        key: K,
        value: V,
    ) -> Result<Node, (K, V)>
        requires place { IsPlace self.old.entries place }
        requires small { number < 2 ^ 48 }
        ensures entries { IfOk result
            (λ n. self.new.entries ≡ put_before place (n, held number key value) self.old.entries) }
        ensures free { OnOk result (self.new.free ≡ drop 1 self.old.free) }
        ensures apart { OnOk result (IsDistinct same_node (keys_of self.new.entries ++ self.new.free)) }
        ensures link_writes { OnOk result (self.new.link_writes ≡ self.old.link_writes + 4) }
        ensures handed_back { IfErr result (λ pair. pair ≡ (key, value)) }
        ensures unchanged { OnErr result (self.new ≡ self.old) }
        ensures succeeds { 0 < length self.old.free → IsOk result }
    {
        if self.spare == 0 {
            return self.push_new(place, number, key, value);
        }
        let guard = self.guard.unwrap();
        let node = self.first_spare;
        let first_spare = self.pool.next(node);
        self.pool.fill(node, number, key, value);
        self.pool.attach_before(node, place.unwrap_or(guard));
        self.first_spare = first_spare;
        self.spare -= 1;
        self.len += 1;
        Ok(node)
    }

    /// Inserts an entry in a new node. No node may be free. It may allocate two blocks. The first is the
    /// guard's, which stays if the second allocation fails.
    fn push_new(
        &mut self,
        place: Option<Node>,
        number: usize,
        key: K,
        value: V,
    ) -> Result<Node, (K, V)>
        requires place { IsPlace self.old.entries place }
        requires small { number < 2 ^ 48 }
        requires none { self.old.free ≡ [] }
        ensures entries { IfOk result
            (λ n. self.new.entries ≡ put_before place (n, held number key value) self.old.entries) }
        ensures free { OnOk result (self.new.free ≡ []) }
        ensures apart { OnOk result (IsDistinct same_node (keys_of self.new.entries ++ self.new.free)) }
        ensures link_writes { OnOk result (self.new.link_writes ≡ self.old.link_writes + 4) }
        ensures handed_back { IfErr result (λ pair. pair ≡ (key, value)) }
        ensures unchanged { OnErr result (self.new ≡ self.old) }
    {
        if self.len >= MAX_NODES {
            return Err((key, value));
        }
        let guard = match self.pool.guard(self.guard, self.alloc) {
            Ok(guard) => guard,
            Err(_) => return Err((key, value)),
        };
        self.guard = Some(guard);
        match self.pool.make(self.alloc) {
            Ok(node) => {
                self.pool.fill(node, number, key, value);
                self.pool.attach_before(node, place.unwrap_or(guard));
                self.len += 1;
                Ok(node)
            }
            Err(_) => Err((key, value)),
        }
    }

    /// Removes the node's entry from the ring, and returns it. The node is the first free node then. It
    /// stores three links.
    #[inline(always)]
    pub fn detach_into_free(&mut self, node: Node) -> (K, V)
        requires { Holds self.old.entries node }
        ensures pair { option_map pair_of (lookup (same_node node) self.old.entries) ≡ Some result }
        ensures entries { self.new.entries ≡ remove_entry (same_node node) self.old.entries }
        ensures free { self.new.free ≡ node ∷ self.old.free }
        ensures link_writes { self.new.link_writes ≡ self.old.link_writes + 3 }
    {
        self.pool.detach(node);
        let pair = self.pool.take(node);
        self.pool.store_next(node, self.first_spare);
        self.first_spare = node;
        self.len -= 1;
        self.spare += 1;
        pair
    }
}

impl<K, V> Nodes<K, V> {
    ghost use Rattle.hashlink_nodes.specs.ChainSteps.{Spares};

    /// Takes all entries out of the ring, with their nodes. It takes constant time, and stores two links,
    /// none if there is no entry.
    pub fn take_entries(&mut self) -> Chain<K, V>
        ensures pairs { result ≡ map (λ e. pair_of e.1) self.old.entries }
        ensures entries { self.new.entries ≡ [] }
        ensures free { self.new.free ≡ self.old.free }
        ensures unchanged { length self.old.entries ≡ 0 → self.new ≡ self.old }
        ensures link_writes { self.new.link_writes ≡ self.old.link_writes
            + min 2 (2 * length self.old.entries) }
        ensures few { length self.old.entries + length self.old.free < 2 ^ 63 }
    {
        if self.len == 0 {
            return Chain::new(self.alloc);
        }
        let guard = self.guard.unwrap();
        let first = self.pool.next(guard);
        let last = self.pool.prev(guard);
        let chain = self.pool.part(first, last, self.len, self.alloc);
        self.pool.store_next(guard, guard);
        self.pool.store_prev(guard, guard);
        self.len = 0;
        chain
    }

    /// Takes a block over, as the first free node. It stores one link.
    #[inline(always)]
    pub fn keep_free(&mut self, vacant: FreeBlock<K, V>)
        requires guarded { 0 < self.old.link_writes }
        requires few { length self.old.entries + length self.old.free + 1 < 2 ^ 63 }
        ensures { Spares self.old self.new }
    {
        // It is read before the block is written, so that the block's link is stored once.
        let first_spare = self.first_spare;
        let node = self.pool.keep(vacant);
        self.pool.store_next(node, first_spare);
        self.first_spare = node;
        self.spare += 1;
    }
}

/// Drops the entries, and frees the block of every node.
impl<K: Drop, V: Drop> Drop for Nodes<K, V> {
    fn drop(self) {
        let _entries = self.into_chain();
    }
}

/// The greatest number of nodes that a ring may have.
const MAX_NODES: usize = (1 << 63) - 1;
