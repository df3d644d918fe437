//! The links of the blocks.
ghost use Rattle.std.specs.Prelude.{◌≡◌, ◌+◌, false, true, IfOk, OnErr};
ghost use Rattle.hashlink_nodes.specs.{declared.node.Node.Node, Pool.state_of};
ghost use Rattle.hashlink_nodes.specs.State.{store_next, store_prev, Adds, MakesGuard};

use super::Pool;
use super::link::Link;
use crate::arena::Block;
use crate::link_writes::LinkWrites;
use crate::node::Node;
use std::alloc::{AllocError, Global};
use std_alloc::room::Vacant;

/// The two links of a node's block.
pub(crate) struct Links {
    next: Link,
    prev: Link,
}

impl Links {
    fn nowhere() -> Links {
        Links {
            next: Link::nowhere(),
            prev: Link::nowhere(),
        }
    }
}

impl<K, V> Pool<K, V> {
    #[inline]
    pub(crate) fn next(&self, node: Node) -> Node
        requires { (state_of self.now).has node ≡ true }
        ensures { result ≡ (state_of self.now).next node }
    {
        self.arena.links(node).next.to()
    }

    #[inline]
    pub(crate) fn prev(&self, node: Node) -> Node
        requires { (state_of self.now).has node ≡ true }
        ensures { result ≡ (state_of self.now).prev node }
    {
        self.arena.links(node).prev.to()
    }

    #[inline]
    pub(crate) fn store_next(&mut self, node: Node, to: Node)
        requires { (state_of self.old).has node ≡ true }
        ensures stored { state_of self.new ≡ store_next node to (state_of self.old) }
        ensures there { (n : Node) → (state_of self.new).has n ≡ (state_of self.old).has n }
    {
        self.arena.links_mut(node).next.store(to, &mut self.writes);
    }

    #[inline]
    pub(crate) fn store_prev(&mut self, node: Node, to: Node)
        requires { (state_of self.old).has node ≡ true }
        ensures stored { state_of self.new ≡ store_prev node to (state_of self.old) }
        ensures there { (n : Node) → (state_of self.new).has n ≡ (state_of self.old).has n }
    {
        self.arena.links_mut(node).prev.store(to, &mut self.writes);
    }

    /// Allocates a node that holds nothing. Its links lead nowhere until they are stored.
    pub(crate) fn make(&mut self, alloc: Global) -> Result<Node, AllocError>
        ensures made { IfOk result (λ n. Adds n (state_of self.old) (state_of self.new)) }
        ensures unchanged { OnErr result (self.new ≡ self.old) }
    {
        match Vacant::take(alloc) {
            Ok(vacant) => Ok(self.keep(vacant)),
            Err(_) => Err(AllocError),
        }
    }

    /// Takes a block over, as a node that holds nothing. Its links lead nowhere until they are stored.
    #[inline(always)]
    pub(crate) fn keep(&mut self, vacant: Vacant<Block<(K, V)>, Global>) -> Node
        ensures { Adds result (state_of self.old) (state_of self.new) }
    {
        self.arena.keep(vacant, Links::nowhere())
    }

    /// Allocates a guard, which holds nothing and links to itself. The count of the pool does not include the
    /// two links.
    pub(super) fn make_guard(&mut self, alloc: Global) -> Result<Node, AllocError>
        ensures made { IfOk result (λ g. MakesGuard g (state_of self.old) (state_of self.new)) }
        ensures unchanged { OnErr result (self.new ≡ self.old) }
    {
        let guard = self.make(alloc)?;
        let mut writes = LinkWrites::new();
        let links = self.arena.links_mut(guard);
        links.next.store(guard, &mut writes);
        links.prev.store(guard, &mut writes);
        Ok(guard)
    }
}
