//! The blocks of a ring, by their nodes: safe code over the arena.
ghost use Rattle.std.specs.Prelude.{◌≡◌, ◌^◌, ◌<◌, true, false, [], IfOk, OnErr, None, Some, IsSome, is_some};
ghost use Rattle.std.specs.Prelude.{List, length, map};
ghost use Rattle.std.specs.{Bool.then_some, Option.option_map, Borrow.sem, Map.keys_of};
ghost use Rattle.hashlink_nodes.specs.State.{state, hold, detached, attached, AreThere, Drops, GuardIs};
ghost use Rattle.hashlink_nodes.specs.{Ring.{Entry, held, pair_of, with_key}, Pool.state_of};
ghost use Rattle.hashlink_nodes.specs.{Parting.{IsPath, Parts}, declared.node.Node.Node};

mod link;
mod links;

pub(crate) use self::links::Links;
use crate::arena::{Arena, Block, NO_ENTRY};
use crate::chain::Chain;
use crate::link_writes::LinkWrites;
use crate::node::Node;
use std::alloc::{AllocError, Global};
use std::mem;
use std_alloc::room::Vacant;

/// The blocks of the nodes, and the number of links stored in them.
pub(crate) struct Pool<K, V> {
    arena: Arena<(K, V)>,
    writes: LinkWrites,
}

impl<K, V> Pool<K, V> {
    ghost use Rattle.hashlink_nodes.specs.PoolLends.{LendsPoolValue};

    pub(crate) fn new() -> Self
        ensures { state_of result ≡ state [] 0 }
    {
        Pool {
            arena: Arena::new(),
            writes: LinkWrites::new(),
        }
    }

    /// Returns whether the node holds an entry.
    #[inline]
    pub(crate) fn is_full(&self, node: Node) -> bool
        requires { (state_of self.now).has node ≡ true }
        ensures { is_some ((state_of self.now).held node) ≡ result }
    {
        *self.arena.number(node) != NO_ENTRY
    }

    /// Returns the place of a node: the node if it holds an entry, and else that of the guard. It branches, so
    /// that a caller's next step need not wait for the number: a processor predicts the branch.
    #[inline(always)]
    pub(crate) fn place_of(&self, node: Node) -> Option<Node>
        requires { (state_of self.now).has node ≡ true }
        ensures { then_some (is_some ((state_of self.now).held node)) node ≡ result }
    {
        if !self.is_full(node) {
            return self.place_at_guard(node);
        }
        Some(node)
    }

    // `place_of`, out of line, for the guard. The compiler cannot know that it is `None`, and make it a choice
    // without a branch.
    #[cold]
    #[inline(never)]
    fn place_at_guard(&self, node: Node) -> Option<Node>
        requires { (state_of self.now).has node ≡ true }
        ensures { then_some (is_some ((state_of self.now).held node)) node ≡ result }
    {
        self.is_full(node).then_some(node)
    }

    #[inline]
    pub(crate) fn number(&self, node: Node) -> usize
        requires { IsSome ((state_of self.now).held node) }
        ensures { option_map (λ h. h.number) ((state_of self.now).held node) ≡ Some result }
    {
        *self.arena.number(node)
    }

    #[inline]
    pub(crate) fn pair(&self, node: Node) -> (&K, &V)
        requires { IsSome ((state_of self.now).held node) }
        ensures { option_map pair_of ((state_of self.now).held node) ≡ Some (result.0.now, result.1.now) }
    {
        let pair = self.arena.pair(node);
        (&pair.0, &pair.1)
    }

    /// Puts an entry into a node that holds none.
    #[inline]
    pub(crate) fn fill(&mut self, node: Node, number: usize, key: K, value: V)
        requires has { (state_of self.old).has node ≡ true }
        requires bare { (state_of self.old).held node ≡ None }
        requires small { number < 2 ^ 48 }
        ensures { state_of self.new ≡ hold node (Some (held number key value)) (state_of self.old) }
    {
        self.arena.fill(node, number, (key, value));
    }

    /// Takes the entry out of the node, and returns its pair.
    #[inline]
    pub(crate) fn take(&mut self, node: Node) -> (K, V)
        requires { IsSome ((state_of self.old).held node) }
        ensures was { option_map pair_of ((state_of self.old).held node) ≡ Some result }
        ensures is { state_of self.new ≡ hold node None (state_of self.old) }
    {
        self.arena.take(node)
    }

    /// Returns the key and a mutable reference to the value.
    #[inline(always)]
    pub(crate) fn entry_mut(&mut self, node: Node) -> (&K, &mut V)
        requires { IsSome ((state_of self.old).held node) }
        ensures* lends { sem 𝓛 (LendsPoolValue K.row V.row self.entry node result) }
        ensures pair { option_map pair_of ((state_of self.old).held node) ≡ Some
            (result.0.now, result.1.now) }
    {
        let pair = self.arena.pair_mut(node);
        (&pair.0, &mut pair.1)
    }

    /// Replaces the key, and returns the old one.
    pub(crate) fn replace_key(&mut self, node: Node, key: K) -> K
        requires { IsSome ((state_of self.old).held node) }
        ensures key { option_map (λ h. h.key) ((state_of self.old).held node) ≡ Some result }
        ensures is { state_of self.new
            ≡ hold node (option_map (λ h. with_key h key) ((state_of self.old).held node))
            (state_of self.old) }
    {
        mem::replace(&mut self.arena.pair_mut(node).0, key)
    }

    /// Returns the guard. If there is none, it allocates one.
    pub(crate) fn guard(&mut self, guard: Option<Node>, alloc: Global) -> Result<Node, AllocError>
        ensures made { IfOk result (λ g. GuardIs (state_of self.old) (state_of self.new) guard g) }
        ensures unchanged { OnErr result (self.new ≡ self.old) }
    {
        match guard {
            Some(guard) => Ok(guard),
            None => self.make_guard(alloc),
        }
    }

    /// Frees the block of a node that holds nothing.
    pub(crate) fn release(&mut self, node: Node, alloc: Global)
        requires has { (state_of self.old).has node ≡ true }
        requires bare { (state_of self.old).held node ≡ None }
        ensures { Drops node (state_of self.old) (state_of self.new) }
    {
        self.vacate(node, alloc).free();
    }

    /// Takes the block of a node that holds nothing, and returns it.
    #[inline(always)]
    pub(crate) fn vacate(&mut self, node: Node, alloc: Global) -> Vacant<Block<(K, V)>, Global>
        requires has { (state_of self.old).has node ≡ true }
        requires bare { (state_of self.old).held node ≡ None }
        ensures { Drops node (state_of self.old) (state_of self.new) }
    {
        self.arena.release(node, alloc)
    }

    /// Takes the nodes of a path out, with their entries and blocks.
    pub(crate) fn part(&mut self, first: Node, last: Node, len: usize, alloc: Global) -> Chain<K, V>
        ghost entries: { List (Node × Entry K V) }
        requires path { IsPath (state_of self.old) first last entries }
        requires len { length entries ≡ len }
        ensures pairs { result ≡ map (λ e. pair_of e.1) entries }
        ensures left { Parts (keys_of entries) (state_of self.old) (state_of self.new) }
    {
        let pool = Pool {
            arena: self.arena.part(),
            writes: LinkWrites::new(),
        };
        Chain {
            pool,
            first,
            last,
            len,
            alloc,
        }
    }

    /// Links the neighbours of the node past it.
    #[inline]
    pub(crate) fn detach(&mut self, node: Node)
        requires { AreThere (state_of self.old) node ((state_of self.old).prev node)
            ((state_of self.old).next node) }
        ensures { state_of self.new ≡ detached node (state_of self.old) }
    {
        let next = self.next(node);
        let prev = self.prev(node);
        self.store_next(prev, next);
        self.store_prev(next, prev);
    }

    /// Links the node into the ring before another one.
    #[inline]
    pub(crate) fn attach_before(&mut self, node: Node, next: Node)
        requires { AreThere (state_of self.old) node ((state_of self.old).prev next) next }
        ensures { state_of self.new
            ≡ attached node ((state_of self.old).prev next) next (state_of self.old) }
    {
        let prev = self.prev(next);
        self.attach(node, prev, next);
    }

    /// Links the node into the ring after another one.
    #[inline]
    pub(crate) fn attach_after(&mut self, node: Node, prev: Node)
        requires { AreThere (state_of self.old) node prev ((state_of self.old).next prev) }
        ensures { state_of self.new
            ≡ attached node prev ((state_of self.old).next prev) (state_of self.old) }
    {
        let next = self.next(prev);
        self.attach(node, prev, next);
    }

    /// Links the node into the ring between two others.
    #[inline]
    fn attach(&mut self, node: Node, prev: Node, next: Node)
        requires { AreThere (state_of self.old) node prev next }
        ensures { state_of self.new ≡ attached node prev next (state_of self.old) }
    {
        self.store_next(node, next);
        self.store_prev(node, prev);
        self.store_next(prev, node);
        self.store_prev(next, node);
    }

    /// Ends a pool that has no block left.
    pub(crate) fn end(self)
        requires { (state_of self).size ≡ 0 }
    {
        let Pool { arena, writes: _ } = self;
        arena.end();
    }
}
