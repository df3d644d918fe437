//! The owner of the nodes' blocks. All code that follows a pointer is in this file.
//!
//! A block that no arena owns is std's `Vacant`: it contains nothing, and has the allocator to which its
//! memory returns. It is not `Drop`: code that has one must free it or give it to an arena.
ghost use Rattle.std.specs.Prelude.{◌≡◌, ◌^◌, ◌<◌, List, [], ◌∷◌, None, Some, IsSome, IsNone, IfSome};
ghost use Rattle.std.specs.{Option.option_map, Map.{lookup, remove_entry}, Borrow.sem};
ghost use Rattle.hashlink_nodes.specs.{Node.same_node, declared.node.Node.Node};
ghost use Rattle.hashlink_nodes.specs.Kept.{Kept, kept, alter, entry_in, number_word, with_entry};
ghost use Rattle.hashlink_nodes.specs.Blocks.{AreFound, blocks_of, without};
ghost use Rattle.hashlink_nodes.specs.Ownership.{blocks_own, blocks_lent};

use crate::node::Node;
use crate::pool::Links;
use std::alloc::Global;
use std::marker::{Model, PhantomData, Send, Sync};
use std::mem::size_of;
use std_alloc::room::Vacant;

/// The contents of a node's block. The pair is there only if the node holds an entry. Nothing in the block
/// tells this but its number, which is `NO_ENTRY` if there is no entry.
///
/// A key and a value of 8 bytes each are in one cache line, wherever `malloc` puts the block.
pub struct Block<T> {
    pair: T,
    number: usize,
    links: Links,
}

// Besides its pair, a block takes 24 bytes.
const _: () = prove!(size_of::<Block<(u64, u64)>>() == 40);

/// The number of a block that has no pair.
pub(crate) const NO_ENTRY: usize = 1 << 48;

/// The blocks of nodes, each from `Global`. A block has links and, if it holds an entry, a number and a pair.
/// The arena itself takes no space: its user keeps the nodes.
pub(crate) struct Arena<T> {
    mark: PhantomData<*const T>,
    pub(crate) ghost blocks: { List (Node × Kept T) },
}

impl<T> Model for Arena<T> {
    ghost also_owns = { λ a. blocks_own T.row a.blocks };

    ghost also_shares = { λ a _ κ. blocks_lent T.row a.blocks κ };
}

// An arena is the only owner of its blocks, as a `Vec` is of its items. If it is moved to another thread, all
// pairs move with it, and no other pointer to them is left.
unsafe impl<T: Send> Send for Arena<T> {}

// A reference to an arena reads links and pairs, and writes none: whatever writes takes the arena by `&mut`,
// so no other thread has a reference to it then.
unsafe impl<T: Sync> Sync for Arena<T> {}

impl<T> Arena<T> {
    ghost use Rattle.hashlink_nodes.specs.ArenaLends.{LendsLinks, LendsPair};

    pub(crate) fn new() -> Arena<T>
        ensures { result.blocks ≡ [] }
    {
        Arena { mark: PhantomData }
    }

    /// Takes the block over, without a pair, and returns its node.
    pub(crate) fn keep(&mut self, vacant: Vacant<Block<T>, Global>, links: Links) -> Node
        ensures kept { self.new.blocks ≡ (result, kept links None) ∷ self.old.blocks }
        ensures apart { IsNone (lookup (same_node result) self.old.blocks) }
    {
        let Vacant { ptr, alloc: _ } = vacant;
        unsafe {
            (&raw mut (*ptr).number).write(NO_ENTRY);
            (&raw mut (*ptr).links).write(links);
        }
        Node { at: ptr as *mut u8 }
    }

    /// Releases the block of the node, which has no pair: returns it to the caller.
    pub(crate) fn release(&mut self, node: Node, alloc: Global) -> Vacant<Block<T>, Global>
        requires there { IsSome (lookup (same_node node) self.old.blocks) }
        requires bare { entry_in (lookup (same_node node) self.old.blocks) ≡ None }
        ensures { self.new.blocks ≡ remove_entry (same_node node) self.old.blocks }
    {
        Vacant {
            ptr: node.at as *mut Block<T>,
            alloc,
        }
    }

    #[inline]
    pub(crate) fn links(&self, node: Node) -> &Links
        requires { IsSome (lookup (same_node node) self.now.blocks) }
        ensures { option_map (λ k. k.links) (lookup (same_node node) self.now.blocks) ≡ Some result.now }
    {
        unsafe { &(*(node.at as *mut Block<T>)).links }
    }

    #[inline]
    pub(crate) fn links_mut(&mut self, node: Node) -> &mut Links
        requires { IsSome (lookup (same_node node) self.old.blocks) }
        ensures* lends { sem 𝓛 (LendsLinks T.row self.entry node result) }
        ensures value { option_map (λ k. k.links) (lookup (same_node node) self.old.blocks)
            ≡ Some result.now }
    {
        unsafe { &mut (*(node.at as *mut Block<T>)).links }
    }

    /// Returns the node's number, or `NO_ENTRY`.
    #[inline]
    pub(crate) fn number(&self, node: Node) -> &usize
        requires { IsSome (lookup (same_node node) self.now.blocks) }
        ensures word { option_map (λ k. number_word k.entry) (lookup (same_node node) self.now.blocks)
            ≡ Some result.now }
        ensures small { IfSome (entry_in (lookup (same_node node) self.now.blocks)) (λ e. e.0 < 2 ^ 48) }
    {
        unsafe { &(*(node.at as *mut Block<T>)).number }
    }

    #[inline]
    pub(crate) fn pair(&self, node: Node) -> &T
        requires { IsSome (entry_in (lookup (same_node node) self.now.blocks)) }
        ensures { option_map (λ e. e.1) (entry_in (lookup (same_node node) self.now.blocks))
            ≡ Some result.now }
    {
        unsafe { &(*(node.at as *mut Block<T>)).pair }
    }

    #[inline(always)]
    pub(crate) fn pair_mut(&mut self, node: Node) -> &mut T
        requires { IsSome (entry_in (lookup (same_node node) self.old.blocks)) }
        ensures* lends { sem 𝓛 (LendsPair T.row self.entry node result) }
        ensures value { option_map (λ e. e.1) (entry_in (lookup (same_node node) self.old.blocks))
            ≡ Some result.now }
    {
        unsafe { &mut (*(node.at as *mut Block<T>)).pair }
    }

    /// Moves a pair into a block that has none.
    #[inline]
    pub(crate) fn fill(&mut self, node: Node, number: usize, pair: T)
        requires there { IsSome (lookup (same_node node) self.old.blocks) }
        requires bare { entry_in (lookup (same_node node) self.old.blocks) ≡ None }
        requires small { number < 2 ^ 48 }
        ensures { self.new.blocks
            ≡ alter (same_node node) (with_entry (Some (number, pair))) self.old.blocks }
    {
        let block = node.at as *mut Block<T>;
        unsafe {
            (&raw mut (*block).number).write(number);
            (&raw mut (*block).pair).write(pair);
        }
    }

    /// Moves the pair out, and leaves the block without one.
    #[inline]
    pub(crate) fn take(&mut self, node: Node) -> T
        requires { IsSome (entry_in (lookup (same_node node) self.old.blocks)) }
        ensures pair { option_map (λ e. e.1) (entry_in (lookup (same_node node) self.old.blocks))
            ≡ Some result }
        ensures left { self.new.blocks ≡ alter (same_node node) (with_entry None) self.old.blocks }
    {
        let block = node.at as *mut Block<T>;
        unsafe {
            (&raw mut (*block).number).write(NO_ENTRY);
            (&raw const (*block).pair).read()
        }
    }

    /// Takes the blocks of these nodes out, into an arena of their own.
    #[inline(always)]
    pub(crate) fn part(&mut self) -> Arena<T>
        ghost nodes: { List Node }
        requires { AreFound nodes self.old.blocks }
        ensures parted { result.blocks ≡ blocks_of nodes self.old.blocks }
        ensures left { self.new.blocks ≡ without nodes self.old.blocks }
    {
        Arena { mark: PhantomData }
    }

    /// Ends an arena that has no block left.
    pub(crate) fn end(self)
        requires { self.blocks ≡ [] }
    {
        let Arena { mark: _ } = self;
    }
}
