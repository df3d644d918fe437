//! The slots, in groups.
ghost use Rattle.std.specs.Prelude.{◌≡◌, ◌+◌, ◌%◌, ◌/◌, ◌^◌, ◌<◌, ◌≤◌, ◌++◌, [], IfOk, IfSome, IsSome};
ghost use Rattle.std.specs.Prelude.{Some, is_none, is_some, length, map, replicate, slice_index_or};
ghost use Rattle.std.specs.Prelude.{slice_set, vec_capacity, vec_len, ℕ};
ghost use Rattle.std.specs.{Option.option_map, Simd.Lanes.mask_l};
ghost use Rattle.hashlink_table.specs.Slots.{bare_grid, cleared, empty_record, kept_may_be, lanes_of, may_be};
ghost use Rattle.hashlink_table.specs.Slots.{with_guest, with_kept, with_next, without_kept};
ghost use Rattle.hashlink_table.specs.Chains.{guest_at, kept_at, next_at, own_at};
ghost use Rattle.hashlink_table.specs.Records.{has_guest, is_guest, is_taken};
ghost use Rattle.hashlink_table.specs.Stored.{bare_cell, no_guests, tag_of};

use super::bucket::tag;
use super::cell::END;
use super::group::Group;
use super::head::Head;
use super::lanes::LANES;
use super::mark::Mark;
use crate::hashed::Hashed;
use crate::steps::Steps;
use std::alloc::{AllocError, Global};
use std::marker::Model;
use std::sync::ledger::Ledger;

/// What a slot stores besides its node: the node's hash, and of a guest the slot of the next guest.
#[derive(Clone, Copy)]
pub struct Rest {
    hash: u32,
    link: u32,
}

/// The slots. Sixteen make a group. A hash belongs to a group, and its node may be in any slot of it, or as a
/// guest in a slot of any group.
///
/// Apart from the slots each group has a record: a tag of the hash of each of its slots, which of them have
/// nodes of the group, which have guests, and the chain of the group's own guests. A search compares the tags
/// at once.
#[derive(Drop)]
pub struct Slots<N> {
    groups: Vec<Group>,
    nodes: Vec<N>,
    rests: Vec<Rest>,
}

impl<N> Model for Slots<N> {
    ghost use Rattle.hashlink_table.specs.Slots.{grid_in, AreSlots, Grid};

    ghost Value = { Grid N };

    ghost view = { λ o. grid_in o.groups.items o.nodes.items o.rests.items };

    ghost invariant = { λ o. AreSlots o.groups.items o.nodes.items o.rests.items };
}

// What a new slot stores besides its node.
const BARE_REST: Rest = Rest {
    hash: 0,
    link: END as u32,
};

// Returns whether a slot with this mark has a guest with this tag.
#[inline]
fn has_guest_with(mark: Mark, tag: u8) -> bool
    ensures { result ≡ has_guest tag mark }
{
    !mark.own && mark.guest && mark.tag == tag
}

// Adds groups without nodes. There has to be room for them.
fn add_groups(groups: &mut Vec<Group>, count: usize)
    requires roomy { vec_len groups.old + count ≤ vec_capacity groups.old }
    ensures { groups.new.items ≡ groups.old.items ++ replicate count empty_record }
{
    for added in 0..count {
        groups.push_reserved(Group::new());
    }
}

impl<N: Copy> Slots<N> {
    /// Creates an empty list of slots. It does not allocate.
    pub fn new(alloc: Global) -> Self
        ensures { result ≡ record { cells = []; heads = [] } }
    {
        Slots {
            groups: Vec::new(alloc),
            nodes: Vec::new(alloc),
            rests: Vec::new(alloc),
        }
    }

    /// Creates `count` slots without nodes.
    pub fn with_cells(alloc: Global, filler: N, count: usize) -> Result<Self, AllocError>
        requires { count % LANES ≡ 0 }
        ensures { IfOk result (λ o. o ≡ bare_grid count) }
    {
        let mut groups = Vec::with_capacity(alloc, count / LANES)?;
        add_groups(&mut groups, count / LANES);
        let mut nodes = Vec::new(alloc);
        nodes.resize(count, filler)?;
        let mut rests = Vec::new(alloc);
        rests.resize(count, BARE_REST)?;
        Ok(Slots {
            groups,
            nodes,
            rests,
        })
    }

    /// Returns the number of slots.
    #[inline]
    pub fn len(&self) -> usize
        ensures { result ≡ length self.now.cells }
    {
        self.nodes.len()
    }

    /// Returns the chain of a group's guests.
    #[inline]
    pub fn head(&self, group: usize) -> Head
        requires { group < length self.now.heads }
        ensures { result ≡ slice_index_or self.now.heads group no_guests }
    {
        self.groups[group].head()
    }

    /// Sets the chain of a group's guests.
    #[inline]
    pub fn set_head(&mut self, group: usize, head: Head)
        requires { group < length self.old.heads }
        ensures { self.new ≡ record self.old { heads = slice_set self.old.heads group head } }
    {
        self.groups[group].set_head(head);
    }

    /// Returns the link of a slot.
    #[inline]
    pub fn next(&self, at: usize) -> usize
        requires { at < length self.now.cells }
        ensures value { result ≡ next_at self.now.cells at }
        ensures small { result ≤ END }
    {
        self.rests[at].link as usize
    }

    /// Sets the link of a slot.
    #[inline]
    pub fn set_next(&mut self, at: usize, to: usize)
        requires within { at < length self.old.cells }
        requires small { to ≤ END }
        ensures { self.new ≡ record self.old { cells = with_next self.old.cells at to } }
    {
        self.rests[at].link = to as u32;
    }

    // Returns the mark of a slot.
    #[inline]
    fn mark(&self, at: usize) -> Mark
        requires { at < length self.now.cells }
        ensures guest { is_guest result ≡ (slice_index_or self.now.cells at bare_cell).guest }
        ensures there { is_taken result ≡ is_some (kept_at self.now.cells at) }
        ensures agrees { (hash : ℕ)
            → has_guest (tag_of hash) result ≡ kept_may_be hash (guest_at self.now.cells at) }
    {
        self.groups[at / LANES].mark(at % LANES)
    }

    /// Returns whether a slot that has to have a node has a guest.
    #[inline]
    pub fn is_guest(&self, at: usize) -> bool
        requires { IsSome (kept_at self.now.cells at) }
        ensures { result ≡ (slice_index_or self.now.cells at bare_cell).guest }
    {
        !self.mark(at).own
    }

    /// Returns whether a slot may have a guest of this hash. It has a guest with the hash's tag then.
    #[inline]
    pub fn may_have_guest(&self, at: usize, hash: u32) -> bool
        requires { at < length self.now.cells }
        ensures { result ≡ kept_may_be hash (guest_at self.now.cells at) }
    {
        has_guest_with(self.mark(at), tag(hash))
    }

    /// Returns the node of a slot that has to have a node of its group, for a search. It takes a step.
    #[inline]
    pub fn look<L: Ledger>(&self, at: usize, steps: &mut Steps<L>) -> N
        requires { IsSome (own_at self.now.cells at) }
        ensures node { IfSome (own_at self.now.cells at) (λ kept. kept.node ≡ result) }
        ensures step { steps.new ≡ steps.old + 1 }
    {
        steps.tick();
        self.nodes[at]
    }

    /// Returns the node of a slot, or `None` if there is no such slot or it has no node of its group.
    #[inline]
    pub fn own_node(&self, at: usize) -> Option<N>
        ensures { option_map (λ k. k.node) (own_at self.now.cells at) ≡ result }
    {
        if at >= self.len() || !self.mark(at).own {
            return None;
        }
        Some(self.nodes[at])
    }

    /// Returns the hash and the node of a slot that has to have a guest, for a search. It takes a step.
    #[inline]
    pub fn look_at_guest<L: Ledger>(&self, at: usize, steps: &mut Steps<L>) -> Hashed<N>
        requires { IsSome (guest_at self.now.cells at) }
        ensures value { guest_at self.now.cells at ≡ Some result }
        ensures step { steps.new ≡ steps.old + 1 }
    {
        steps.tick();
        self.known(at)
    }

    /// Returns the hash and the node of a slot that has to have a node, for a move of the node.
    #[inline]
    pub(super) fn known(&self, at: usize) -> Hashed<N>
        requires { IsSome (kept_at self.now.cells at) }
        ensures { kept_at self.now.cells at ≡ Some result }
    {
        Hashed {
            hash: self.rests[at].hash,
            node: self.nodes[at],
        }
    }

    /// Puts a node into a slot of its group, in place of its old node, if any.
    #[inline]
    pub fn put(&mut self, at: usize, kept: Hashed<N>)
        requires { at < length self.old.cells }
        ensures { self.new ≡ record self.old { cells = with_kept self.old.cells at kept } }
    {
        self.groups[at / LANES].set_own(at % LANES, tag(kept.hash));
        self.nodes[at] = kept.node;
        self.rests[at].hash = kept.hash;
    }

    /// Puts a guest into a slot, in place of its old node, if any, with a link to the next guest.
    #[inline]
    pub fn put_guest(&mut self, at: usize, kept: Hashed<N>, next: usize)
        requires within { at < length self.old.cells }
        requires small { next ≤ END }
        ensures { self.new ≡ record self.old { cells = with_guest self.old.cells at kept next } }
    {
        self.groups[at / LANES].set_guest(at % LANES, tag(kept.hash));
        self.nodes[at] = kept.node;
        self.rests[at] = Rest {
            hash: kept.hash,
            link: next as u32,
        };
    }

    /// Removes the node from a slot.
    #[inline]
    pub fn set_free(&mut self, at: usize)
        requires { at < length self.old.cells }
        ensures { self.new ≡ record self.old { cells = without_kept self.old.cells at } }
    {
        self.groups[at / LANES].set_free(at % LANES);
    }

    /// Returns which of the sixteen slots from `base` on may have a node of this hash that is no guest, one
    /// bit for each. Each of them has a node.
    #[inline]
    pub fn may_have(&self, base: usize, hash: u32) -> u64
        requires within { base + LANES ≤ length self.now.cells }
        requires whole { base % LANES ≡ 0 }
        ensures lanes { result ≡ mask_l (map (may_be hash) (lanes_of self.now.cells base)) }
        ensures small { base + LANES < 2 ^ 64 }
    {
        self.groups[base / LANES].with_tag(tag(hash))
    }

    /// Returns which of the sixteen slots from `base` on have no node, one bit for each.
    #[inline]
    pub fn free(&self, base: usize) -> u64
        requires within { base + LANES ≤ length self.now.cells }
        requires whole { base % LANES ≡ 0 }
        ensures lanes { result ≡ mask_l (map (λ c. is_none c.kept) (lanes_of self.now.cells base)) }
        ensures small { base + LANES < 2 ^ 64 }
    {
        self.groups[base / LANES].free()
    }

    /// Returns which of the sixteen slots from `base` on have a node, one bit for each.
    #[inline]
    pub(super) fn taken(&self, base: usize) -> u64
        requires within { base + LANES ≤ length self.now.cells }
        requires whole { base % LANES ≡ 0 }
        ensures lanes { result ≡ mask_l (map (λ c. is_some c.kept) (lanes_of self.now.cells base)) }
        ensures small { base + LANES < 2 ^ 64 }
    {
        self.groups[base / LANES].taken()
    }

    /// Removes all nodes, and ends all chains. The links stay: that of a slot without a guest means nothing.
    pub fn clear(&mut self)
        ensures { self.new ≡ cleared self.old }
    {
        let count = self.groups.len();
        self.groups.clear();
        add_groups(&mut self.groups, count);
    }
}
