ghost use Rattle.std.specs.Prelude.{◌≡◌, ℕ, ◌+◌, ◌*◌, ◌%◌, ◌^◌, ◌<◌, ◌≤◌, ◌↔◌, ◌∷◌, [], false, true};
ghost use Rattle.std.specs.Prelude.{IfNone, IfOk, IfSome, IsOk, IsPermutation, OnErr, OnOk, Ok, Err};
ghost use Rattle.std.specs.{Prelude.max, Int.IsPowerOfTwo};
ghost use Rattle.hashlink_table.specs.declared.error.TryReserveError.TheVariants.{CapacityOverflow};
ghost use Rattle.hashlink_table.specs.Contents.{agreeing, len_of, AcceptsOnly, AreBuckets, CanAsk, EachKept};
ghost use Rattle.hashlink_table.specs.Contents.{IsAmple, Keeps, Removes};

use crate::error::TryReserveError;
use crate::hashed::Hashed;
use crate::search::{self, FoundNode};
use crate::steps::Steps;
use crate::store::bucket::slots_for;
use crate::store::lanes::LANES;
use crate::store::slots::Slots;
use crate::store::{growth, insertion, removal};
use std::alloc::{AllocError, Global};
use std::marker::{Brand, Model};
use std::sync::ledger::{Blank, Ledger};

/// The greatest room that a table can be asked for.
pub const MAX_ROOM: usize = 1 << 62;

/// A slot that no table has.
pub const NO_SLOT: usize = usize::MAX;

// The greatest number of slots, so that the index of each fits into a link. A request for more fails as a
// failed allocation does.
const MAX_SLOTS: usize = 1 << 31;

// A table grows to a room of at most twice what is needed, and of at most twice this if less is needed.
const MIN_ROOM: usize = 4;

/// Nodes by their hashes.
///
/// A new table does not allocate. One with room has a power of two of slots, at least 16 and at most 2^31.
/// The room is at most seven eighths of them. A slot takes 10 bytes and a node.
pub struct Table<N> {
    // The slots. Their number is 0 or a power of two, and a multiple of 16.
    slots: Slots<N>,
    alloc: Global,
    // Where the search for a free slot for a guest goes on.
    cursor: usize,
    len: usize,
    room: usize,
    // The node that is stored in a slot without a node.
    filler: N,
}

impl<N> Model for Table<N> {
    ghost use Rattle.hashlink_table.specs.Contents.{Contents, contents_code};

    ghost Value = { Contents N };

    ghost coded = { contents_code N.code };

    ghost use Rattle.hashlink_table.specs.Chains.{contents, IsSound};

    ghost view = { λ t. contents t.slots.cells t.room };

    ghost invariant = { λ t. IsSound t.slots.cells t.slots.heads t.len t.room };
}

// Written by hand, so that a drop is one call. A derived drop would be inlined wherever a table is dropped.
impl<N: Drop> Drop for Table<N> {
    fn drop(self) {
        let Table {
            slots: _,
            alloc: _,
            cursor: _,
            len: _,
            room: _,
            filler: _,
        } = self;
    }
}

impl<N: Copy> Table<N> {
    /// Creates an empty table. It does not allocate. `filler` is any node, which is stored in slots without a
    /// node.
    pub fn new(alloc: Global, filler: N) -> Self
        ensures { result ≡ record { nodes = []; room = 0 } }
    {
        Table {
            slots: Slots::new(alloc),
            alloc,
            cursor: 0,
            len: 0,
            room: 0,
            filler,
        }
    }

    /// Creates an empty table with room for `room` nodes. If that is 0, it does not allocate.
    pub fn with_room(alloc: Global, filler: N, room: usize) -> Result<Self, TryReserveError>
        ensures empty { IfOk result (λ t. t.nodes ≡ []) }
        ensures room { IfOk result (λ t. room ≤ t.room) }
        ensures bound { IfOk result (λ t. t.room ≤ 2 * max 4 room) }
        ensures nothing { room ≡ 0 → result ≡ Ok (record { nodes = []; room = 0 }) }
        ensures overflow { (result ≡ Err CapacityOverflow) ↔ (MAX_ROOM < room) }
    {
        let mut table = Table::new(alloc, filler);
        table.reserve(room)?;
        Ok(table)
    }

    /// Returns the number of nodes.
    #[inline]
    pub fn len(&self) -> usize
        ensures value { result ≡ len_of self.now }
        ensures within { result ≤ self.now.room }
    {
        self.len // a stored count, so this takes constant time
    }

    /// Returns the number of nodes that fit without an allocation.
    #[inline]
    pub fn room(&self) -> usize
        ensures value { result ≡ self.now.room }
        ensures small { result ≤ 2 ^ 62 }
    {
        self.room // at most what the slots allow
    }

    /// Inserts a node under its hash. It does not allocate.
    #[inline]
    pub fn insert_reserved(&mut self, hash: u32, node: N)
        requires { len_of self.old < self.old.room }
        ensures inserted { IsPermutation (record { hash = hash; node = node } ∷ self.old.nodes)
            self.new.nodes }
        ensures room { self.new.room ≡ self.old.room }
    {
        let kept = Hashed { hash, node };
        insertion::put(&mut self.slots, &mut self.cursor, kept);
        self.len += 1;
    }

    /// Removes a node of this hash that matches, and returns it. Its room is free then. It is
    /// `remove_counted` without a counter of the caller's.
    #[inline(always)]
    pub fn remove<F: Fn(N) -> bool>(&mut self, hash: u32, is_match: F) -> Option<N>
        requires callable { CanAsk self.old hash (λ node. F.pre is_match node) }
        requires telling { AcceptsOnly self.old hash (λ node. F.post is_match node true) }
        ensures { Removes self.old self.new hash (F.post is_match) result }
    {
        self.remove_from::<F, Brand>(hash, is_match, Blank::new(1))
    }

    // `remove_counted`, with a counter of its own.
    #[inline(always)]
    fn remove_from<F: Fn(N) -> bool, L: Ledger>(
        &mut self,
        hash: u32,
        is_match: F,
        blank: Blank,
    ) -> Option<N>
        requires name { blank.name ≡ L.name }
        requires parts { blank.parts ≡ L.parts }
        requires some_part { 0 < blank.parts }
        requires callable { CanAsk self.old hash (λ node. F.pre is_match node) }
        requires telling { AcceptsOnly self.old hash (λ node. F.post is_match node true) }
        ensures { Removes self.old self.new hash (F.post is_match) result }
    {
        let mut steps = Steps::<L>::new(blank);
        self.remove_counted(hash, is_match, &mut steps)
    }

    /// Removes a node of this hash that matches, and returns it. Its room is free then. It searches as `find`
    /// does, and compares no keys.
    #[inline(always)]
    pub fn remove_counted<F: Fn(N) -> bool, L: Ledger>(
        &mut self,
        hash: u32,
        is_match: F,
        steps: &mut Steps<L>,
    ) -> Option<N>
        requires callable { CanAsk self.old hash (λ node. F.pre is_match node) }
        requires telling { AcceptsOnly self.old hash (λ node. F.post is_match node true) }
        ensures removes { Removes self.old self.new hash (F.post is_match) result }
        ensures goes_on { steps.old ≤ steps.new }
        ensures cost { (m : ℕ) × AreBuckets self.old m × (steps.new ≤ steps.old + agreeing self.old hash m) }
    {
        if self.len == 0 {
            return None;
        }
        let found = search::seek(&self.slots, hash, is_match, steps)?;
        removal::take(&mut self.slots, found.slot);
        self.len -= 1;
        Some(found.node)
    }

    /// Does the same as `remove`, but looks first at `slot`, if there is one. It may be any number. If a
    /// search found the node there, and the node has not moved since, there is no second search.
    #[inline(always)]
    pub fn remove_at<F: Fn(N) -> bool>(
        &mut self,
        slot: Option<usize>,
        hash: u32,
        is_match: F,
    ) -> Option<N>
        requires callable { (h : ℕ) (node : N) → Keeps self.old h node → F.pre is_match node }
        requires telling { AcceptsOnly self.old hash (λ node. F.post is_match node true) }
        ensures { Removes self.old self.new hash (F.post is_match) result }
    {
        let Some(at) = slot else {
            return self.remove(hash, is_match);
        };
        if let Some(node) = self.slots.own_node(at) {
            if is_match(node) {
                removal::take(&mut self.slots, at);
                self.len -= 1;
                return Some(node);
            }
        }
        self.remove_elsewhere(hash, is_match)
    }

    // `remove`, out of line.
    #[cold]
    #[inline(never)]
    fn remove_elsewhere<F: Fn(N) -> bool>(&mut self, hash: u32, is_match: F) -> Option<N>
        requires callable { CanAsk self.old hash (λ node. F.pre is_match node) }
        requires telling { AcceptsOnly self.old hash (λ node. F.post is_match node true) }
        ensures { Removes self.old self.new hash (F.post is_match) result }
    {
        self.remove(hash, is_match)
    }

    /// Returns a node of this hash that matches, and its slot: the first at which it looks. It looks at the
    /// nodes of the hash's group whose tag is the hash's, and then at the group's guests of the hash's
    /// position. All of them are of the hash's bucket. It takes a step for each. It calls `is_match` only on
    /// nodes at which it looks; their hashes may differ from this one.
    #[inline(always)]
    pub fn find<F: Fn(N) -> bool, L: Ledger>(
        &self,
        hash: u32,
        is_match: F,
        steps: &mut Steps<L>,
    ) -> Option<FoundNode<N>>
        requires callable { CanAsk self.now hash (λ node. F.pre is_match node) }
        requires telling { AcceptsOnly self.now hash (λ node. F.post is_match node true) }
        ensures found { IfSome result (λ f. Keeps self.now hash f.node × F.post is_match f.node true) }
        ensures none { IfNone result (EachKept self.now hash (λ node. F.post is_match node false)) }
        ensures goes_on { steps.old ≤ steps.new }
        ensures cost { (m : ℕ) × AreBuckets self.now m × (steps.new ≤ steps.old + agreeing self.now hash m) }
    {
        if self.len == 0 {
            return None;
        }
        search::seek(&self.slots, hash, is_match, steps)
    }

    /// Does the same as `find`, without a counter of the caller's.
    #[inline(always)]
    pub fn look_up<F: Fn(N) -> bool>(&self, hash: u32, is_match: F) -> Option<FoundNode<N>>
        requires callable { CanAsk self.now hash (λ node. F.pre is_match node) }
        requires telling { AcceptsOnly self.now hash (λ node. F.post is_match node true) }
        ensures found { IfSome result (λ f. Keeps self.now hash f.node × F.post is_match f.node true) }
        ensures none { IfNone result (EachKept self.now hash (λ node. F.post is_match node false)) }
    {
        self.find_from::<F, Brand>(hash, is_match, Blank::new(1))
    }

    // `find`, with a counter of its own.
    #[inline(always)]
    fn find_from<F: Fn(N) -> bool, L: Ledger>(
        &self,
        hash: u32,
        is_match: F,
        blank: Blank,
    ) -> Option<FoundNode<N>>
        requires name { blank.name ≡ L.name }
        requires parts { blank.parts ≡ L.parts }
        requires some_part { 0 < blank.parts }
        requires callable { CanAsk self.now hash (λ node. F.pre is_match node) }
        requires telling { AcceptsOnly self.now hash (λ node. F.post is_match node true) }
        ensures found { IfSome result (λ f. Keeps self.now hash f.node × F.post is_match f.node true) }
        ensures none { IfNone result (EachKept self.now hash (λ node. F.post is_match node false)) }
    {
        let mut steps = Steps::<L>::new(blank);
        self.find(hash, is_match, &mut steps)
    }

    /// Removes every node, and keeps the room. It takes linear time in the number of slots.
    pub fn clear(&mut self)
        ensures { self.new ≡ record self.old { nodes = [] } }
    {
        self.slots.clear();
        self.len = 0;
    }

    /// Makes room for `additional` more nodes, if there is less, by doubling. It hashes nothing. If it fails,
    /// it changes nothing.
    #[inline]
    pub fn reserve(&mut self, additional: usize) -> Result<(), TryReserveError>
        ensures ok { OnOk result (len_of self.old + additional ≤ self.new.room) }
        ensures nodes { IsPermutation self.old.nodes self.new.nodes }
        ensures room { self.old.room ≤ self.new.room }
        ensures bound { self.new.room ≤ max self.old.room (2 * max 4 (len_of self.old + additional)) }
        ensures ample { self.old.room < self.new.room → IsAmple (len_of self.old + additional)
            self.new.room }
        ensures unchanged { OnErr result (self.new ≡ self.old) }

        // If there is enough room, it does not fail and changes nothing.
        ensures enough { len_of self.old + additional ≤ self.old.room → IsOk result × (self.new ≡ self.old) }
        ensures overflow { (result ≡ Err CapacityOverflow) ↔ (MAX_ROOM < len_of self.old + additional) }
    {
        if additional <= self.room - self.len {
            return Ok(());
        }
        if additional > MAX_ROOM - self.len {
            return Err(TryReserveError::CapacityOverflow);
        }
        let needed = self.len + additional;
        let count = slots_for(needed);
        let room = (2 * needed.max(MIN_ROOM)).min(count / 8 * 7);
        self.resize(count, room)?;
        Ok(())
    }

    /// Frees memory. Afterwards the room is the number of nodes, and a table without nodes has no memory. If
    /// it fails, it changes nothing.
    pub fn shrink(&mut self) -> Result<(), AllocError>
        ensures nodes { IsPermutation self.old.nodes self.new.nodes }
        ensures ok { OnOk result (self.new.room ≡ len_of self.old) }
        ensures unchanged { OnErr result (self.new ≡ self.old) }
        ensures empty { len_of self.old ≡ 0 → IsOk result }
    {
        if self.len == 0 {
            let alloc = self.alloc;
            *self = Table::new(alloc, self.filler);
            return Ok(());
        }
        self.resize(slots_for(self.len), self.len)
    }

    // Changes the number of slots to `count`, and the room. If the number of slots stays, only the room
    // changes. Else the nodes move to new slots. If it fails, it changes nothing.
    #[cold]
    fn resize(&mut self, count: usize, room: usize) -> Result<(), AllocError>
        requires power { IsPowerOfTwo count }
        requires held { len_of self.old ≤ room }
        requires some { 0 < room }
        requires headed { 8 * room ≤ 7 * count }
        requires bounded { count ≤ 4 * max 8 room }
        requires whole { count % LANES ≡ 0 }
        ensures nodes { IsPermutation self.old.nodes self.new.nodes }
        ensures ok { OnOk result (self.new.room ≡ room) }
        ensures unchanged { OnErr result (self.new ≡ self.old) }
    {
        if count == self.slots.len() {
            self.room = room;
            return Ok(());
        }
        if count > MAX_SLOTS {
            return Err(AllocError);
        }
        let moved = growth::moved(self.alloc, self.filler, &self.slots, count)?;
        self.slots = moved;
        self.room = room;
        Ok(())
    }
}
