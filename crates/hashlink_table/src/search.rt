//! Searches. They read a node only by `look` and `look_at_guest`, which count it.
ghost use Rattle.std.specs.Prelude.{◌≡◌, ℕ, ◌+◌, ◌%◌, ◌/◌, ◌<◌, ◌≤◌, ◌==◌, IfNone, IfSome, Some};
ghost use Rattle.std.specs.{Prelude.{count_by, false, length, true}, Int.IsPowerOfTwo};
ghost use Rattle.hashlink_table.specs.{declared.hashed.Hashed.Hashed, Stored.tag_of};
ghost use Rattle.hashlink_table.specs.Slots.{lanes_of, may_be};
ghost use Rattle.hashlink_table.specs.Chains.{bucket_in, first_at, guest_at, guest_of, kept_at, nodes_in};
ghost use Rattle.hashlink_table.specs.Chains.{own_at, some_kept, HasNode, IsArranged, IsLinked};

use super::steps::Steps;
use super::store::bucket::base_of;
use super::store::cell::END;
use super::store::lanes::LANES;
use super::store::slots::Slots;
use std::sync::ledger::Ledger;

/// The result of a search: a node, and its slot. Later changes of the table may move the node.
#[derive(Clone, Copy)]
pub struct FoundNode<N> {
    pub node: N,
    pub slot: usize,
}

// Searches are inlined into the lookups of the layers above, which are inlined into their callers.

// Returns the first slot of a group whose node has this hash, is no guest and matches, and the node. It looks
// only at nodes whose tag is the hash's, and takes a step for each.
#[inline(always)]
fn seek_slots<N: Copy, F: Fn(N) -> bool, L: Ledger>(
    slots: &Slots<N>,
    base: usize,
    hash: u32,
    is_match: &F,
    steps: &mut Steps<L>,
) -> Option<FoundNode<N>>
    requires within { base + LANES ≤ length slots.now.cells }
    requires whole { base % LANES ≡ 0 }
    requires callable { (at : ℕ) (kept : Hashed N) → base ≤ at → at < base + LANES
        → own_at slots.now.cells at ≡ Some kept → tag_of kept.hash ≡ tag_of hash
        → F.pre is_match.now kept.node }
    requires telling { (at : ℕ) (kept : Hashed N) → own_at slots.now.cells at ≡ Some kept
        → F.post is_match.now kept.node true → kept.hash ≡ hash }
    ensures found { IfSome result (λ f. (own_at slots.now.cells f.slot ≡ some_kept hash f.node)
        × F.post is_match.now f.node true) }
    ensures none { IfNone result ((at : ℕ) (node : N) → base ≤ at → at < base + LANES
        → own_at slots.now.cells at ≡ some_kept hash node → F.post is_match.now node false) }
    ensures goes_on { steps.old ≤ steps.new }
    ensures cost { steps.new ≤ steps.old + count_by (may_be hash) (lanes_of slots.now.cells base) }
{
    let mut at = base;
    let mut hits = slots.may_have(base, hash);
    while hits != 0 {
        let skipped = hits.trailing_zeros();
        at += skipped as usize;
        let node = slots.look(at, steps);
        if is_match(node) {
            return Some(FoundNode { node, slot: at });
        }
        at += 1;
        hits = (hits >> skipped) / 2;
    }
    None
}

// Returns the first guest of the hash's group that has this hash and matches. `at` is the slot of the group's
// first guest, and then that of the guest that is returned. It takes a step for each guest at which it looks:
// those of the hash's bucket.
#[cold]
#[inline(never)]
fn seek_guests<N: Copy, F: Fn(N) -> bool, L: Ledger>(
    slots: &Slots<N>,
    at: &mut usize,
    hash: u32,
    is_match: F,
    steps: &mut Steps<L>,
) -> Option<N>
    requires masked { IsPowerOfTwo (length slots.now.cells) }
    requires whole { length slots.now.cells % LANES ≡ 0 }
    requires group { hash % length slots.now.cells / LANES < length slots.now.heads }
    requires few { length slots.now.heads ≤ length slots.now.cells }
    requires first { at.old ≡ first_at slots.now.heads (hash % length slots.now.cells / LANES) }
    requires linked { IsLinked slots.now.cells slots.now.heads }
    requires callable { (at : ℕ) (node : N) → guest_at slots.now.cells at ≡ some_kept hash node
        → F.pre is_match node }
    ensures found { IfSome result (λ node. (guest_at slots.now.cells at.new ≡ some_kept hash node)
        × F.post is_match node true) }
    ensures none { IfNone result ((at : ℕ) (node : N) → guest_at slots.now.cells at ≡ some_kept hash node
        → F.post is_match node false) }
    ensures goes_on { steps.old ≤ steps.new }
    ensures cost { let m = length slots.now.cells in let b = hash % m in steps.new
        ≤ steps.old + count_by (λ c. bucket_in m (guest_of c) == b) slots.now.cells }
{
    while *at != END {
        if slots.may_have_guest(*at, hash) {
            let kept = slots.look_at_guest(*at, steps);
            if kept.hash == hash && is_match(kept.node) {
                return Some(kept.node);
            }
        }
        *at = slots.next(*at);
    }
    None
}

// Returns the first node that has this hash and matches, and its slot: in its group, or else among the guests
// of the group.
#[inline(always)]
pub fn seek<N: Copy, F: Fn(N) -> bool, L: Ledger>(
    slots: &Slots<N>,
    hash: u32,
    is_match: F,
    steps: &mut Steps<L>,
) -> Option<FoundNode<N>>
    requires masked { IsPowerOfTwo (length slots.now.cells) }
    requires whole { length slots.now.cells % LANES ≡ 0 }
    requires arranged { IsArranged slots.now.cells slots.now.heads }
    requires callable { (h : ℕ) (node : N) → HasNode slots.now.cells h node
        → h % length slots.now.cells ≡ hash % length slots.now.cells → F.pre is_match node }
    requires telling { (h : ℕ) (node : N) → HasNode slots.now.cells h node
        → F.post is_match node true → h ≡ hash }
    ensures found { IfSome result (λ f. (kept_at slots.now.cells f.slot ≡ some_kept hash f.node)
        × F.post is_match f.node true) }
    ensures none { IfNone result
        ((node : N) → HasNode slots.now.cells hash node → F.post is_match node false) }
    ensures goes_on { steps.old ≤ steps.new }
    ensures cost { let m = length slots.now.cells in steps.new
        ≤ steps.old + count_by (λ k. k.hash % m == hash % m) (nodes_in slots.now.cells) }
{
    let base = base_of(hash, slots.len());
    if let Some(found) = seek_slots(slots, base, hash, &is_match, steps) {
        return Some(found);
    }
    let head = slots.head(base / LANES);
    if !head.may_have(hash) {
        return None; // no guest of the group has the hash
    }
    let mut at = head.first as usize;
    let node = seek_guests(slots, &mut at, hash, is_match, steps)?;
    Some(FoundNode { node, slot: at })
}
