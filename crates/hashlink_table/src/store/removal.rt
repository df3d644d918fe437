//! Removals of a node from its slot.
ghost use Rattle.std.specs.Prelude.{◌≡◌, ◌≢◌, ℕ, ◌*◌, ◌/◌, ◌%◌, ◌<◌, ◌≤◌, ◌∷◌, IfSome, IsPermutation, IsSome};
ghost use Rattle.std.specs.Prelude.{Some, false, slice_index_or};
ghost use Rattle.std.specs.{Prelude.length, Int.IsPowerOfTwo};
ghost use Rattle.hashlink_table.specs.Chains.{cell_at, chain_at, first_at, kept_at, nodes_in};
ghost use Rattle.hashlink_table.specs.Chains.{IsArranged, IsLinked, IsLinkedBut, SameMasks, SameNodes};
ghost use Rattle.hashlink_table.specs.Stored.{bare_cell};

use super::bucket::bucket_of;
use super::cell::END;
use super::lanes::LANES;
use super::slots::Slots;
use crate::hashed::Hashed;

// Removes a guest from its group's chain: the link to it now leads to the guest after it.
fn unlink<N: Copy>(slots: &mut Slots<N>, group: usize, guest: usize)
    requires within { group < length slots.old.heads }
    requires few { length slots.old.heads ≤ length slots.old.cells }
    requires small { length slots.old.cells ≤ END }
    requires on_chain { chain_at (length slots.old.cells) slots.old.cells guest ≡ group }
    requires linked { IsLinked slots.old.cells slots.old.heads }
    ensures unlinked { IsLinkedBut slots.new.cells slots.new.heads guest }
    ensures nodes { SameNodes slots.old.cells slots.new.cells }
    ensures masks { SameMasks slots.old.heads slots.new.heads }
{
    let after = slots.next(guest);
    let head = slots.head(group);
    let first = head.first as usize;
    if first == guest {
        slots.set_head(group, head.from(after));
        return;
    }
    let mut at = first;
    while slots.next(at) != guest {
        at = slots.next(at);
    }
    slots.set_next(at, after);
}

// Removes a guest from its slot and from its group's chain.
fn take_out<N: Copy>(slots: &mut Slots<N>, group: usize, guest: usize) -> Hashed<N>
    requires within { group < length slots.old.heads }
    requires whole { length slots.old.cells % LANES ≡ 0 }
    requires small { length slots.old.cells ≤ END }
    requires on_chain { chain_at (length slots.old.cells) slots.old.cells guest ≡ group }
    requires arranged { IsArranged slots.old.cells slots.old.heads }
    ensures arranged { IsArranged slots.new.cells slots.new.heads }
    ensures len { length slots.new.cells ≡ length slots.old.cells }
    ensures kept { kept_at slots.old.cells guest ≡ Some result }
    ensures others { (at : ℕ) → at ≢ guest → cell_at slots.new.cells at ≡ cell_at slots.old.cells at }
    ensures nodes { IsPermutation (nodes_in slots.old.cells) (result ∷ nodes_in slots.new.cells) }
{
    unlink(slots, group, guest);
    let kept = slots.known(guest);
    slots.set_free(guest);
    kept
}

/// Removes the node that a search found. If it was no guest and its group has guests, the first of them moves
/// to the slot. It returns nothing, so that no caller can read a hash by it.
#[inline(always)]
pub fn take<N: Copy>(slots: &mut Slots<N>, at: usize)
    requires masked { IsPowerOfTwo (length slots.old.cells) }
    requires whole { length slots.old.cells % LANES ≡ 0 }
    requires small { length slots.old.cells ≤ END }
    requires there { IsSome (kept_at slots.old.cells at) }
    requires arranged { IsArranged slots.old.cells slots.old.heads }
    ensures arranged { IsArranged slots.new.cells slots.new.heads }
    ensures len { length slots.new.cells ≡ length slots.old.cells }
    ensures nodes { IfSome (kept_at slots.old.cells at)
        (λ kept. IsPermutation (nodes_in slots.old.cells) (kept ∷ nodes_in slots.new.cells)) }
{
    if slots.is_guest(at) || slots.head(at / LANES).first as usize != END {
        take_linked(slots, at);
        return;
    }
    slots.set_free(at);
}

// `take`, if the node is a guest or its group has guests. It is rare, and so out of line.
#[cold]
#[inline(never)]
fn take_linked<N: Copy>(slots: &mut Slots<N>, at: usize)
    requires linked { (slice_index_or slots.old.cells at bare_cell).guest ≡ false
        → first_at slots.old.heads (at / LANES) ≢ END }
    requires masked { IsPowerOfTwo (length slots.old.cells) }
    requires whole { length slots.old.cells % LANES ≡ 0 }
    requires small { length slots.old.cells ≤ END }
    requires there { IsSome (kept_at slots.old.cells at) }
    requires arranged { IsArranged slots.old.cells slots.old.heads }
    ensures arranged { IsArranged slots.new.cells slots.new.heads }
    ensures len { length slots.new.cells ≡ length slots.old.cells }
    ensures nodes { IfSome (kept_at slots.old.cells at)
        (λ kept. IsPermutation (nodes_in slots.old.cells) (kept ∷ nodes_in slots.new.cells)) }
{
    if slots.is_guest(at) {
        let group = bucket_of(slots.known(at).hash, slots.len()) / LANES;
        let _taken = take_out(slots, group, at);
        return;
    }
    let group = at / LANES;
    let first = slots.head(group).first as usize;
    let follower = take_out(slots, group, first);
    slots.put(at, follower);
}
