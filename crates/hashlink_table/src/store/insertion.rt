//! Inserts of a node into a slot.
ghost use Rattle.std.specs.Prelude.{◌≡◌, ℕ, ◌+◌, ◌-◌, ◌*◌, ◌%◌, ◌/◌, ◌<◌, ◌≤◌, ◌∷◌, IfNone, IfSome, IsSome};
ghost use Rattle.std.specs.{Prelude.{IsPermutation, None, length}, Int.IsPowerOfTwo};
ghost use Rattle.hashlink_table.specs.Chains.{kept_at, nodes_in, IsArranged};

use super::bucket::{base_of, group_of};
use super::cell::END;
use super::lanes::LANES;
use super::slots::Slots;
use crate::hashed::Hashed;

// The slots around a full group that are tried first for its guest: those whose tags share a line of the
// cache.
const NEAR: usize = 4 * LANES;

// Returns the first free slot of these groups.
fn first_free<N: Copy>(slots: &Slots<N>, from: usize, to: usize) -> Option<usize>
    requires begins { from % LANES ≡ 0 }
    requires ends { to % LANES ≡ 0 }
    requires within { to ≤ length slots.now.cells }
    ensures some { IfSome result (λ at. (at < length slots.now.cells) × (kept_at slots.now.cells at ≡ None)) }
    ensures none { IfNone result
        ((at : ℕ) → from ≤ at → at < to → IsSome (kept_at slots.now.cells at)) }
{
    let mut base = from;
    while base < to {
        let free = slots.free(base);
        if free != 0 {
            return Some(base + free.trailing_zeros() as usize);
        }
        base += LANES;
    }
    None
}

// Returns a free slot: near the group from `base` on, or else the next one from the cursor on, which moves
// there.
fn lodging<N: Copy>(slots: &Slots<N>, cursor: &mut usize, base: usize) -> usize
    requires whole { length slots.now.cells % LANES ≡ 0 }
    requires small { length slots.now.cells ≤ END }
    requires within { base < length slots.now.cells }
    requires roomy { length (nodes_in slots.now.cells) < length slots.now.cells }
    ensures within { result < length slots.now.cells }
    ensures free { kept_at slots.now.cells result ≡ None }
{
    let count = slots.len();
    let near = base - base % NEAR;
    if let Some(at) = first_free(slots, near, (near + NEAR).min(count)) {
        return at;
    }
    let start = group_of((*cursor).min(count));
    if let Some(at) = first_free(slots, start, count) {
        *cursor = at;
        return at;
    }
    match first_free(slots, 0, start) {
        Some(at) => {
            *cursor = at;
            at
        }
        None => unreachable!(), // not each slot has a node
    }
}

// Puts a node whose group, from `base` on, is full into a free slot, as the first guest of its group.
#[cold]
#[inline(never)]
fn lodge<N: Copy>(slots: &mut Slots<N>, cursor: &mut usize, base: usize, kept: Hashed<N>)
    requires within { base < length slots.old.cells }
    requires home { base / LANES ≡ kept.hash % length slots.old.cells / LANES }
    requires whole { length slots.old.cells % LANES ≡ 0 }
    requires small { length slots.old.cells ≤ END }
    requires arranged { IsArranged slots.old.cells slots.old.heads }
    requires roomy { length (nodes_in slots.old.cells) < length slots.old.cells }
    ensures arranged { IsArranged slots.new.cells slots.new.heads }
    ensures len { length slots.new.cells ≡ length slots.old.cells }
    ensures nodes { IsPermutation (kept ∷ nodes_in slots.old.cells) (nodes_in slots.new.cells) }
{
    let at = lodging(slots, cursor, base);
    let group = base / LANES;
    let head = slots.head(group);
    slots.put_guest(at, kept, head.first as usize);
    slots.set_head(group, head.with(kept.hash, at));
}

/// Puts a node into a free slot of its group, or of another group if there is none.
#[inline]
pub fn put<N: Copy>(slots: &mut Slots<N>, cursor: &mut usize, kept: Hashed<N>)
    requires masked { IsPowerOfTwo (length slots.old.cells) }
    requires whole { length slots.old.cells % LANES ≡ 0 }
    requires small { length slots.old.cells ≤ END }
    requires arranged { IsArranged slots.old.cells slots.old.heads }
    requires roomy { length (nodes_in slots.old.cells) < length slots.old.cells }
    ensures arranged { IsArranged slots.new.cells slots.new.heads }
    ensures len { length slots.new.cells ≡ length slots.old.cells }
    ensures nodes { IsPermutation (kept ∷ nodes_in slots.old.cells) (nodes_in slots.new.cells) }
{
    let base = base_of(kept.hash, slots.len());
    let free = slots.free(base);
    if free == 0 {
        lodge(slots, cursor, base, kept);
    } else {
        slots.put(base + free.trailing_zeros() as usize, kept);
    }
}
