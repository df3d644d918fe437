//! Moves of all nodes to more or fewer slots.
ghost use Rattle.std.specs.Prelude.{◌≡◌, ◌%◌, ◌≤◌, IfOk, IsPermutation, length};
ghost use Rattle.std.specs.Int.{IsPowerOfTwo};
ghost use Rattle.hashlink_table.specs.Chains.{nodes_in, IsArranged};

use super::cell::END;
use super::insertion;
use super::lanes::LANES;
use super::slots::Slots;
use std::alloc::{AllocError, Global};

/// Creates `count` slots with the nodes of these slots.
pub fn moved<N: Copy>(
    alloc: Global,
    filler: N,
    slots: &Slots<N>,
    count: usize,
) -> Result<Slots<N>, AllocError>
    requires masked { IsPowerOfTwo count }
    requires whole { count % LANES ≡ 0 }
    requires small { count ≤ END }
    requires roomy { length (nodes_in slots.now.cells) ≤ count }
    requires grouped { length slots.now.cells % LANES ≡ 0 }
    ensures arranged { IfOk result (λ o. IsArranged o.cells o.heads) }
    ensures len { IfOk result (λ o. length o.cells ≡ count) }
    ensures nodes { IfOk result (λ o. IsPermutation (nodes_in slots.now.cells) (nodes_in o.cells)) }
{
    let mut moved = Slots::with_cells(alloc, filler, count)?;
    let mut cursor = 0;
    let mut base = 0;
    while base < slots.len() {
        let mut at = base;
        let mut left = slots.taken(base);
        while left != 0 {
            let skipped = left.trailing_zeros();
            at += skipped as usize;
            let kept = slots.known(at);
            insertion::put(&mut moved, &mut cursor, kept);
            at += 1;
            left = (left >> skipped) / 2;
        }
        base += LANES;
    }
    Ok(moved)
}
