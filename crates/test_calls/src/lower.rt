//! The table, by the public names of its crate only: how many steps it takes to find each node, and how many
//! nodes a removal asks about that has the node's slot.
ghost use Rattle.std.specs.Prelude.{◌≡◌, ℕ, ◌+◌, ◌<◌, ◌≤◌, IfOk};
ghost use Rattle.hashlink_table.specs.Contents.{agreeing};
ghost use Rattle.test_calls.specs.Telling.{Tells};

use hashlink_table::{Steps, Table};
use std::alloc::Global;
use std::cell::Cell;
use std::marker::Brand;
use std::sync::ledger::{Blank, Ledger};
use std::test::Fail;

// A table of the numbers from 1 to 500, each with itself as its hash.
#[tactic(auto, using(std::proofs::lemmas::List::Sorted::length_permutation))]
fn numbered(alloc: Global) -> Result<Table<u32>, Fail>
    ensures few { IfOk result (λ t. (hash m : ℕ) → t.room ≤ m → agreeing t hash m ≤ 2) }
    ensures telling { IfOk result (Tells (λ n. n)) }
{
    let mut table = Table::new(alloc, 0);
    for number in 1..501u32 {
        table.reserve(1)?;
        table.insert_reserved(number, number);
    }
    Ok(table)
}

// Finds each of the numbers. A thousand steps are enough for all.
fn find_each<L: Ledger>(table: &Table<u32>, steps: &mut Steps<L>) -> bool
    requires few { (hash m : ℕ) → table.now.room ≤ m → agreeing table.now hash m ≤ 2 }
    requires telling { Tells (λ n. n) table.now }
    ensures { steps.new ≤ steps.old + 1000 }
{
    let mut all = true;
    for number in 1..501u32 {
        all &= match table.find(number, |node| node == number, steps) {
            Some(found) => found.node == number,
            None => false,
        };
    }
    all
}

// The same, after making the table.
fn count_steps<L: Ledger>(alloc: Global, blank: Blank) -> Result<bool, Fail>
    requires name { blank.name ≡ L.name }
    requires parts { blank.parts ≡ L.parts }
    requires some_part { 0 < blank.parts }
{
    let table = numbered(alloc)?;
    let mut steps = Steps::<L>::new(blank);
    Ok(find_each(&table, &mut steps))
}

#[test]
fn finds_each_of_500_in_1000_steps(rt: HostRuntime) -> Result<(), Fail> {
    assert!(rt; count_steps::<Brand>(rt.alloc(), Blank::new(1))?);
    Ok(())
}

// A table of two nodes that have one hash.
#[tactic(auto, using(std::proofs::lemmas::List::Sorted::length_permutation))]
fn of_one_hash(alloc: Global) -> Result<Table<u32>, Fail>
    ensures { IfOk result (Tells (λ _. 7)) }
{
    let mut table = Table::with_room(alloc, 0, 2)?;
    table.insert_reserved(7, 1);
    table.insert_reserved(7, 2);
    Ok(table)
}

// Whether a removal of the second node asks about this node only, if it has the slot that a search found.
fn asks_once_at_slot(table: &mut Table<u32>) -> bool
    requires { Tells (λ _. 7) table.old }
{
    let slot = match table.look_up(7, |node| node == 2) {
        Some(found) => Some(found.slot),
        None => None,
    };
    let asked = Cell::new(0u32);
    let removed = table.remove_at(slot, 7, |node| {
        asked.set(asked.get().wrapping_add(1));
        node == 2
    });
    removed == Some(2) && asked.get() == 1
}

#[test]
fn a_removal_at_a_slot_asks_once(rt: HostRuntime) -> Result<(), Fail> {
    assert!(rt; asks_once_at_slot(&mut of_one_hash(rt.alloc())?));
    Ok(())
}
