//! Retains, and what the caller knows about a map or a set after one.
ghost use Rattle.std.specs.Prelude.{◌≡◌, ◌+◌, ◌/◌, ◌%◌, ◌≤◌, ◌&&◌, cond, filter, length, map as list_map};
ghost use Rattle.std.specs.Prelude.{nat_eq, nat_lt, not};
ghost use Rattle.hashlink.specs.{Steps.KeepsOnly, Keyed.{state_of, entries_of}, Sets.elements_of};
ghost use Rattle.hashlink.specs.WithoutFirst.{without_first};

use hashlink::{LinkedHashMap, LinkedHashSet};
use std::hash::{BuildHasher, Hash};

/// Keeps the entries whose value is even, and halves their values.
pub fn halve_even<K: Eq + Hash + Drop, S: BuildHasher>(map: &mut LinkedHashMap<K, u64, S>)
    ensures { KeepsOnly (state_of map.old) (state_of map.new)
        (list_map (λ e. (e.0, e.1 / 2)) (filter (λ e. nat_eq (e.1 % 2) 0) (entries_of map.old))) }
{
    map.retain(|_, value| {
        let is_even = *value % 2 == 0;
        *value /= 2;
        is_even
    });
}

/// Keeps the elements below a bound, which the closure captures.
pub fn keep_below<S: BuildHasher>(set: &mut LinkedHashSet<u64, S>, bound: u64)
    ensures { elements_of set.new ≡ filter (λ element. nat_lt element bound) (elements_of set.old) }
{
    set.retain(|element| *element < bound);
}

/// Removes the entries whose value is zero, but at most `most` of them, the nearest to the front, and returns
/// how many it removed. The closure counts, and the count is read after the retain.
pub fn take_zeros<K: Eq + Hash + Drop, S: BuildHasher>(
    map: &mut LinkedHashMap<K, u64, S>,
    most: usize,
) -> usize
    ensures left { KeepsOnly (state_of map.old) (state_of map.new)
        (without_first (λ e. nat_eq e.1 0) most (entries_of map.old)) }
    ensures taken { result + length (entries_of map.new) ≡ length (entries_of map.old) }
    ensures most { result ≤ most }
{
    let mut left = most;
    map.retain_from(
        &mut |_: &K, value: &mut u64|
            ensures kept { result ≡ not (nat_eq value.old 0 && nat_lt 0 left.entry) }
            ensures count { left.exit + cond result 0 1 ≡ left.entry }
            ensures value { value.new ≡ value.old }
        {
            let leaves = *value == 0 && left > 0;
            if leaves {
                left -= 1;
            }
            !leaves
        },
    );
    most - left
}

/// Removes the even elements, but at most `most` of them, the nearest to the front, and returns how many it
/// removed.
pub fn take_even<S: BuildHasher>(set: &mut LinkedHashSet<u64, S>, most: usize) -> usize
    ensures left { elements_of set.new
        ≡ without_first (λ element. nat_eq (element % 2) 0) most (elements_of set.old) }
    ensures taken { result + length (elements_of set.new) ≡ length (elements_of set.old) }
    ensures most { result ≤ most }
{
    let mut left = most;
    set.retain_from(
        &mut |element: &u64|
            ensures kept { result ≡ not (nat_eq (element.now % 2) 0 && nat_lt 0 left.entry) }
            ensures count { left.exit + cond result 0 1 ≡ left.entry }
        {
            let leaves = *element % 2 == 0 && left > 0;
            if leaves {
                left -= 1;
            }
            !leaves
        },
    );
    most - left
}
