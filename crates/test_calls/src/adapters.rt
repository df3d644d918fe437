//! Iterators of std that wrap iterators of a map.
use crate::few::{Map, is_pair, is_value, map_of, passes};
use hashlink::linked_hash_map::Keys;
use std::process::ExitCode;

/// The keys as digits, from the back.
fn digits_backwards(keys: Keys<'_, u64, u64>) -> u64 {
    keys.rev().fold(0u64, |digits, key| {
        digits.wrapping_mul(10).wrapping_add(*key)
    })
}

/// Whether a map of four entries passes through them.
fn goes_through(map: &Map) -> bool {
    (digits_backwards(map.keys()) == 4213)
        & is_value(map.values().rev().last(), 30)
        & is_pair(map.iter().rev().last(), 3, 30)
}

#[test]
fn a_map_goes_through_adapters(rt: HostRuntime) -> ExitCode {
    passes(goes_through(&map_of(rt.alloc(), &[(3, 30), (1, 10), (2, 20), (4, 40)])))
}
