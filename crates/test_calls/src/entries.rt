//! Entries: whether a closure is called, the raw entry of a vacant one, and a default value.
use crate::few::{Map, map_of, passes};
use hashlink::linked_hash_map::Entry;
use std::process::ExitCode;

/// Whether the entry of the key calls the closure that makes a value.
fn entry_makes(map: &mut Map, key: u64) -> bool {
    let mut is_made = false;
    let _value = map.entry(key).or_insert_with(|| {
        is_made = true;
        7
    });
    is_made
}

/// The same for a raw entry, whose closure makes a pair.
fn raw_entry_makes(map: &mut Map, key: u64) -> bool {
    let mut is_made = false;
    let _pair = map.raw_entry_of(&key).or_insert_with(|| {
        is_made = true;
        (key, 7)
    });
    is_made
}

/// Whether no value is made for 1, which is present, and values are made for absent keys.
fn what_is_absent_is_made(map: &mut Map) -> bool {
    !entry_makes(map, 1) & !raw_entry_makes(map, 1) & entry_makes(map, 2) & raw_entry_makes(map, 3)
}

#[test]
fn an_entry_makes_what_is_absent_alone(rt: HostRuntime) -> ExitCode {
    passes(what_is_absent_is_made(&mut map_of(rt.alloc(), &[(1, 10)])))
}

/// Whether the raw entry of a vacant entry inserts a pair.
fn is_put_raw(map: &mut Map, key: u64, value: u64) -> bool {
    match map.entry(key) {
        Entry::Vacant(entry) => entry.raw_entry_mut().insert(key, value).is_ok(),
        Entry::Occupied(_occupied) => false,
    }
}

/// Whether a vacant entry inserts a default value.
fn takes_default(map: &mut Map, key: u64) -> bool {
    map.entry(key).or_default().is_ok()
}

/// Whether one vacant entry does each.
fn vacant_ones_take(map: &mut Map) -> bool {
    is_put_raw(map, 2, 20) & takes_default(map, 1)
}

#[test]
fn a_vacant_entry_takes_a_pair_or_a_default_value(rt: HostRuntime) -> ExitCode {
    passes(vacant_ones_take(&mut map_of(rt.alloc(), &[])))
}
