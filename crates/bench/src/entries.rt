//! Entries and raw entries of a map, by closures and by defaults. A new key comes to a map that is empty in
//! each pass, and that grows.
use crate::fill::Fill::{Empty, Full};
use crate::fill::Made::{Anew, Once};
use crate::fill::Map;
use crate::lists::Order::{Held, MixedByTurns};
use crate::plan::{Plan, Row, fold};

struct OrInsertWith;

impl Row<Map, u64> for OrInsertWith {
    #[inline(always)]
    fn call(map: &mut Map, place: u64, key: &u64) -> Option<u64> {
        match map.entry(*key).or_insert_with(|| place) {
            Ok(value) => Some(*value),
            Err(_) => None,
        }
    }
}

struct OrDefault;

impl Row<Map, u64> for OrDefault {
    #[inline(always)]
    fn call(map: &mut Map, _place: u64, key: &u64) -> Option<u64> {
        match map.entry(*key).or_default() {
            Ok(value) => Some(*value),
            Err(_) => None,
        }
    }
}

/// Adds one to the value of a key that is present, and inserts one that is absent.
struct AndModify;

impl Row<Map, u64> for AndModify {
    #[inline(always)]
    fn call(map: &mut Map, place: u64, key: &u64) -> Option<u64> {
        let entry = map
            .entry(*key)
            .and_modify(|value| *value = value.wrapping_add(1));
        match entry.or_insert(place) {
            Ok(value) => Some(*value),
            Err(_) => None,
        }
    }
}

struct RawOrInsertWith;

impl Row<Map, u64> for RawOrInsertWith {
    #[inline(always)]
    fn call(map: &mut Map, place: u64, key: &u64) -> Option<u64> {
        let entry = map.raw_entry_mut().from_key(key);
        match entry.or_insert_with(|| (*key, place)) {
            Ok((stored, value)) => Some(fold(*stored, *value)),
            Err(_) => None,
        }
    }
}

struct RawAndModify;

impl Row<Map, u64> for RawAndModify {
    #[inline(always)]
    fn call(map: &mut Map, place: u64, key: &u64) -> Option<u64> {
        let entry = map.raw_entry_mut().from_key(key);
        let entry = entry.and_modify(|_, value| *value = value.wrapping_add(1));
        match entry.or_insert(*key, place) {
            Ok((stored, value)) => Some(fold(*stored, *value)),
            Err(_) => None,
        }
    }
}

pub(crate) fn rows(plan: &Plan<'_>) {
    plan.kind("inserts");
    plan.row::<OrInsertWith, _, _>(&[
        ("entry_or_insert_with_new", Held, Anew, Empty),
        ("entry_or_insert_with_present", MixedByTurns, Once, Full),
    ]);
    plan.row::<OrDefault, _, _>(&[
        ("entry_or_default_new", Held, Anew, Empty),
        ("entry_or_default_present", MixedByTurns, Once, Full),
    ]);
    plan.row::<AndModify, _, _>(&[
        ("entry_and_modify_new", Held, Anew, Empty),
        ("entry_and_modify_present", MixedByTurns, Once, Full),
    ]);
    plan.row::<RawOrInsertWith, _, _>(&[
        ("raw_or_insert_with_new", Held, Anew, Empty),
        ("raw_or_insert_with_present", MixedByTurns, Once, Full),
    ]);
    plan.row::<RawAndModify, _, _>(&[
        ("raw_and_modify_new", Held, Anew, Empty),
        ("raw_and_modify_present", MixedByTurns, Once, Full),
    ]);
}
