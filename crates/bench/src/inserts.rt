//! Inserts into a map, and moves of its entries. A new key is inserted into a map that is empty in each pass,
//! and that grows.
use crate::fill::Fill::{Empty, Full, Roomy};
use crate::fill::Made::{Anew, Once};
use crate::fill::Map;
use crate::lists::Order::{Absent, Held, Mixed, MixedByTurns};
use crate::plan::{Plan, Row, fold};
use crate::results::old_or;

pub(crate) struct Insert;

impl Row<Map, u64> for Insert {
    #[inline(always)]
    fn call(map: &mut Map, place: u64, key: &u64) -> Option<u64> {
        old_or(map.insert(*key, place), *key)
    }
}

struct InsertFront;

impl Row<Map, u64> for InsertFront {
    #[inline(always)]
    fn call(map: &mut Map, place: u64, key: &u64) -> Option<u64> {
        old_or(map.insert_front(*key, place), *key)
    }
}

struct Replace;

impl Row<Map, u64> for Replace {
    #[inline(always)]
    fn call(map: &mut Map, place: u64, key: &u64) -> Option<u64> {
        old_or(map.replace(*key, place), *key)
    }
}

struct GetOrInsertWith;

impl Row<Map, u64> for GetOrInsertWith {
    #[inline(always)]
    fn call(map: &mut Map, place: u64, key: &u64) -> Option<u64> {
        match map.get_or_insert_with(*key, || place) {
            Ok(value) => Some(*value),
            Err(_) => None,
        }
    }
}

struct EntryOrInsert;

impl Row<Map, u64> for EntryOrInsert {
    #[inline(always)]
    fn call(map: &mut Map, place: u64, key: &u64) -> Option<u64> {
        match map.entry(*key).or_insert(place) {
            Ok(value) => Some(*value),
            Err(_) => None,
        }
    }
}

struct RawOrInsert;

impl Row<Map, u64> for RawOrInsert {
    #[inline(always)]
    fn call(map: &mut Map, place: u64, key: &u64) -> Option<u64> {
        match map.raw_entry_mut().from_key(key).or_insert(*key, place) {
            Ok((stored, value)) => Some(fold(*stored, *value)),
            Err(_) => None,
        }
    }
}

/// An insert before the last entry.
struct CursorInsert;

impl Row<Map, u64> for CursorInsert {
    #[inline(always)]
    fn call(map: &mut Map, place: u64, key: &u64) -> Option<u64> {
        let mut cursor = map.cursor_back_mut();
        old_or(cursor.insert_before(*key, place), *key)
    }
}

struct ToBack;

impl Row<Map, u64> for ToBack {
    #[inline(always)]
    fn call(map: &mut Map, _place: u64, key: &u64) -> Option<u64> {
        match map.to_back(key) {
            Some(value) => Some(*value),
            None => Some(*key),
        }
    }
}

struct ToFront;

impl Row<Map, u64> for ToFront {
    #[inline(always)]
    fn call(map: &mut Map, _place: u64, key: &u64) -> Option<u64> {
        match map.to_front(key) {
            Some(value) => Some(*value),
            None => Some(*key),
        }
    }
}

pub(crate) fn rows(plan: &Plan<'_>) {
    plan.kind("inserts");
    plan.row::<Insert, _, _>(&[
        ("insert", Held, Anew, Empty),
        ("insert_roomy", Held, Anew, Roomy),
        ("update", MixedByTurns, Once, Full),
    ]);
    plan.row::<InsertFront, _, _>(&[
        ("insert_front_new", Held, Anew, Empty),
        ("insert_front_present", MixedByTurns, Once, Full),
    ]);
    plan.row::<Replace, _, _>(&[
        ("replace_new", Held, Anew, Empty),
        ("replace_present", Mixed, Once, Full),
    ]);
    plan.row::<GetOrInsertWith, _, _>(&[
        ("get_or_insert_with_new", Held, Anew, Empty),
        ("get_or_insert_with_present", MixedByTurns, Once, Full),
    ]);
    plan.row::<EntryOrInsert, _, _>(&[
        ("entry_or_insert_new", Held, Anew, Empty),
        ("entry_or_insert_present", MixedByTurns, Once, Full),
    ]);
    plan.row::<RawOrInsert, _, _>(&[
        ("raw_or_insert_new", Held, Anew, Empty),
        ("raw_or_insert_present", MixedByTurns, Once, Full),
    ]);
    plan.row::<CursorInsert, _, _>(&[
        ("cursor_insert_new", Held, Anew, Empty),
        ("cursor_insert_present", MixedByTurns, Once, Full),
    ]);
    plan.row::<ToBack, _, _>(&[
        ("to_back_hit", MixedByTurns, Once, Full),
        ("to_back_miss", Absent, Once, Full),
    ]);
    plan.row::<ToFront, _, _>(&[
        ("to_front_hit", MixedByTurns, Once, Full),
        ("to_front_miss", Absent, Once, Full),
    ]);
}
