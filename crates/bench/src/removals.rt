//! Removals from a map, in most rows until it is empty.
use crate::fill::Fill::Full;
use crate::fill::Made::{Anew, Once};
use crate::fill::Map;
use crate::lists::Order::{Absent, AbsentAndHeld, Exchanges, Held, Mixed};
use crate::plan::{Plan, Row, fold};
use crate::results::removed_or;
use hashlink::linked_hash_map::{Entry, RawEntryMut};

struct Remove;

impl Row<Map, u64> for Remove {
    #[inline(always)]
    fn call(map: &mut Map, _place: u64, key: &u64) -> Option<u64> {
        Some(map.remove(key).unwrap_or(*key))
    }
}

struct RemoveEntry;

impl Row<Map, u64> for RemoveEntry {
    #[inline(always)]
    fn call(map: &mut Map, _place: u64, key: &u64) -> Option<u64> {
        removed_or(map.remove_entry(key), *key)
    }
}

struct EntryRemove;

impl Row<Map, u64> for EntryRemove {
    #[inline(always)]
    fn call(map: &mut Map, _place: u64, key: &u64) -> Option<u64> {
        match map.entry(*key) {
            Entry::Occupied(entry) => Some(entry.remove()),
            Entry::Vacant(_entry) => Some(*key),
        }
    }
}

struct RawRemove;

impl Row<Map, u64> for RawRemove {
    #[inline(always)]
    fn call(map: &mut Map, _place: u64, key: &u64) -> Option<u64> {
        match map.raw_entry_mut().from_key(key) {
            RawEntryMut::Occupied(entry) => Some(entry.remove()),
            RawEntryMut::Vacant(_) => Some(*key),
        }
    }
}

struct PopFront;

impl Row<Map, u64> for PopFront {
    #[inline(always)]
    fn call(map: &mut Map, _place: u64, key: &u64) -> Option<u64> {
        removed_or(map.pop_front(), *key)
    }
}

struct PopBack;

impl Row<Map, u64> for PopBack {
    #[inline(always)]
    fn call(map: &mut Map, _place: u64, key: &u64) -> Option<u64> {
        removed_or(map.pop_back(), *key)
    }
}

/// A removal of the entry at the front.
struct CursorRemove;

impl Row<Map, u64> for CursorRemove {
    #[inline(always)]
    fn call(map: &mut Map, _place: u64, key: &u64) -> Option<u64> {
        match map.cursor_front_mut().current_entry() {
            Ok(entry) => Some(entry.remove()),
            Err(_) => Some(*key),
        }
    }
}

/// A removal of the entry at the back.
struct BackEntryRemove;

impl Row<Map, u64> for BackEntryRemove {
    #[inline(always)]
    fn call(map: &mut Map, _place: u64, key: &u64) -> Option<u64> {
        match map.back_entry() {
            Some(entry) => Some(entry.remove()),
            None => Some(*key),
        }
    }
}

/// A removal of a present key and an insert of an absent one: the map keeps its length.
struct Exchange;

impl Row<Map, (u64, u64)> for Exchange {
    #[inline(always)]
    fn call(map: &mut Map, _place: u64, item: &(u64, u64)) -> Option<u64> {
        let (leaves, comes) = *item;
        let left = map.remove(&leaves).unwrap_or(u64::MAX);
        let old = map.insert(comes, leaves).ok()?;
        Some(fold(left, old.unwrap_or(comes)))
    }
}

/// A removal of the first entry and an insert of a new key, as in a queue.
struct Queue;

impl Row<Map, u64> for Queue {
    #[inline(always)]
    fn call(map: &mut Map, place: u64, key: &u64) -> Option<u64> {
        let (first, value) = map.pop_front().unwrap_or((*key, place));
        let old = map.insert(*key, place).ok()?;
        Some(fold(fold(first, value), old.unwrap_or(*key)))
    }
}

pub(crate) fn rows(plan: &Plan<'_>) {
    plan.kind("removals");
    plan.row::<Remove, _, _>(&[
        ("remove_hit", Mixed, Anew, Full),
        ("remove_miss", Absent, Once, Full),
    ]);
    plan.row::<RemoveEntry, _, _>(&[("remove_entry_hit", Mixed, Anew, Full)]);
    plan.row::<EntryRemove, _, _>(&[("entry_remove_hit", Mixed, Anew, Full)]);
    plan.row::<RawRemove, _, _>(&[("raw_remove_hit", Mixed, Anew, Full)]);
    plan.row::<Exchange, _, _>(&[("churn", Exchanges, Once, Full)]);
    plan.row::<PopFront, _, _>(&[("pop_front", Held, Anew, Full)]);
    plan.row::<PopBack, _, _>(&[("pop_back", Held, Anew, Full)]);
    plan.row::<CursorRemove, _, _>(&[("cursor_remove", Held, Anew, Full)]);
    plan.row::<BackEntryRemove, _, _>(&[("back_entry_remove", Held, Anew, Full)]);
    plan.row::<Queue, _, _>(&[("pop_insert", AbsentAndHeld, Once, Full)]);
}
