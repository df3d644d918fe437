//! Look-ups of a map.
use crate::fill::Fill::Full;
use crate::fill::Made::Once;
use crate::fill::{LoneMap, Map};
use crate::lists::Order::{Absent, Mixed};
use crate::plan::{Plan, Row};
use crate::results::{next_or, pair_or, value_or};
use hashlink::LinkedHashMap;
use hashlink::linked_hash_map::RawEntryMut;
use std::hash::BuildHasher;

struct Get;

impl Row<Map, u64> for Get {
    #[inline(always)]
    fn call(map: &mut Map, _place: u64, key: &u64) -> Option<u64> {
        value_or(map.get(key), *key)
    }
}

struct GetLone;

impl Row<LoneMap, u64> for GetLone {
    #[inline(always)]
    fn call(map: &mut LoneMap, _place: u64, key: &u64) -> Option<u64> {
        match map.get(key) {
            Some(value) => Some(u64::from(*value)),
            None => Some(*key),
        }
    }
}

struct GetKeyValue;

impl Row<Map, u64> for GetKeyValue {
    #[inline(always)]
    fn call(map: &mut Map, _place: u64, key: &u64) -> Option<u64> {
        pair_or(map.get_key_value(key), *key)
    }
}

struct ContainsKey;

impl<V> Row<LinkedHashMap<u64, V>, u64> for ContainsKey {
    #[inline(always)]
    fn call(map: &mut LinkedHashMap<u64, V>, _place: u64, key: &u64) -> Option<u64> {
        Some(u64::from(map.contains_key(key)))
    }
}

struct GetMut;

impl Row<Map, u64> for GetMut {
    #[inline(always)]
    fn call(map: &mut Map, _place: u64, key: &u64) -> Option<u64> {
        next_or(map.get_mut(key), *key)
    }
}

/// A test for a key that is present, and then a read of its value.
struct Index;

impl Row<Map, u64> for Index {
    #[inline(always)]
    fn call(map: &mut Map, _place: u64, key: &u64) -> Option<u64> {
        if map.contains_key(key) {
            Some(map[key])
        } else {
            Some(*key)
        }
    }
}

struct RawGet;

impl Row<Map, u64> for RawGet {
    #[inline(always)]
    fn call(map: &mut Map, _place: u64, key: &u64) -> Option<u64> {
        pair_or(map.raw_entry().from_key(key), *key)
    }
}

struct RawHashed;

impl Row<Map, u64> for RawHashed {
    #[inline(always)]
    fn call(map: &mut Map, _place: u64, key: &u64) -> Option<u64> {
        let hash = map.hasher().hash_one(key);
        pair_or(map.raw_entry().from_key_hashed_nocheck(hash, key), *key)
    }
}

struct RawMut;

impl Row<Map, u64> for RawMut {
    #[inline(always)]
    fn call(map: &mut Map, _place: u64, key: &u64) -> Option<u64> {
        match map.raw_entry_mut().from_key(key) {
            RawEntryMut::Occupied(entry) => Some(*entry.get()),
            RawEntryMut::Vacant(_) => Some(*key),
        }
    }
}

/// A test, and then a write to the value of a key that is present.
struct IndexWrite;

impl Row<Map, u64> for IndexWrite {
    #[inline(always)]
    fn call(map: &mut Map, place: u64, key: &u64) -> Option<u64> {
        if map.contains_key(key) {
            map[key] = place;
            Some(place)
        } else {
            Some(*key)
        }
    }
}

struct RawFromHash;

impl Row<Map, u64> for RawFromHash {
    #[inline(always)]
    fn call(map: &mut Map, _place: u64, key: &u64) -> Option<u64> {
        let hash = map.hasher().hash_one(key);
        pair_or(
            map.raw_entry().from_hash(hash, |stored| stored == key),
            *key,
        )
    }
}

struct RawMutFromHash;

impl Row<Map, u64> for RawMutFromHash {
    #[inline(always)]
    fn call(map: &mut Map, _place: u64, key: &u64) -> Option<u64> {
        let hash = map.hasher().hash_one(key);
        match map.raw_entry_mut().from_hash(hash, |stored| stored == key) {
            RawEntryMut::Occupied(entry) => Some(*entry.get()),
            RawEntryMut::Vacant(_) => Some(*key),
        }
    }
}

pub(crate) fn rows(plan: &Plan<'_>) {
    plan.kind("lookups");
    plan.row::<Get, _, _>(&[
        ("get_hit", Mixed, Once, Full),
        ("get_miss", Absent, Once, Full),
    ]);
    plan.row::<GetKeyValue, _, _>(&[
        ("get_key_value_hit", Mixed, Once, Full),
        ("get_key_value_miss", Absent, Once, Full),
    ]);
    plan.row::<ContainsKey, Map, _>(&[
        ("contains_key_hit", Mixed, Once, Full),
        ("contains_key_miss", Absent, Once, Full),
    ]);
    plan.row::<GetMut, _, _>(&[
        ("get_mut_hit", Mixed, Once, Full),
        ("get_mut_miss", Absent, Once, Full),
    ]);
    plan.row::<Index, _, _>(&[("index_hit", Mixed, Once, Full)]);
    plan.row::<RawGet, _, _>(&[
        ("raw_get_hit", Mixed, Once, Full),
        ("raw_get_miss", Absent, Once, Full),
    ]);
    plan.row::<RawHashed, _, _>(&[("raw_hashed_hit", Mixed, Once, Full)]);
    plan.row::<RawMut, _, _>(&[
        ("raw_mut_hit", Mixed, Once, Full),
        ("raw_mut_miss", Absent, Once, Full),
    ]);
    plan.row::<IndexWrite, _, _>(&[("index_mut_hit", Mixed, Once, Full)]);
    plan.row::<RawFromHash, _, _>(&[
        ("raw_from_hash_hit", Mixed, Once, Full),
        ("raw_from_hash_miss", Absent, Once, Full),
    ]);
    plan.row::<RawMutFromHash, _, _>(&[("raw_mut_from_hash_hit", Mixed, Once, Full)]);
    plan.row_alone::<GetLone, _, _>(&[
        ("get_hit_from_one", Mixed, Once, Full),
        ("get_miss_from_one", Absent, Once, Full),
    ]);
    plan.row_alone::<ContainsKey, LoneMap, _>(&[
        ("contains_key_hit_from_one", Mixed, Once, Full),
        ("contains_key_miss_from_one", Absent, Once, Full),
    ]);
}
