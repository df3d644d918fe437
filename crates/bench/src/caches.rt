//! The calls of a cache.
use crate::fill::Fill::{Full, Half};
use crate::fill::Made::{Anew, Once};
use crate::fill::{Cache, LoneCache};
use crate::lists::Order::{Absent, AbsentAndHeld, Held, Mixed, MixedByTurns, Uniform, Whole, Zipf};
use crate::plan::{Plan, Row, fold};
use crate::results::{is_even, len_after, next_or, old_or, pair_or, removed_or, value_or};
use crate::walks::{sum_of_owned, sum_of_pairs};

/// A look-up of a key, and an insert if it is absent.
struct UseKey;

impl Row<Cache, u64> for UseKey {
    #[inline(always)]
    fn call(cache: &mut Cache, place: u64, key: &u64) -> Option<u64> {
        match cache.get(key) {
            Some(value) => Some(*value),
            None => Insert::call(cache, place, key),
        }
    }
}

pub(crate) struct Insert;

impl Row<Cache, u64> for Insert {
    #[inline(always)]
    fn call(cache: &mut Cache, place: u64, key: &u64) -> Option<u64> {
        old_or(cache.insert(*key, place), *key)
    }
}

struct Peek;

impl Row<Cache, u64> for Peek {
    #[inline(always)]
    fn call(cache: &mut Cache, _place: u64, key: &u64) -> Option<u64> {
        value_or(cache.peek(key), *key)
    }
}

struct PeekLone;

impl Row<LoneCache, u64> for PeekLone {
    #[inline(always)]
    fn call(cache: &mut LoneCache, _place: u64, key: &u64) -> Option<u64> {
        match cache.peek(key) {
            Some(value) => Some(u64::from(*value)),
            None => Some(*key),
        }
    }
}

struct PeekMut;

impl Row<Cache, u64> for PeekMut {
    #[inline(always)]
    fn call(cache: &mut Cache, _place: u64, key: &u64) -> Option<u64> {
        next_or(cache.peek_mut(key), *key)
    }
}

struct Get;

impl Row<Cache, u64> for Get {
    #[inline(always)]
    fn call(cache: &mut Cache, _place: u64, key: &u64) -> Option<u64> {
        value_or(cache.get(key), *key)
    }
}

struct GetLone;

impl Row<LoneCache, u64> for GetLone {
    #[inline(always)]
    fn call(cache: &mut LoneCache, _place: u64, key: &u64) -> Option<u64> {
        match cache.get(key) {
            Some(value) => Some(u64::from(*value)),
            None => Some(*key),
        }
    }
}

struct GetMut;

impl Row<Cache, u64> for GetMut {
    #[inline(always)]
    fn call(cache: &mut Cache, _place: u64, key: &u64) -> Option<u64> {
        next_or(cache.get_mut(key), *key)
    }
}

struct ContainsKey;

impl Row<Cache, u64> for ContainsKey {
    #[inline(always)]
    fn call(cache: &mut Cache, _place: u64, key: &u64) -> Option<u64> {
        Some(u64::from(cache.contains_key(key)))
    }
}

/// The entry that an insert of the key would evict.
struct EvictedBy;

impl Row<Cache, u64> for EvictedBy {
    #[inline(always)]
    fn call(cache: &mut Cache, _place: u64, key: &u64) -> Option<u64> {
        pair_or(cache.evicted_by(key), *key)
    }
}

struct Push;

impl Row<Cache, u64> for Push {
    #[inline(always)]
    fn call(cache: &mut Cache, place: u64, key: &u64) -> Option<u64> {
        match cache.push(*key, place) {
            Ok(Some((left, value))) => Some(fold(left, value)),
            Ok(None) => Some(*key),
            Err(_) => None,
        }
    }
}

struct GetOrInsertWith;

impl Row<Cache, u64> for GetOrInsertWith {
    #[inline(always)]
    fn call(cache: &mut Cache, place: u64, key: &u64) -> Option<u64> {
        match cache.get_or_insert_with(*key, || place) {
            Ok(value) => Some(*value),
            Err(_) => None,
        }
    }
}

/// The cache may have one entry beyond its capacity until the next call.
struct EntryOrInsert;

impl Row<Cache, u64> for EntryOrInsert {
    #[inline(always)]
    fn call(cache: &mut Cache, place: u64, key: &u64) -> Option<u64> {
        match cache.entry(*key).or_insert(place) {
            Ok(value) => Some(*value),
            Err(_) => None,
        }
    }
}

struct Remove;

impl Row<Cache, u64> for Remove {
    #[inline(always)]
    fn call(cache: &mut Cache, _place: u64, key: &u64) -> Option<u64> {
        Some(cache.remove(key).unwrap_or(*key))
    }
}

struct RemoveLru;

impl Row<Cache, u64> for RemoveLru {
    #[inline(always)]
    fn call(cache: &mut Cache, _place: u64, key: &u64) -> Option<u64> {
        removed_or(cache.remove_lru(), *key)
    }
}

/// Evicts the first half of the entries.
struct SetCapacity;

impl Row<Cache, u64> for SetCapacity {
    #[inline(always)]
    fn call(cache: &mut Cache, _place: u64, _item: &u64) -> Option<u64> {
        cache.set_capacity(cache.len() / 2);
        Some(cache.len() as u64)
    }
}

struct RawGet;

impl Row<Cache, u64> for RawGet {
    #[inline(always)]
    fn call(cache: &mut Cache, _place: u64, key: &u64) -> Option<u64> {
        pair_or(cache.raw_entry().from_key(key), *key)
    }
}

/// As `EntryOrInsert`.
struct RawOrInsert;

impl Row<Cache, u64> for RawOrInsert {
    #[inline(always)]
    fn call(cache: &mut Cache, place: u64, key: &u64) -> Option<u64> {
        match cache.raw_entry_mut().from_key(key).or_insert(*key, place) {
            Ok((stored, value)) => Some(fold(*stored, *value)),
            Err(_) => None,
        }
    }
}

struct RemoveEntry;

impl Row<Cache, u64> for RemoveEntry {
    #[inline(always)]
    fn call(cache: &mut Cache, _place: u64, key: &u64) -> Option<u64> {
        removed_or(cache.remove_entry(key), *key)
    }
}

struct Iter;

impl Row<Cache, u64> for Iter {
    #[inline(always)]
    fn call(cache: &mut Cache, _place: u64, _item: &u64) -> Option<u64> {
        sum_of_pairs(cache.iter())
    }
}

struct Drain;

impl Row<Cache, u64> for Drain {
    #[inline(always)]
    fn call(cache: &mut Cache, _place: u64, _item: &u64) -> Option<u64> {
        sum_of_owned(cache.drain())
    }
}

/// Keeps about half of the entries.
struct Retain;

impl Row<Cache, u64> for Retain {
    #[inline(always)]
    fn call(cache: &mut Cache, _place: u64, _item: &u64) -> Option<u64> {
        cache.retain(is_even);
        Some(cache.len() as u64)
    }
}

struct CloneAll;

impl Row<(Cache, Cache), u64> for CloneAll {
    #[inline(always)]
    fn call(caches: &mut (Cache, Cache), _place: u64, _item: &u64) -> Option<u64> {
        caches.1 = caches.0.clone().ok()?;
        Some(caches.1.len() as u64)
    }
}

/// With the pairs that it has.
struct Extend;

impl Row<(Cache, Cache), u64> for Extend {
    #[inline(always)]
    fn call(caches: &mut (Cache, Cache), _place: u64, _item: &u64) -> Option<u64> {
        let pairs = caches.0.iter().map(|(key, value)| (*key, *value));
        len_after(caches.1.extend(pairs), caches.1.len())
    }
}

pub(crate) fn rows(plan: &Plan<'_>) {
    plan.kind("caches");
    plan.row::<UseKey, _, _>(&[
        ("lru_hit", MixedByTurns, Once, Full),
        ("lru_zipf", Zipf, Once, Half),
        ("lru_uniform", Uniform, Once, Half),
    ]);
    plan.row::<Peek, _, _>(&[
        ("lru_peek_hit", Mixed, Once, Full),
        ("lru_peek_miss", Absent, Once, Full),
    ]);
    plan.row::<PeekMut, _, _>(&[("lru_peek_mut_hit", Mixed, Once, Full)]);
    plan.row::<ContainsKey, _, _>(&[
        ("lru_contains_key_hit", Mixed, Once, Full),
        ("lru_contains_key_miss", Absent, Once, Full),
    ]);
    plan.row::<EvictedBy, _, _>(&[("lru_evicted_by", Absent, Once, Full)]);
    plan.row::<Get, _, _>(&[
        ("lru_get_hit", MixedByTurns, Once, Full),
        ("lru_get_miss", Absent, Once, Full),
    ]);
    plan.row::<GetMut, _, _>(&[("lru_get_mut_hit", MixedByTurns, Once, Full)]);
    plan.row::<Insert, _, _>(&[
        ("lru_insert_new", AbsentAndHeld, Once, Full),
        ("lru_insert_present", MixedByTurns, Once, Full),
    ]);
    plan.row::<Push, _, _>(&[
        ("lru_push_new", AbsentAndHeld, Once, Full),
        ("lru_push_present", MixedByTurns, Once, Full),
    ]);
    plan.row::<GetOrInsertWith, _, _>(&[
        ("lru_get_or_insert_with_new", AbsentAndHeld, Once, Full),
        ("lru_get_or_insert_with_present", MixedByTurns, Once, Full),
    ]);
    plan.row::<EntryOrInsert, _, _>(&[("lru_entry_or_insert_new", AbsentAndHeld, Once, Full)]);
    plan.row::<Remove, _, _>(&[("lru_remove_hit", Mixed, Anew, Full)]);
    plan.row::<RemoveLru, _, _>(&[("lru_remove_lru", Held, Anew, Full)]);
    plan.row::<SetCapacity, _, _>(&[("lru_set_capacity", Whole, Anew, Full)]);
    plan.row::<RawGet, _, _>(&[("lru_raw_get_hit", Mixed, Once, Full)]);
    plan.row::<RawOrInsert, _, _>(&[("lru_raw_or_insert_new", AbsentAndHeld, Once, Full)]);
    plan.row::<RemoveEntry, _, _>(&[("lru_remove_entry_hit", Mixed, Anew, Full)]);
    plan.row::<Iter, _, _>(&[("lru_iter", Whole, Once, Full)]);
    plan.row::<Drain, _, _>(&[("lru_drain", Whole, Anew, Full)]);
    plan.row::<Retain, _, _>(&[("lru_retain", Whole, Anew, Full)]);
    plan.row::<CloneAll, _, _>(&[("lru_clone", Whole, Anew, Full)]);
    plan.row::<Extend, _, _>(&[("lru_extend", Whole, Once, Full)]);
    plan.row_alone::<PeekLone, _, _>(&[
        ("lru_peek_hit_from_one", Mixed, Once, Full),
        ("lru_peek_miss_from_one", Absent, Once, Full),
    ]);
    plan.row_alone::<GetLone, _, _>(&[
        ("lru_get_hit_from_one", MixedByTurns, Once, Full),
        ("lru_get_miss_from_one", Absent, Once, Full),
    ]);
}
