//! The calls of a cache with a budget. A key weighs from 1 to 16.
use crate::fill::Fill::{Empty, Full, Half};
use crate::fill::Made::{Anew, Once};
use crate::fill::{Fill, Filled, filled_by};
use crate::keys::Keys;
use crate::lists::Order::{Absent, AbsentAndHeld, Mixed, MixedByTurns, Whole, Zipf};
use crate::plan::{Plan, Row, fold};
use crate::results::{old_or, value_or};
use hashlink::weighted::WeightedCache;

type Cache = WeightedCache<u64, u64>;

/// A full cache with a budget for all keys, or a full or an empty one with a budget for about half of them.
impl Filled for Cache {
    fn filled(keys: &Keys, fill: Fill) -> Option<Cache> {
        let size = keys.size() as u64;
        match fill {
            Fill::Full => filled_of(keys, size.saturating_mul(16)),
            Fill::Half => filled_of(keys, size.saturating_mul(4).max(16)),
            _ => Some(WeightedCache::new(keys.alloc, size.saturating_mul(4).max(16))),
        }
    }
}

/// A cache of this budget into which the keys were inserted.
fn filled_of(keys: &Keys, budget: u64) -> Option<Cache> {
    filled_by::<Insert, _, _>(WeightedCache::new(keys.alloc, budget), &keys.held)
}

/// A look-up of a key, and an insert if it is absent.
struct UseKey;

impl Row<Cache, u64> for UseKey {
    #[inline(always)]
    fn call(cache: &mut Cache, place: u64, key: &u64) -> Option<u64> {
        match cache.get(key) {
            Some(value) => Some(*value),
            None => Insert::call(cache, place, key),
        }
    }
}

struct Insert;

impl Row<Cache, u64> for Insert {
    #[inline(always)]
    fn call(cache: &mut Cache, place: u64, key: &u64) -> Option<u64> {
        old_or(cache.insert(*key, place, 1 + *key % 16), *key)
    }
}

struct Peek;

impl Row<Cache, u64> for Peek {
    #[inline(always)]
    fn call(cache: &mut Cache, _place: u64, key: &u64) -> Option<u64> {
        value_or(cache.peek(key), *key)
    }
}

struct Get;

impl Row<Cache, u64> for Get {
    #[inline(always)]
    fn call(cache: &mut Cache, _place: u64, key: &u64) -> Option<u64> {
        value_or(cache.get(key), *key)
    }
}

struct Remove;

impl Row<Cache, u64> for Remove {
    #[inline(always)]
    fn call(cache: &mut Cache, _place: u64, key: &u64) -> Option<u64> {
        Some(cache.remove(key).unwrap_or(*key))
    }
}

struct Iter;

impl Row<Cache, u64> for Iter {
    #[inline(always)]
    fn call(cache: &mut Cache, _place: u64, _item: &u64) -> Option<u64> {
        let mut sum: u64 = 0;
        for (key, value, weight) in cache.iter() {
            sum = fold(fold(fold(sum, *key), *value), weight);
        }
        Some(sum)
    }
}

/// Counts what is evicted.
struct InsertEvicting;

impl Row<Cache, u64> for InsertEvicting {
    #[inline(always)]
    fn call(cache: &mut Cache, place: u64, key: &u64) -> Option<u64> {
        let mut count: u64 = 0;
        let mut on_evicted = |_key: u64, _value: u64| count = count.wrapping_add(1);
        let old = cache
            .insert_evicting(*key, place, 1 + *key % 16, &mut on_evicted)
            .ok()?;
        Some(fold(count, old.unwrap_or(*key)))
    }
}

pub(crate) fn rows(plan: &Plan<'_>) {
    plan.kind("budgets");
    plan.row::<UseKey, _, _>(&[("weighted_zipf", Zipf, Once, Empty)]);
    plan.row::<Peek, _, _>(&[
        ("weighted_peek_hit", Mixed, Once, Full),
        ("weighted_peek_miss", Absent, Once, Full),
    ]);
    plan.row::<Get, _, _>(&[
        ("weighted_get_hit", MixedByTurns, Once, Full),
        ("weighted_get_miss", Absent, Once, Full),
    ]);
    plan.row::<Insert, _, _>(&[
        ("weighted_insert_new", AbsentAndHeld, Once, Half),
        ("weighted_insert_present", MixedByTurns, Once, Full),
    ]);
    plan.row::<Remove, _, _>(&[("weighted_remove_hit", Mixed, Anew, Full)]);
    plan.row::<Iter, _, _>(&[("weighted_iter", Whole, Once, Full)]);
    plan.row::<InsertEvicting, _, _>(&[("weighted_insert_evicting", AbsentAndHeld, Once, Half)]);
}
