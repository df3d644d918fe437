//! Keys and values without size. `large.rt` has caches of which only the values have none.
use crate::few::{is_value, passes};
use hashlink::weighted::WeightedCache;
use hashlink::{LinkedHashMap, LinkedHashSet, LruCache};
use std::process::ExitCode;

type Unit = LinkedHashMap<(), ()>;

/// Whether the second of two inserts replaces the first.
fn is_inserted_twice(map: &mut Unit) -> bool {
    (map.insert((), ()) == Ok(None)) & (map.insert((), ()) == Ok(Some(())))
}

/// Whether the one entry is found, and iterated over once.
fn has_one(map: &Unit) -> bool {
    (map.len() == 1) & (map.iter().count() == 1) & map.get(&()).is_some()
}

/// Whether the entry is removed once.
fn is_removed_once(map: &mut Unit) -> bool {
    map.remove(&()).is_some() & map.remove(&()).is_none() & map.is_empty()
}

/// Whether a map accepts an entry and returns it, and then once more.
fn comes_and_goes(map: &mut Unit) -> bool {
    is_inserted_twice(map)
        & has_one(map)
        & is_removed_once(map)
        & (map.insert((), ()) == Ok(None))
        & has_one(map)
}

#[test]
fn a_map_of_keys_without_size_has_one_entry(rt: HostRuntime) -> ExitCode {
    passes(comes_and_goes(&mut Unit::new(rt.alloc())))
}

/// Whether an element is inserted once.
fn is_element_inserted_once(set: &mut LinkedHashSet<()>) -> bool {
    (set.insert(()) == Ok(true)) & (set.insert(()) == Ok(false)) & (set.len() == 1)
}

#[test]
fn a_set_of_elements_without_size_has_one(rt: HostRuntime) -> ExitCode {
    passes(is_element_inserted_once(&mut LinkedHashSet::new(rt.alloc())))
}

/// Whether neither of two inserts into a cache finds a value, and neither a read nor a removal does
/// afterwards.
fn keeps_nothing(cache: &mut LruCache<(), u32>) -> bool {
    (cache.insert((), 1) == Ok(None))
        & (cache.insert((), 2) == Ok(None))
        & cache.get(&()).is_none()
        & cache.remove_lru().is_none()
}

/// Whether the second of two inserts replaces the first, and a read and a removal find it.
fn keeps_the_last_value(cache: &mut LruCache<(), u32>) -> bool {
    (cache.insert((), 1) == Ok(None))
        & (cache.insert((), 2) == Ok(Some(1)))
        & is_value(cache.get(&()), 2)
        & (cache.remove_lru() == Some(((), 2)))
}

#[test]
fn a_cache_without_places_has_no_key_without_size(rt: HostRuntime) -> ExitCode {
    passes(keeps_nothing(&mut LruCache::new(rt.alloc(), 0)))
}

#[test]
fn a_cache_without_a_bound_has_one_key_without_size(rt: HostRuntime) -> ExitCode {
    passes(keeps_the_last_value(&mut LruCache::new_unbounded(rt.alloc())))
}

/// Whether a key that is inserted twice has the weight of the second insert.
fn weighs_once(cache: &mut WeightedCache<(), ()>) -> bool {
    matches!(cache.insert((), (), 2), Ok(None))
        & matches!(cache.insert((), (), 3), Ok(Some(())))
        & (cache.len() == 1)
        & (cache.total() == 3)
}

#[test]
fn a_cache_with_a_budget_weighs_a_key_without_size_once(rt: HostRuntime) -> ExitCode {
    passes(weighs_once(&mut WeightedCache::new(rt.alloc(), 3)))
}
