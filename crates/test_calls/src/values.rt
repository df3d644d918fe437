//! Containers as values of other containers: made empty, replaced by empty ones, and compared.
use crate::few::{Map, cache_of, map_of, passes, set_of};
use hashlink::weighted::WeightedCache;
use hashlink::{LinkedHashMap, LinkedHashSet, LruCache};
use std::alloc::{AllocError, Global};
use std::mem;
use std::process::ExitCode;

type Topics = LinkedHashMap<u64, LinkedHashSet<u64>>;

/// Adds a number to the set of a key, and makes the set if there is none. Returns whether the number is new
/// there.
fn add(topics: &mut Topics, topic: u64, number: u64) -> Result<bool, AllocError> {
    let set = topics.entry(topic).or_default().map_err(|_| AllocError)?;
    set.insert(number).map_err(|_| AllocError)
}

#[test]
fn an_entry_makes_an_empty_set(rt: HostRuntime) -> ExitCode {
    let mut topics = LinkedHashMap::new(rt.alloc());
    let is_new = [
        add(&mut topics, 1, 5),
        add(&mut topics, 2, 5),
        add(&mut topics, 1, 5),
    ];
    let found = topics.get(&1).map(|set| set.eq(&set_of(rt.alloc(), &[5])));
    passes(
        is_new.eq(&[Ok(true), Ok(true), Ok(false)]) & found.eq(&Some(true)) & (topics.len() == 2),
    )
}

#[test]
fn a_map_is_taken_out(rt: HostRuntime) -> ExitCode {
    let mut map: Map = map_of(rt.alloc(), &[(1, 10)]);
    let taken: Result<Map, AllocError> = mem::try_take(&mut map);
    passes(map.is_empty() & taken.eq(&Ok(map_of(rt.alloc(), &[(1, 10)]))))
}

#[test]
fn a_set_is_taken_out(rt: HostRuntime) -> ExitCode {
    let mut set = set_of(rt.alloc(), &[1, 2]);
    let taken: Result<LinkedHashSet<u64>, AllocError> = mem::try_take(&mut set);
    passes(set.is_empty() & taken.eq(&Ok(set_of(rt.alloc(), &[1, 2]))))
}

#[test]
fn a_cache_is_taken_out_and_its_capacity_stays(rt: HostRuntime) -> ExitCode {
    let mut cache = cache_of(rt.alloc(), 2, &[(1, 10)]);
    let taken: Result<LruCache<u64, u64>, AllocError> = mem::try_take(&mut cache);
    passes(
        cache.eq(&cache_of(rt.alloc(), 2, &[]))
            & taken.eq(&Ok(cache_of(rt.alloc(), 2, &[(1, 10)]))),
    )
}

#[test]
fn a_cache_is_taken_out_and_its_budget_stays(rt: HostRuntime) -> ExitCode {
    let mut cache: WeightedCache<u64, u64> = WeightedCache::new(rt.alloc(), 9);
    let put = cache.insert(1, 10, 4).is_ok();
    let taken: Result<WeightedCache<u64, u64>, AllocError> = mem::try_take(&mut cache);
    let weight = taken.map_or(0, |taken| taken.total());
    passes(put & cache.is_empty() & (cache.budget() == 9) & (weight == 4))
}

#[test]
fn caches_are_compared_by_entries_and_capacity(rt: HostRuntime) -> ExitCode {
    let cache = cache_of(rt.alloc(), 2, &[(1, 10), (2, 20)]);
    passes(
        cache.eq(&cache_of(rt.alloc(), 2, &[(1, 10), (2, 20)]))
            & !cache.eq(&cache_of(rt.alloc(), 3, &[(1, 10), (2, 20)]))
            & !cache.eq(&cache_of(rt.alloc(), 2, &[(2, 20), (1, 10)]))
            & !cache.eq(&cache_of(rt.alloc(), 2, &[(1, 10)])),
    )
}
