//! Loops over borrowed containers.
use crate::few::{Map, cache_of, map_of, passes, set_of};
use hashlink::{LinkedHashSet, LruCache};
use hashlink_uses::forms::{has_cached, has_element, has_value, latest_keys, pop_each, take_all};
use std::alloc::Global;
use std::process::ExitCode;

/// Whether a loop over a map finds a value that is present, and another loop empties the map.
fn is_walked(map: &mut Map) -> bool {
    let is_found = has_value(map, &10) & !has_value(map, &11);
    pop_each(map);
    is_found & map.is_empty()
}

#[test]
fn a_loop_over_a_map_finds_its_values(rt: HostRuntime) -> ExitCode {
    passes(is_walked(&mut map_of(rt.alloc(), &[(2, 20), (1, 10)])))
}

/// Whether a loop over a cache finds a value that is present.
fn is_cached(cache: &LruCache<u64, u64>) -> bool {
    has_cached(cache, &10) & !has_cached(cache, &11)
}

#[test]
fn a_loop_over_a_cache_finds_its_values(rt: HostRuntime) -> ExitCode {
    passes(is_cached(&cache_of(rt.alloc(), 2, &[(2, 20), (1, 10)])))
}

/// Whether a loop over a set finds an element that is present.
fn is_element(set: &LinkedHashSet<u64>) -> bool {
    has_element(set, &3) & !has_element(set, &2)
}

#[test]
fn a_loop_over_a_set_finds_its_elements(rt: HostRuntime) -> ExitCode {
    passes(is_element(&set_of(rt.alloc(), &[1, 3])))
}

/// Whether what is collected is what was there, and a drain leaves nothing.
fn is_collected(alloc: Global, map: &mut Map) -> bool {
    let keys = latest_keys(alloc, map).is_ok_and(|keys| keys.as_slice() == [1, 2].as_slice());
    let pairs = take_all(alloc, map).is_ok_and(|pairs| pairs.as_slice()
        == [(2, 20), (1, 10)].as_slice());
    keys & pairs & map.is_empty()
}

#[test]
fn keys_and_pairs_are_collected(rt: HostRuntime) -> ExitCode {
    passes(is_collected(rt.alloc(), &mut map_of(rt.alloc(), &[(2, 20), (1, 10)])))
}
