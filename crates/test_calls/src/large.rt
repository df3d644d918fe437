//! One large run of a map, which is also one of a set, of each cache, of a text of each kind of loop, and of
//! each list of commands.
use crate::few::{Map, is_cloned, is_value, map_of, passes};
use hashlink::LruCache;
use hashlink::run::{CacheCommand, Command, PairCommand, run, run_cache, run_pair, run_text};
use hashlink::weighted::WeightedCache;
use hashlink_uses::curves::misses_by_replies_and_by_curve;
use std::alloc::Global;
use std::process::ExitCode;

/// More than a million, so that a bound of a million would be exceeded.
const MANY: u64 = 1_100_000;

/// Inserts the numbers below a bound into a map.
fn fill(map: &mut Map, bound: u64) {
    for key in 0..bound {
        let _old = map.insert(key, key);
    }
}

/// Whether a map accepts each pair, and has the first key and no key above the last.
fn takes_each_pair(map: &mut Map) -> bool {
    fill(map, MANY);
    (map.len() == 1_100_000) & is_value(map.get(&0), 0) & !map.contains_key(&MANY)
}

#[test]
fn a_large_map_takes_each_pair(rt: HostRuntime) -> ExitCode {
    passes(takes_each_pair(&mut map_of(rt.alloc(), &[])))
}

/// Whether each of thousands is found until it is removed, and each of the others then too.
fn removals_leave_the_others(map: &mut Map) -> bool {
    fill(map, 8_000);
    let mut all = true;
    for key in 0..4_000u64 {
        all &= map.remove(&key) == Some(key);
    }
    for key in 4_000..8_000u64 {
        all &= is_value(map.get(&key), key);
    }
    all
}

#[test]
fn a_map_of_thousands_keeps_what_is_not_removed(rt: HostRuntime) -> ExitCode {
    passes(removals_leave_the_others(&mut map_of(rt.alloc(), &[])))
}

/// Whether the clone of a map of thousands is equal to it.
fn thousands_are_cloned(map: &mut Map) -> bool {
    fill(map, 5_000);
    is_cloned(map)
}

#[test]
fn a_map_of_thousands_is_cloned(rt: HostRuntime) -> ExitCode {
    passes(thousands_are_cloned(&mut map_of(rt.alloc(), &[])))
}

/// Whether a cache keeps as many entries as its capacity, and the last key that had to leave is gone.
fn keeps_the_last_pairs(cache: &mut LruCache<u64, ()>) -> bool {
    for key in 0..MANY {
        let _old = cache.insert(key, ());
    }
    (cache.len() == 1_000_001) & !cache.contains_key(&99_998) & cache.contains_key(&99_999)
}

#[test]
fn a_large_cache_keeps_the_last_pairs(rt: HostRuntime) -> ExitCode {
    passes(keeps_the_last_pairs(&mut LruCache::new(rt.alloc(), 1_000_001)))
}

/// Whether a cache with a budget keeps as many entries as fit its budget.
fn keeps_what_fits(cache: &mut WeightedCache<u64, ()>) -> bool {
    for key in 0..MANY {
        let _old = cache.insert(key, (), 2);
    }
    (cache.len() == 1_000_001) & (cache.total() == 2_000_002)
}

#[test]
fn a_large_cache_with_a_budget_keeps_what_fits(rt: HostRuntime) -> ExitCode {
    passes(keeps_what_fits(&mut WeightedCache::new(rt.alloc(), 2_000_002)))
}

/// A text of many lines after the first one, all the same.
fn long_text(alloc: Global, first: &[u8], line: &[u8]) -> Vec<u8> {
    let mut text = Vec::new(alloc);
    let _mode = text.extend_from_slice(first);
    for _ in 0..100_000 {
        let _line = text.extend_from_slice(line);
    }
    text
}

/// Whether the answer to the text has so many bytes.
fn is_answered(alloc: Global, text: &[u8], length: usize) -> bool {
    match run_text(alloc, text) {
        Ok(answer) => answer.len() == length,
        Err(_) => false,
    }
}

// The answer has a line of two bytes, and 99,999 lines of three.
#[test]
fn a_text_of_more_than_a_megabyte_is_answered(rt: HostRuntime) -> ExitCode {
    let text = long_text(rt.alloc(), b"map\n", b"insert 1 10\n");
    passes((text.len() == 1_200_004) & is_answered(rt.alloc(), &text, 299_999))
}

// The answer has a line of four bytes, 99,999 lines of six, and two lists of five.
#[test]
fn a_long_text_to_two_caches_is_answered(rt: HostRuntime) -> ExitCode {
    let text = long_text(rt.alloc(), b"pair 1 2\n", b"use 1 10\n");
    passes(is_answered(rt.alloc(), &text, 600_008))
}

/// The numbers below five thousand, each with itself.
fn thousands(alloc: Global) -> Vec<(u64, u64)> {
    let mut pairs = Vec::new(alloc);
    for key in 0..5_000u64 {
        let _pair = pairs.push((key, key));
    }
    pairs
}

/// Whether uses of thousands of keys all miss, by the replies and by the curve.
#[test]
fn uses_of_thousands_of_keys_miss(rt: HostRuntime) -> ExitCode {
    let pairs = thousands(rt.alloc());
    passes(misses_by_replies_and_by_curve(rt.alloc(), &pairs, 1_000) == Ok((5_000, 5_000)))
}

/// Whether thousands of commands to two caches have a reply each.
fn are_run_on_two(alloc: Global) -> bool {
    let mut commands = Vec::new(alloc);
    for key in 0..5_000u64 {
        let _command = commands.push(PairCommand::Use(key, key));
    }
    match run_pair(alloc, 10, 1_000, &commands) {
        Ok(pair) => pair.large_replies.len() == 5_000,
        Err(_) => false,
    }
}

/// Accepts each pair.
fn is_any(_key: &u64, _value: &u64) -> bool {
    true
}

/// Whether thousands of commands to a map have a reply each.
fn are_run_on(alloc: Global, map: &mut Map) -> bool {
    let mut commands = Vec::new(alloc);
    for key in 0..5_000u64 {
        let _command = commands.push(Command::Insert(key, key));
    }
    match run(map, commands, &is_any) {
        Ok(replies) => replies.len() == 5_000,
        Err(_) => false,
    }
}

/// The same for a cache.
fn are_run_in(alloc: Global, cache: &mut LruCache<u64, u64>) -> bool {
    let mut commands = Vec::new(alloc);
    for key in 0..5_000u64 {
        let _command = commands.push(CacheCommand::Insert(key, key));
    }
    match run_cache(cache, commands, &is_any) {
        Ok(replies) => replies.len() == 5_000,
        Err(_) => false,
    }
}

#[test]
fn thousands_of_commands_are_run(rt: HostRuntime) -> ExitCode {
    passes(
        are_run_on(rt.alloc(), &mut map_of(rt.alloc(), &[]))
            & are_run_in(rt.alloc(), &mut LruCache::new(rt.alloc(), 1_000))
            & are_run_on_two(rt.alloc()),
    )
}
