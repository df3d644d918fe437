//! The output of `{:?}`, and the messages of errors.
use crate::few::{Map, cache_of, is_cloned, map_of, passes, says, set_of, shows};
use crate::keys::{Numbered, key};
use hashlink::linked_hash_map::{Entry, ExtendError, RawEntryMut};
use hashlink::lru_cache::TryInsertError;
use hashlink::weighted::{WeightError, WeightedCache};
use hashlink::{LinkedHashMap, LinkedHashSet, TryReserveError};
use std::alloc::Global;
use std::process::ExitCode;

const PAIRS: &str = "[(1, 10), (2, 20)]";

/// A map of the keys 1 and 2, each with ten times its number.
fn one_and_two(alloc: Global) -> Map {
    map_of(alloc, &[(1, 10), (2, 20)])
}

/// The same map with the key 3.
fn three(alloc: Global) -> Map {
    map_of(alloc, &[(1, 10), (2, 20), (3, 30)])
}

/// Whether a cache with a budget and its iterator show two inserted pairs.
fn weighted_pairs_are_shown(alloc: Global, cache: &mut WeightedCache<u64, u64>) -> bool {
    let _first = cache.insert(1, 10, 1);
    let _second = cache.insert(2, 20, 1);
    shows(alloc, &*cache, "{2: 20, 1: 10}") & shows(alloc, cache.iter(), "[(1, 10, 1), (2, 20, 1)]")
}

#[test]
fn containers_show_what_they_hold(rt: HostRuntime) -> ExitCode {
    let pairs = &[(1, 10), (2, 20)];
    passes(
        shows(rt.alloc(), one_and_two(rt.alloc()), "{1: 10, 2: 20}")
            & shows(rt.alloc(), set_of(rt.alloc(), &[1, 2]), "{1, 2}")
            & shows(rt.alloc(), cache_of(rt.alloc(), 2, pairs), "{2: 20, 1: 10}")
            & weighted_pairs_are_shown(rt.alloc(), &mut WeightedCache::new(rt.alloc(), 2)),
    )
}

#[test]
fn empty_containers_show_that_they_hold_nothing(rt: HostRuntime) -> ExitCode {
    passes(
        shows(rt.alloc(), map_of(rt.alloc(), &[]), "{}")
            & shows(rt.alloc(), set_of(rt.alloc(), &[]), "{}")
            & shows(rt.alloc(), cache_of(rt.alloc(), 2, &[]), "{}"),
    )
}

/// Whether the iterators over a map of two entries show both: those that read, those that write, and then a
/// drain.
fn iterators_show_two(alloc: Global, map: &mut Map) -> bool {
    shows(alloc, map.iter(), PAIRS)
        & shows(alloc, map.keys(), "[1, 2]")
        & shows(alloc, map.values(), "[10, 20]")
        & shows(alloc, map.iter_mut(), PAIRS)
        & shows(alloc, map.values_mut(), "[10, 20]")
        & shows(alloc, map.drain(), PAIRS)
}

#[test]
fn iterators_over_a_map_show_its_entries(rt: HostRuntime) -> ExitCode {
    let map = &mut one_and_two(rt.alloc());
    passes(
        shows(rt.alloc(), one_and_two(rt.alloc()).into_iter(), PAIRS)
            & iterators_show_two(rt.alloc(), map),
    )
}

/// Whether the iterators over a map of three entries show the entries left after a step.
fn what_is_left_is_shown(alloc: Global, map: &mut Map) -> bool {
    let mut pairs = map.iter();
    pairs.next_back();
    let are_read_shown = shows(alloc, pairs, PAIRS);
    let mut pairs = map.iter_mut();
    pairs.next_back();
    let are_written_shown = shows(alloc, pairs, PAIRS);
    let mut values = map.values_mut();
    values.next();
    are_read_shown & are_written_shown & shows(alloc, values, "[20, 30]")
}

#[test]
fn iterators_over_a_map_show_what_is_left(rt: HostRuntime) -> ExitCode {
    passes(what_is_left_is_shown(rt.alloc(), &mut three(rt.alloc())))
}

#[test]
fn a_drain_of_a_cache_shows_its_entries(rt: HostRuntime) -> ExitCode {
    let cache = &mut cache_of(rt.alloc(), 2, &[(1, 10), (2, 20)]);
    passes(shows(rt.alloc(), cache.drain(), PAIRS))
}

/// Whether the iterators over 1 and 2, and over an empty set, show both.
fn lazy_ones_show_two(
    alloc: Global,
    left: &LinkedHashSet<u64>,
    right: &LinkedHashSet<u64>,
) -> bool {
    shows(alloc, left.iter(), "[1, 2]")
        & shows(alloc, left.union(right), "[1, 2]")
        & shows(alloc, left.intersection(left), "[1, 2]")
        & shows(alloc, left.difference(right), "[1, 2]")
        & shows(alloc, left.symmetric_difference(right), "[1, 2]")
}

#[test]
fn iterators_over_sets_show_two_elements(rt: HostRuntime) -> ExitCode {
    let left = set_of(rt.alloc(), &[1, 2]);
    let right = set_of(rt.alloc(), &[]);
    passes(lazy_ones_show_two(rt.alloc(), &left, &right))
}

/// Whether the iterators over 1 to 4 and 3 to 5 show their results.
fn lazy_ones_show(alloc: Global, left: &LinkedHashSet<u64>, right: &LinkedHashSet<u64>) -> bool {
    shows(alloc, left.difference(right), "[1, 2]")
        & shows(alloc, left.intersection(right), "[3, 4]")
        & shows(alloc, left.union(right), "[1, 2, 3, 4, 5]")
        & shows(alloc, left.symmetric_difference(right), "[1, 2, 5]")
}

#[test]
fn iterators_over_sets_show_what_is_left(rt: HostRuntime) -> ExitCode {
    let left = set_of(rt.alloc(), &[1, 2, 3, 4]);
    let right = set_of(rt.alloc(), &[3, 4, 5]);
    passes(lazy_ones_show(rt.alloc(), &left, &right))
}

/// Whether the occupied or vacant entry of a key shows itself.
fn entry_is_shown(alloc: Global, map: &mut Map, key: u64, text: &str) -> bool {
    match map.entry(key) {
        Entry::Occupied(entry) => shows(alloc, entry, text),
        Entry::Vacant(entry) => shows(alloc, entry, text),
    }
}

/// The same for a raw entry.
fn raw_entry_is_shown(alloc: Global, map: &mut Map, key: u64, text: &str) -> bool {
    match map.raw_entry_of(&key) {
        RawEntryMut::Occupied(entry) => shows(alloc, entry, text),
        RawEntryMut::Vacant(entry) => shows(alloc, entry, text),
    }
}

/// Whether an occupied and a vacant one of each show themselves.
fn each_is_shown(alloc: Global, map: &mut Map) -> bool {
    entry_is_shown(alloc, map, 1, "OccupiedEntry { key: 1, value: 10 }")
        & entry_is_shown(alloc, map, 3, "VacantEntry(3)")
        & raw_entry_is_shown(alloc, map, 1, "RawOccupiedEntryMut { key: 1, value: 10 }")
        & raw_entry_is_shown(alloc, map, 3, "RawVacantEntryMut")
}

#[test]
fn an_entry_that_was_matched_shows_itself(rt: HostRuntime) -> ExitCode {
    passes(each_is_shown(rt.alloc(), &mut one_and_two(rt.alloc())))
}

type NumberedMap = LinkedHashMap<Numbered, u64>;

const OCCUPIED: &str = "Entry(OccupiedEntry { key: Numbered { group: 1, number: 5 }, value: 10 })";

const RAW_OCCUPIED: &str =
    "RawEntry(RawOccupiedEntryMut { key: Numbered { group: 1, number: 5 }, value: 10 })";

/// Whether the entries of a present key, which has the number 5, and of an absent key show themselves, and so
/// do raw entries, and builders.
fn all_is_shown(alloc: Global, map: &mut NumberedMap) -> bool {
    let _old = map.insert(key(1, 5), 10);
    shows(alloc, map.entry(key(1, 6)), OCCUPIED)
        & shows(
            alloc,
            map.entry(key(2, 6)),
            "Entry(VacantEntry(Numbered { group: 2, number: 6 }))",
        )
        & shows(alloc, map.raw_entry_of(&key(1, 6)), RAW_OCCUPIED)
        & shows(
            alloc,
            map.raw_entry_of(&key(2, 6)),
            "RawEntry(RawVacantEntryMut)",
        )
        & shows(alloc, map.raw_entry(), "RawEntryBuilder")
        & shows(alloc, map.raw_entry_mut(), "RawEntryBuilder")
        & shows(alloc, map.hasher(), "DefaultHashBuilder")
}

#[test]
fn an_entry_shows_the_stored_key_and_a_builder_its_name(rt: HostRuntime) -> ExitCode {
    passes(all_is_shown(rt.alloc(), &mut LinkedHashMap::new(rt.alloc())))
}

/// Whether the error of an extend that ran out of memory has the number of items inserted before.
fn extend_says_why(alloc: Global, error: ExtendError<u64, u64>) -> bool {
    says(alloc, &error, "memory ran out after 2 items")
        & is_cloned(&error)
        & shows(alloc, error, "ExtendError { taken: 2, pair: (3, 30) }")
}

type Refused = WeightError<u64, u64>;

/// Whether the errors of an insert that exceeds a budget, or for which there is no memory, give the reason
/// and return the pair.
fn weight_says_why(alloc: Global, heavy: Refused, refused: Refused) -> bool {
    says(alloc, &heavy, "the weight is above the budget")
        & says(alloc, &refused, "memory allocation failed")
        & is_cloned(&heavy)
        & shows(alloc, refused, "Memory((2, 20))")
        & (heavy.into_pair() == (1, 10))
}

type NotMade = TryInsertError<u64, u64, u8>;

/// Whether the errors for a value that was not made, or not kept, give the reason.
fn value_says_why(alloc: Global, failed: NotMade, refused: NotMade) -> bool {
    says(alloc, &failed, "the value could not be made: 7")
        & says(alloc, &refused, "memory allocation failed")
        & is_cloned(&failed)
}

#[test]
fn an_error_says_why(rt: HostRuntime) -> ExitCode {
    let error = ExtendError {
        taken: 2,
        pair: (3, 30),
    };
    passes(
        says(
            rt.alloc(),
            &TryReserveError::CapacityOverflow,
            "no table can have so much room",
        ) & extend_says_why(rt.alloc(), error)
            & weight_says_why(
                rt.alloc(),
                WeightError::TooHeavy((1, 10)),
                WeightError::Memory((2, 20)),
            )
            & value_says_why(
                rt.alloc(),
                TryInsertError::Make(1, 7),
                TryInsertError::Memory((1, 10)),
            ),
    )
}
