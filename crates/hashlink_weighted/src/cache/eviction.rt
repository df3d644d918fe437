//! Evictions, which make room for the last entry.
ghost use Rattle.std.specs.Prelude.{◌≤◌};
ghost use Rattle.hashlink_core.specs.Keyed.{state_of, entries_of};
ghost use Rattle.hashlink_model.specs.{Entries.IsEntries, Steps.KeepsOnly, Weights.fitting};
ghost use Rattle.hashlink_weighted.specs.Evicted.{IsGivenEach, TakesEach, not_fitting};
ghost use Rattle.hashlink_weighted.specs.Weighed.{HasTotal, LastWeighs};

use hashlink_map::LinkedHashMap;
use std::hash::{BuildHasher, Hash};

/// Evicts entries from the front until the weights sum to at most the budget, calls `on_evicted` on each, and
/// returns the sum. The last entry weighs `weight`, and all others together weigh `others`. It takes a step
/// for each entry that it evicts.
///
/// It compares before it adds, so no sum wraps.
pub(super) fn evict_until_fitting<K: Eq + Hash + Drop, V: Drop, S: BuildHasher, F: FnMut(K, V)>(
    map: &mut LinkedHashMap<K, (V, u64), S>,
    others: u64,
    weight: u64,
    budget: u64,
    on_evicted: &mut F,
) -> u64
    requires callable { TakesEach F.FnMut on_evicted.old (not_fitting (entries_of map.old) budget) }
    requires distinct { IsEntries K.eq (entries_of map.old) }
    requires last { LastWeighs (entries_of map.old) others weight }
    requires not_too_heavy { weight ≤ budget }
    ensures keeps { KeepsOnly (state_of map.old) (state_of map.new) (fitting (entries_of map.old) budget) }
    ensures total { HasTotal (entries_of map.new) result budget }
    ensures distinct { IsEntries K.eq (entries_of map.new) }
    ensures given { IsGivenEach F.FnMut on_evicted.old (not_fitting (entries_of map.old) budget)
        on_evicted.new }
{
    let room = budget - weight;
    let mut others = others;
    while others > room {
        let Some((key, (value, dropped))) = map.pop_front() else {
            break;
        };
        others -= dropped;
        on_evicted(key, value);
    }
    others + weight
}
