//! Calls of a cache with a budget, and what the caller knows about it afterwards.
ghost use Rattle.std.specs.{Prelude.{◌≡◌, ◌≤◌, ◌<◌, IfOk, IsOk, OnOk, Err}, Map.lookup};
ghost use Rattle.hashlink.specs.{Weights.{total_weight, weighted_put}, Answers.without_weight};
ghost use Rattle.hashlink.specs.Weighed.{entries_of, WeightedGets};

use hashlink::weighted::{WeightError, WeightedCache};
use std::hash::{BuildHasher, Hash};

/// Uses an entry, and returns its value. Afterwards the loan of `get` has ended, and the entry is the last
/// one.
pub fn use_number<K: Eq + Hash, S: BuildHasher>(
    cache: &mut WeightedCache<K, u64, S>,
    key: &K,
) -> Option<u64>
    ensures used { WeightedGets K.eq cache.old cache.new key.now }
    ensures value { result ≡ without_weight (lookup (K.eq key.now) (entries_of cache.old)) }
{
    cache.get(key).copied()
}

/// Inserts a pair, and returns the sum of the weights afterwards.
pub fn insert_and_sum<K: Eq + Hash + Drop, V: Drop, S: BuildHasher>(
    cache: &mut WeightedCache<K, V, S>,
    key: K,
    value: V,
    weight: u64,
) -> Result<u64, WeightError<K, V>>
    ensures entries { OnOk result (entries_of cache.new
        ≡ weighted_put K.eq (entries_of cache.old) cache.old.budget key value weight) }
    ensures sum { IfOk result (λ n. n ≡ total_weight (entries_of cache.new)) }
    ensures within { IfOk result (λ n. n ≤ cache.old.budget) }
    ensures too_heavy { cache.old.budget < weight → result ≡ Err (WeightError.TooHeavy (key, value)) }
{
    cache.insert(key, value, weight)?;
    Ok(cache.total())
}

/// Inserts a pair of weight 0 while a node is free, which cannot fail.
pub fn insert_weightless<K: Eq + Hash + Drop, V: Drop, S: BuildHasher>(
    cache: &mut WeightedCache<K, V, S>,
    key: K,
    value: V,
) -> Result<Option<V>, WeightError<K, V>>
    ensures not_refused { 0 < cache.old.map.spare → IsOk result }
{
    cache.insert(key, value, 0)
}
