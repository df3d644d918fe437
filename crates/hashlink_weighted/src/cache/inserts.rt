//! Inserts, which evict entries to make room.
ghost use Rattle.std.specs.{Prelude.{◌≡◌, ◌<◌, ◌≤◌, ◌↔◌, IfOk, IsOk, IsSome, OnOk, OnErr, Err}, Map.lookup};
ghost use Rattle.hashlink_model.specs.{Entries.IsEntries, Lookups.UpdatesFitting, Weights.weighted_put};
ghost use Rattle.hashlink_weighted.specs.{Answers.without_weight, Weighed.{entries_of, weight_or_none}};
ghost use Rattle.hashlink_weighted.specs.Evicted.{IsGivenEach, TakesEach, evicted_by};
ghost use Rattle.hashlink_weighted.specs.declared.error.WeightError.TheVariants.{TooHeavy};

use super::WeightedCache;
use super::eviction::evict_until_fitting;
use crate::error::WeightError;
use std::hash::{BuildHasher, Hash};

/// Splits an old value from its weight. Returns `None` and 0 if there was no value.
fn take_apart<V>(old: Option<(V, u64)>) -> (Option<V>, u64)
    ensures { result ≡ (without_weight old, weight_or_none old) }
{
    match old {
        Some((value, weight)) => (Some(value), weight),
        None => (None, 0),
    }
}

impl<K: Eq + Hash, V, S: BuildHasher> WeightedCache<K, V, S> {
    ghost use Rattle.hashlink_weighted.specs.Answers.{InsertsWithin};

    /// Inserts the pair at the back with its weight, and returns the old value of the key if there was one.
    /// If the key is present, its entry keeps the stored key, takes the new value and the new weight, and
    /// moves to the back. Then entries are evicted from the front until the weights sum to at most the
    /// budget. The longest end that fits stays, and the pair is always in it.
    ///
    /// If the weight is above the budget, it returns the pair in `TooHeavy` and nothing changes, even if the
    /// key is present. It allocates only if the key is absent and no node is free. If the table is also full,
    /// it grows first, in linear time in the number of entries. If an allocation fails, it returns the pair
    /// in `Memory`, changes no entry and evicts nothing; the room may have grown.
    ///
    /// It hashes the key once, and takes constant time except for such a growth and for each entry that it
    /// evicts. It stores at most six links if the key is present and four if it is absent, and at most three
    /// for each entry that it evicts.
    pub fn insert(&mut self, key: K, value: V, weight: u64) -> Result<Option<V>, WeightError<K, V>>
    where
        K: Drop,
        V: Drop,
        ensures inserts { InsertsWithin K.eq self.old self.new key value weight result }
        ensures entries { OnOk result (entries_of self.new
            ≡ weighted_put K.eq (entries_of self.old) self.old.budget key value weight) }
        ensures updates { OnOk result
            (UpdatesFitting K.eq (entries_of self.old) (entries_of self.new) key (value, weight)) }
        ensures old { IfOk result
            (λ old. old ≡ without_weight (lookup (K.eq key) (entries_of self.old))) }
        ensures there { IsSome (lookup (K.eq key) (entries_of self.old)) → weight ≤ self.old.budget
            → IsOk result }
        ensures too_heavy { (result ≡ Err (TooHeavy (key, value))) ↔ (self.old.budget < weight) }
        ensures distinct { IfOk result (λ _. IsEntries K.eq (entries_of self.new)) }
    {
        self.insert_evicting(key, value, weight, &mut |_, _| {})
    }

    /// Inserts the pair as `insert` does, at the same cost, and calls `on_evicted` once on the key and the
    /// value of each entry that it evicts, from the front. `on_evicted` has to be callable on each, in the
    /// state that its earlier calls left it in. The caller keeps it, and can read afterwards the state that
    /// its calls left.
    ///
    /// The old value of the key's own entry is returned, not evicted. If the weight is above the budget, or
    /// an allocation fails, `on_evicted` is not called: the pair is returned in `TooHeavy` or in `Memory`, no
    /// entry changes and none is evicted; the room may have grown.
    pub fn insert_evicting<F: FnMut(K, V)>(
        &mut self,
        key: K,
        value: V,
        weight: u64,
        on_evicted: &mut F,
    ) -> Result<Option<V>, WeightError<K, V>>
    where
        K: Drop,
        V: Drop,
        requires { TakesEach F.FnMut on_evicted.old (evicted_by K.eq self.old key value weight) }
        ensures inserts { InsertsWithin K.eq self.old self.new key value weight result }
        ensures entries { OnOk result (entries_of self.new
            ≡ weighted_put K.eq (entries_of self.old) self.old.budget key value weight) }
        ensures updates { OnOk result
            (UpdatesFitting K.eq (entries_of self.old) (entries_of self.new) key (value, weight)) }
        ensures old { IfOk result
            (λ old. old ≡ without_weight (lookup (K.eq key) (entries_of self.old))) }
        ensures there { IsSome (lookup (K.eq key) (entries_of self.old)) → weight ≤ self.old.budget
            → IsOk result }
        ensures too_heavy { (result ≡ Err (TooHeavy (key, value))) ↔ (self.old.budget < weight) }
        ensures distinct { IfOk result (λ _. IsEntries K.eq (entries_of self.new)) }
        ensures given { OnOk result (IsGivenEach F.FnMut on_evicted.old
            (evicted_by K.eq self.old key value weight) on_evicted.new) }
        ensures not_called { OnErr result (on_evicted.new ≡ on_evicted.old) }
    {
        if weight > self.budget {
            return Err(WeightError::TooHeavy((key, value)));
        }
        match self.map.insert(key, (value, weight)) {
            Ok(old) => {
                let (old_value, old_weight) = take_apart(old);
                let others = self.total - old_weight;
                self.total = evict_until_fitting(
                    &mut self.map,
                    others,
                    weight,
                    self.budget,
                    on_evicted,
                );
                Ok(old_value)
            }
            Err(pair) => {
                let (key, (value, _)) = pair;
                Err(WeightError::Memory((key, value)))
            }
        }
    }
}
