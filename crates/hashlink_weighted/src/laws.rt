//! Consequences of the contract of an insert within a budget. Nothing here is for users.
ghost use Rattle.std.specs.Prelude.{◌≡◌, ℕ, ◌<◌, ◌≤◌, ◌++◌, Bool, Option, Result, None, Some, Ok, Err};
ghost use Rattle.std.specs.{Prelude.length, Map.lookup};
ghost use Rattle.hashlink_model.specs.{Entries.{put, stored_key}, Walk.last_of};
ghost use Rattle.hashlink_model.specs.Weights.{WeightedState, total_weight, weighted_put};
ghost use Rattle.hashlink_weighted.specs.{Answers.{InsertsWithin, without_weight}, Evicted.evicted_by};
ghost use Rattle.hashlink_weighted.specs.declared.error.WeightError.{WeightError};
ghost use Rattle.hashlink_weighted.specs.declared.error.WeightError.TheVariants.{TooHeavy, Memory};

/// A successful insert returns the old value. It keeps the longest fitting end of the entries that the map's
/// insert leaves, and evicts the entries before it. The last entry is the pair with its weight. The weights
/// sum to at most the budget, which does not change.
pub fn what_an_accepted_insert_leaves<K, V, S>()
    ensures entries { (eq : K → K → Bool) (old new : WeightedState K V S) (k : K) (v : V) (weight : ℕ)
        (answer : Option V) → InsertsWithin eq old new k v weight (Ok answer)
        → new.map.entries ≡ weighted_put eq old.map.entries old.budget k v weight }
    ensures evicted { (eq : K → K → Bool) (old new : WeightedState K V S) (k : K) (v : V) (weight : ℕ)
        (answer : Option V) → InsertsWithin eq old new k v weight (Ok answer)
        → put eq old.map.entries k (v, weight) (length old.map.entries)
        ≡ evicted_by eq old k v weight ++ new.map.entries }
    ensures answer { (eq : K → K → Bool) (old new : WeightedState K V S) (k : K) (v : V) (weight : ℕ)
        (answer : Option V) → InsertsWithin eq old new k v weight (Ok answer)
        → answer ≡ without_weight (lookup (eq k) old.map.entries) }
    ensures within { (eq : K → K → Bool) (old new : WeightedState K V S) (k : K) (v : V) (weight : ℕ)
        (answer : Option V) → InsertsWithin eq old new k v weight (Ok answer)
        → (total_weight new.map.entries ≤ new.budget) × (new.budget ≡ old.budget) }
    ensures last { (eq : K → K → Bool) (old new : WeightedState K V S) (k : K) (v : V) (weight : ℕ)
        (answer : Option V) → InsertsWithin eq old new k v weight (Ok answer)
        → last_of new.map.entries ≡ Some (stored_key eq old.map.entries k, (v, weight)) }
{}

/// An insert that fails returns its pair. One that is too heavy changes nothing. An allocation can fail only
/// if the key is absent and no node is free, and then no entry and no free node changes.
pub fn what_a_refused_insert_leaves<K, V, S>()
    ensures too_heavy { (eq : K → K → Bool) (old new : WeightedState K V S) (k : K) (v : V) (weight : ℕ)
        (pair : K × V) → InsertsWithin eq old new k v weight (Err (TooHeavy pair))
        → (pair ≡ (k, v)) × (old.budget < weight) × (new ≡ old) }
    ensures memory { (eq : K → K → Bool) (old new : WeightedState K V S) (k : K) (v : V) (weight : ℕ)
        (pair : K × V) → InsertsWithin eq old new k v weight (Err (Memory pair))
        → (pair ≡ (k, v)) × (weight ≤ old.budget) × (lookup (eq k) old.map.entries ≡ None)
        × (old.map.spare ≡ 0)
        × (new.map.entries ≡ old.map.entries) × (new.map.spare ≡ old.map.spare) }
    ensures not_accepted { (eq : K → K → Bool) (old new : WeightedState K V S) (k : K) (v : V) (weight : ℕ)
        (r : Result (Option V) (WeightError K V)) → old.budget < weight
        → InsertsWithin eq old new k v weight r
        → r ≡ Err (TooHeavy (k, v)) }
{}
