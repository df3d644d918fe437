//! Examples and laws of entries with weights.
ghost use Rattle.std.specs.Prelude.{Bool, ◌≡◌, ℕ, ◌+◌, ◌^◌, ◌-◌, ◌≤◌, nat_eq, Option, List, []};
ghost use Rattle.std.specs.Prelude.{◌∷◌, ◌++◌, None, length};
ghost use Rattle.std.specs.Map.{lookup};
ghost use Rattle.hashlink_model.specs.Weights.{WeightedState, WeightedInserts, WeightedRefuses, IsTooHeavy};
ghost use Rattle.hashlink_model.specs.Weights.{total_weight, fitting, weighted_put};
ghost use Rattle.hashlink_model.specs.Numbers as numbers;

/// Inserts into caches with the budgets 10 and 5, with the greatest budget, and with 0.
pub fn inserts_within_a_budget()
    ensures three { numbers.weighted_insert ((1, (10, 4)) ∷ (2, (20, 4)) ∷ []) 10 3 30 4
        ≡ (2, (20, 4)) ∷ (3, (30, 4)) ∷ [] }
    ensures total { numbers.total ((2, (20, 4)) ∷ (3, (30, 4)) ∷ []) ≡ 8 }
    ensures new_weight { numbers.weighted_insert ((2, (20, 4)) ∷ (3, (30, 4)) ∷ []) 10 2 21 9
        ≡ (2, (21, 9)) ∷ [] }
    ensures weightless { numbers.weighted_insert ((1, (10, 0)) ∷ (2, (20, 5)) ∷ []) 5 3 30 0
        ≡ (1, (10, 0)) ∷ (2, (20, 5)) ∷ (3, (30, 0)) ∷ [] }
    ensures after_weightless { numbers.weighted_insert ((1, (10, 0)) ∷ (2, (20, 5)) ∷ (3, (30, 0)) ∷ [])
        5 4 40 1 ≡ (3, (30, 0)) ∷ (4, (40, 1)) ∷ [] }
    ensures greatest { numbers.weighted_insert ((1, (10, 2 ^ 64 - 1)) ∷ []) (2 ^ 64 - 1) 2 20 (2 ^ 64 - 1)
        ≡ (2, (20, 2 ^ 64 - 1)) ∷ [] }
    ensures nothing { numbers.weighted_insert [] 0 1 10 0 ≡ (1, (10, 0)) ∷ [] }
{}

/// The fitting end fits, it is an end, and no longer end fits.
pub fn fitting_is_the_longest_end_that_fits<K, V>()
    ensures fits { (es : List (K × (V × ℕ))) (budget : ℕ) → total_weight (fitting es budget) ≤ budget }
    ensures end { (es : List (K × (V × ℕ))) (budget : ℕ) → (xs : List (K × (V × ℕ)))
        × (es ≡ xs ++ fitting es budget) }
    ensures longest { (xs ys : List (K × (V × ℕ))) (budget : ℕ) → total_weight ys ≤ budget
        → length ys ≤ length (fitting (xs ++ ys) budget) }
{}

/// An insert that succeeds leaves the fitting end within the budget and returns the old value. One that fails
/// to allocate has an absent key, finds no free node and changes no entry. No insert of a pair that is too
/// heavy succeeds.
pub fn what_inserts_within_a_budget_leave<K, V, S>()
    ensures entries { (eq : K → K → Bool) (old new : WeightedState K V S) (k : K) (v : V) (weight : ℕ)
        (w : Option (V × ℕ))
        → WeightedInserts eq old new k v weight w
        → new.map.entries ≡ weighted_put eq old.map.entries old.budget k v weight }
    ensures answer { (eq : K → K → Bool) (old new : WeightedState K V S) (k : K) (v : V) (weight : ℕ)
        (w : Option (V × ℕ))
        → WeightedInserts eq old new k v weight w
        → w ≡ lookup (eq k) old.map.entries }
    ensures total { (eq : K → K → Bool) (old new : WeightedState K V S) (k : K) (v : V) (weight : ℕ)
        (w : Option (V × ℕ))
        → WeightedInserts eq old new k v weight w
        → total_weight new.map.entries ≤ new.budget }
    ensures refused { (eq : K → K → Bool) (old new : WeightedState K V S) (k : K) (v : V) (weight : ℕ)
        → WeightedRefuses eq old new k v weight
        → (new.map.entries ≡ old.map.entries) × (old.map.spare ≡ 0) × (lookup (eq k) old.map.entries ≡ None) }
    ensures one_of_them { (eq : K → K → Bool) (old new : WeightedState K V S) (k : K) (v : V) (weight : ℕ)
        (w : Option (V × ℕ))
        → IsTooHeavy old new weight → WeightedInserts eq old new k v weight w
        → ⊥ }
    ensures row { (old new : WeightedState ℕ ℕ S) (w : Option (ℕ × ℕ)) → old.budget ≡ 10
        → old.map.entries ≡ (1, (10, 4)) ∷ (2, (20, 4)) ∷ [] → WeightedInserts nat_eq old new 3 30 4 w
        → (w ≡ None) × (new.map.entries ≡ (2, (20, 4)) ∷ (3, (30, 4)) ∷ []) }
{}
