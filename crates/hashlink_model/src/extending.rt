//! Examples and laws of many items in turn.
ghost use Rattle.std.specs.Prelude.{◌≡◌, ℕ, ◌+◌, ◌-◌, ◌^◌, ◌≤◌, ◌<◌, Bool, nat_eq, List, [], ◌∷◌, ◌++◌};
ghost use Rattle.std.specs.Prelude.{length};
ghost use Rattle.hashlink_model.specs.{Entries.extended, MapState.MapState, Steps.Drains};
ghost use Rattle.hashlink_model.specs.Many.{AcceptsAll, StopsAt, MadeFrom, InsertsPair};

/// Three pairs, the last with the key of the first, make a map of two entries. Two pairs extend it, and the
/// insert of the second fails.
#[tactic(auto, using(crate::proofs::InTurn::stops_entries, crate::proofs::InTurn::refused_of_two))]
pub fn items_in_a_row<S>()
    ensures made { (s : S) (m : MapState ℕ ℕ S) → MadeFrom (InsertsPair nat_eq)
        ((1, 10) ∷ (2, 20) ∷ (1, 11) ∷ []) s m
        → m.entries ≡ (2, 20) ∷ (1, 11) ∷ [] }
    ensures stopped { (old new : MapState ℕ ℕ S) (taken : ℕ) (back : ℕ × ℕ) → old.entries
        ≡ (2, 20) ∷ (1, 11) ∷ []
        → StopsAt (InsertsPair nat_eq) old ((2, 21) ∷ (3, 30) ∷ []) new taken back []
        → (taken ≡ 1) × (back ≡ (3, 30)) × (new.entries ≡ (1, 11) ∷ (2, 21) ∷ []) }
{}

/// Items whose inserts succeed are inserted at the back in turn. They may be given in two parts.
#[tactic(auto, using(crate::proofs::InTurn::accepts_entries, crate::proofs::InTurn::accepts_in_parts))]
pub fn accepted_items<K, V, S>()
    ensures entries { (eq : K → K → Bool) (old new : MapState K V S) (items : List (K × V))
        → AcceptsAll (InsertsPair eq) old items new
        → new.entries ≡ extended eq old.entries items }
    ensures parts { (eq : K → K → Bool) (a b c : MapState K V S) (xs ys : List (K × V))
        → AcceptsAll (InsertsPair eq) a xs b → AcceptsAll (InsertsPair eq) b ys c
        → AcceptsAll (InsertsPair eq) a (xs ++ ys) c }
{}

/// If the insert of an item fails, the items before it stay inserted, the item is returned, and every free
/// node has been used. So the inserts of as many items as there are free nodes after a drain cannot fail.
pub fn a_refused_item<K, V, S>()
    ensures entries { (eq : K → K → Bool) (old new : MapState K V S) (items : List (K × V))
        (taken : ℕ) (back : K × V) (left : List (K × V))
        → (s : StopsAt (InsertsPair eq) old items new taken back left)
        → new.entries ≡ extended eq old.entries s.before }
    ensures handed_back { (eq : K → K → Bool) (old new : MapState K V S) (items : List (K × V)) (taken : ℕ)
        (back : K × V) (left : List (K × V))
        → (s : StopsAt (InsertsPair eq) old items new taken back left)
        → back ≡ s.item }
    ensures taken { (eq : K → K → Bool) (old new : MapState K V S) (items : List (K × V))
        (taken : ℕ) (back : K × V) (left : List (K × V))
        → (s : StopsAt (InsertsPair eq) old items new taken back left)
        → (taken ≤ 2 ^ 64 - 1) × (length s.before < 2 ^ 64 → taken ≡ length s.before) }
    ensures spare { (eq : K → K → Bool) (old new : MapState K V S) (items : List (K × V))
        (taken : ℕ) (back : K × V) (left : List (K × V))
        → StopsAt (InsertsPair eq) old items new taken back left
        → old.spare < length items }
    ensures after_a_drain { (eq : K → K → Bool) (full old new : MapState K V S)
        (items : List (K × V)) (taken : ℕ) (back : K × V) (left : List (K × V))
        → Drains full old → length items ≤ full.spare + length full.entries
        → StopsAt (InsertsPair eq) old items new taken back left
        → ⊥ }
{}
