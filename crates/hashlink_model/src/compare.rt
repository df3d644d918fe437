//! Examples and laws of comparisons and of hashing.
ghost use Rattle.std.specs.Prelude.{◌≡◌, ℕ, Bool, true, false, List, [], ◌∷◌, Option, Some};
ghost use Rattle.std.specs.Cmp.{IsEquivalence, IsTotalOrder};
ghost use Rattle.std.specs.{List.AllZip, Ordering.eq_by_cmp, declared.cmp.Ordering.Ordering};
ghost use Rattle.std.specs.declared.cmp.Ordering.TheVariants.{Less, Greater};
ghost use Rattle.hashlink_model.specs.Compare.{entries_eq, entries_cmp, entries_partial_cmp};
ghost use Rattle.hashlink_model.specs.Entries.{IsEntries, extended};
ghost use Rattle.hashlink_model.specs.Compare.{entries_hash_input, elements_eq, elements_hash_input};
ghost use Rattle.hashlink_model.specs.Numbers as numbers;

/// Equality depends on the order of the entries and on the values.
pub fn equality_sees_the_order()
    ensures turned { numbers.equal ((1, 1) ∷ (2, 2) ∷ []) ((2, 2) ∷ (1, 1) ∷ []) ≡ false }
    ensures same { numbers.equal ((1, 1) ∷ (2, 2) ∷ []) ((1, 1) ∷ (2, 2) ∷ []) ≡ true }
    ensures values { numbers.equal ((1, 1) ∷ []) ((1, 2) ∷ []) ≡ false }
    ensures moved { numbers.equal (numbers.to_front ((1, 1) ∷ (2, 2) ∷ (3, 3) ∷ []) 2)
        ((1, 1) ∷ (2, 2) ∷ (3, 3) ∷ []) ≡ false }
    ensures both_moved { numbers.equal (numbers.to_front ((1, 1) ∷ (2, 2) ∷ (3, 3) ∷ []) 2)
        (numbers.to_front ((1, 1) ∷ (2, 2) ∷ (3, 3) ∷ []) 2)
        ≡ true }
{}

/// The first place that differs decides, not the length. A proper beginning is less.
pub fn order_is_by_place_and_not_by_length()
    ensures turned { numbers.order ((1, 1) ∷ (2, 2) ∷ []) ((2, 2) ∷ (1, 1) ∷ []) ≡ Less }
    ensures beginning { numbers.order ((1, 1) ∷ []) ((1, 1) ∷ (2, 2) ∷ []) ≡ Less }
    ensures longer { numbers.order ((1, 1) ∷ (2, 2) ∷ []) ((2, 2) ∷ []) ≡ Less }
    ensures shorter { numbers.order ((1, 1) ∷ (2, 3) ∷ []) ((1, 1) ∷ (2, 2) ∷ (3, 3) ∷ []) ≡ Greater }
{}

/// A hasher is fed key, value, key, value and no length.
pub fn entries_are_hashed_in_order()
    ensures { entries_hash_input {K = ℕ} {V = ℕ} (λ k. k ∷ []) (λ v. v ∷ []) ((1, 10) ∷ (2, 20) ∷ [])
        ≡ 1 ∷ 10 ∷ 2 ∷ 20 ∷ [] }
{}

/// Equality of maps is an equivalence. If equal keys are the same and equal values are the same, then equal
/// maps are the same list.
pub fn equality_of_entries<K, V>()
    ensures equivalence { (eqk : K → K → Bool) (eqv : V → V → Bool) → IsEquivalence eqk → IsEquivalence eqv
        → IsEquivalence (entries_eq eqk eqv) }
    ensures same_lists { (eqk : K → K → Bool) (eqv : V → V → Bool) → ((x y : K) → eqk x y ≡ true → x ≡ y)
        → ((x y : V) → eqv x y ≡ true → x ≡ y) → (xs ys : List (K × V)) → entries_eq eqk eqv xs ys ≡ true
        → xs ≡ ys }
{}

/// The order of maps is total if those of keys and values are. It agrees with equality if theirs do.
pub fn order_of_entries<K, V>()
    ensures total { (cmpk : K → K → Ordering) (cmpv : V → V → Ordering) → IsTotalOrder cmpk
        → IsTotalOrder cmpv
        → IsTotalOrder (entries_cmp cmpk cmpv) }
    ensures agrees { (eqk : K → K → Bool) (eqv : V → V → Bool) (cmpk : K → K → Ordering)
        (cmpv : V → V → Ordering)
        → ((x y : K) → eqk x y ≡ eq_by_cmp cmpk x y) → ((x y : V) → eqv x y ≡ eq_by_cmp cmpv x y)
        → (xs ys : List (K × V))
        → entries_eq eqk eqv xs ys ≡ eq_by_cmp (entries_cmp cmpk cmpv) xs ys }
{}

/// Equal maps feed a hasher alike if equal keys do and equal values do.
pub fn equal_entries_are_hashed_alike<K, V, W>()
    ensures { (eqk : K → K → Bool) (eqv : V → V → Bool) (hashk : K → List W) (hashv : V → List W)
        → ((x y : K) → eqk x y ≡ true → hashk x ≡ hashk y) → ((x y : V) → eqv x y ≡ true → hashv x ≡ hashv y)
        → (xs ys : List (K × V)) → entries_eq eqk eqv xs ys ≡ true
        → entries_hash_input hashk hashv xs ≡ entries_hash_input hashk hashv ys }
{}

/// Clones that are equal to their sources, inserted in turn into an empty list, yield an equal list.
pub fn a_clone_is_equal<K, V>()
    ensures { (eqk : K → K → Bool) → IsEquivalence eqk → (eqv : V → V → Bool) (es clones : List (K × V))
        → IsEntries eqk es → AllZip (λ p q. (eqk p.0 q.0 ≡ true) × (eqv p.1 q.1 ≡ true)) es clones
        → entries_eq eqk eqv es (extended eqk [] clones) ≡ true }
{}

/// If comparisons of keys and values always have a result, the partial order of maps is the total one.
pub fn partial_order_of_entries<K, V>()
    ensures { (partk : K → K → Option Ordering) (partv : V → V → Option Ordering) (cmpk : K → K → Ordering)
        (cmpv : V → V → Ordering)
        → ((x y : K) → partk x y ≡ Some (cmpk x y)) → ((x y : V) → partv x y ≡ Some (cmpv x y))
        → (xs ys : List (K × V))
        → entries_partial_cmp partk partv xs ys ≡ Some (entries_cmp cmpk cmpv xs ys) }
{}

/// Sets are compared and hashed by their elements in order. Their equality is an equivalence, and equal sets
/// feed a hasher alike.
pub fn sets_compare_in_order<T, W>()
    ensures equivalence { (eq : T → T → Bool) → IsEquivalence eq → IsEquivalence (elements_eq eq) }
    ensures hashed_alike { (eq : T → T → Bool) (hash : T → List W)
        → ((x y : T) → eq x y ≡ true → hash x ≡ hash y)
        → (xs ys : List T) → elements_eq eq xs ys ≡ true
        → elements_hash_input hash xs ≡ elements_hash_input hash ys }
{}
