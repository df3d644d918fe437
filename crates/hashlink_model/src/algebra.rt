//! Examples and laws of set algebra.
ghost use Rattle.std.specs.Prelude.{◌≡◌, ℕ, ◌-◌, ◌^◌, ◌≤◌, Bool, true, false, not, List, [], ◌∷◌, None};
ghost use Rattle.std.specs.{Prelude.{Some, length, filter}, Cmp.IsEquivalence};
ghost use Rattle.std.specs.{Option.IsSomeAnd, Map.Iter.TakesFirst};
ghost use Rattle.std.specs.Set.{is_member, IsUnion, IsIntersection, IsDifference, IsSymmetricDifference};
ghost use Rattle.hashlink_model.specs.Algebra.{PairWalk, first_passing, difference_of, intersection_of};
ghost use Rattle.hashlink_model.specs.Algebra.{union_of, symmetric_difference_of, is_subset, is_disjoint};
ghost use Rattle.hashlink_model.specs.Algebra.{left_to_give, pair_step, at_most_both, union_hint};
ghost use Rattle.hashlink_model.specs.Algebra.{symmetric_difference_hint, part_hint};
ghost use Rattle.hashlink_model.specs.Numbers as numbers;

/// `1 2` and `3 1` combined, in both orders.
pub fn sets_together()
    ensures union { numbers.union (1 ∷ 2 ∷ []) (3 ∷ 1 ∷ []) ≡ 1 ∷ 2 ∷ 3 ∷ [] }
    ensures other_union { numbers.union (3 ∷ 1 ∷ []) (1 ∷ 2 ∷ []) ≡ 3 ∷ 1 ∷ 2 ∷ [] }
    ensures symmetric_difference { numbers.symmetric_difference (1 ∷ 2 ∷ []) (3 ∷ 1 ∷ []) ≡ 2 ∷ 3 ∷ [] }
    ensures intersection { numbers.intersection (1 ∷ 2 ∷ []) (3 ∷ 1 ∷ []) ≡ 1 ∷ [] }
    ensures difference { numbers.difference (1 ∷ 2 ∷ []) (3 ∷ 1 ∷ []) ≡ 2 ∷ [] }
{}

/// The size hints along the union of `1 2` and `3 1`: at the start, after one step, and before and after the
/// step that returns `None`.
pub fn hints_along_a_union()
    ensures start { union_hint {T = ℕ} (record { left = 1 ∷ 2 ∷ []; right = 3 ∷ 1 ∷ [] }) ≡ (2, Some 4) }
    ensures step { numbers.union_step (1 ∷ 2 ∷ []) (record { left = 1 ∷ 2 ∷ []; right = 3 ∷ 1 ∷ [] })
        ≡ (Some 1, record { left = 2 ∷ []; right = 3 ∷ 1 ∷ [] }) }
    ensures after_one { union_hint {T = ℕ} (record { left = 2 ∷ []; right = 3 ∷ 1 ∷ [] }) ≡ (1, Some 3) }
    ensures third { numbers.union_step (1 ∷ 2 ∷ []) (record { left = []; right = 3 ∷ 1 ∷ [] })
        ≡ (Some 3, record { left = []; right = 1 ∷ [] }) }
    ensures after_three { union_hint {T = ℕ} (record { left = []; right = 1 ∷ [] }) ≡ (0, Some 1) }
    ensures fourth { numbers.union_step (1 ∷ 2 ∷ []) (record { left = []; right = 1 ∷ [] })
        ≡ (None, record { left = []; right = [] }) }
    ensures after_four { union_hint {T = ℕ} (record { left = []; right = [] }) ≡ (0, Some 0) }
    ensures symmetric_difference { symmetric_difference_hint {T = ℕ}
        (record { left = 1 ∷ 2 ∷ []; right = 3 ∷ 1 ∷ [] })
        ≡ (0, Some 4) }
    ensures too_many { at_most_both (2 ^ 64 - 1) 1 ≡ None }
{}

/// The results of set algebra have the members that their names promise.
#[tactic(auto, using(crate::proofs::Members::members))]
pub fn members_of_set_algebra<T>()
    ensures union { (eq : T → T → Bool) → IsEquivalence eq → (xs ys : List T) → IsUnion eq xs ys
        (union_of eq xs ys) }
    ensures intersection { (eq : T → T → Bool) → IsEquivalence eq → (xs ys : List T)
        → IsIntersection eq xs ys (intersection_of eq xs ys) }
    ensures difference { (eq : T → T → Bool) → IsEquivalence eq → (xs ys : List T)
        → IsDifference eq xs ys (difference_of eq xs ys) }
    ensures symmetric_difference { (eq : T → T → Bool) → IsEquivalence eq → (xs ys : List T)
        → IsSymmetricDifference eq xs ys (symmetric_difference_of eq xs ys) }
{}

/// A subset has only members of the other set; disjoint sets share none.
pub fn subset_and_disjoint_by_membership<T>()
    ensures subset { (eq : T → T → Bool) → IsEquivalence eq → (xs ys : List T)
        → is_subset eq xs ys ≡ true → (q : T)
        → is_member eq xs q ≡ true
        → is_member eq ys q ≡ true }
    ensures subset_from { (eq : T → T → Bool) → IsEquivalence eq → (xs ys : List T)
        → ((q : T) → is_member eq xs q ≡ true → is_member eq ys q ≡ true)
        → is_subset eq xs ys ≡ true }
    ensures disjoint { (eq : T → T → Bool) → IsEquivalence eq → (xs ys : List T) → is_disjoint eq xs ys ≡ true
        → (q : T) → is_member eq xs q ≡ true
        → is_member eq ys q ≡ false }
    ensures disjoint_from { (eq : T → T → Bool) → IsEquivalence eq → (xs ys : List T)
        → ((q : T) → is_member eq xs q ≡ true → is_member eq ys q ≡ false)
        → is_disjoint eq xs ys ≡ true }
{}

/// A lazy iterator begins with the whole result of set algebra, and each step takes the first of the elements
/// left.
pub fn lazy_walks_give_set_algebra<T>()
    ensures union { (eq : T → T → Bool) (xs ys : List T)
        → left_to_give (λ _. true) (λ y. not (is_member eq xs y)) (record { left = xs; right = ys })
        ≡ union_of eq xs ys }
    ensures symmetric_difference { (eq : T → T → Bool) (xs ys : List T)
        → left_to_give (λ x. not (is_member eq ys x)) (λ y. not (is_member eq xs y))
        (record { left = xs; right = ys })
        ≡ symmetric_difference_of eq xs ys }
    ensures step { (p q : T → Bool) (w : PairWalk T)
        → TakesFirst (λ y. y) (left_to_give p q w) (pair_step p q w).0
        (left_to_give p q (pair_step p q w).1) }
{}

/// Each step of an iterator over one side returns the first of the elements left that pass. The number of
/// elements left that pass is within its size hint.
pub fn a_walk_over_one_side<T>()
    ensures step { (p : T → Bool) (xs : List T)
        → TakesFirst (λ y. y) (filter p xs) (first_passing p xs).0 (filter p (first_passing p xs).1) }
    ensures below { (p : T → Bool) (xs : List T) → (part_hint xs).0 ≤ length (filter p xs) }
    ensures above { (p : T → Bool) (xs : List T) → IsSomeAnd (part_hint xs).1
        (λ most. length (filter p xs) ≤ most) }
{}
