//! Examples and laws of iterators.
ghost use Rattle.std.specs.Prelude.{◌≡◌, ℕ, ◌-◌, List, [], ◌∷◌, ◌++◌, Option, None, Some, length};
ghost use Rattle.std.specs.Map.Iter.{TakesFirst, TakesLast};
ghost use Rattle.hashlink_model.specs.Walk.{End, Front, Back, first_of, after_first_of, last_of};
ghost use Rattle.hashlink_model.specs.Walk.{before_last_of, step_gives, step_leaves, walk_gives, walk_leaves};
ghost use Rattle.hashlink_model.specs.Walk.{given_front, given_back};

/// Two steps from the front, two from the back, and then `None` from both.
pub fn a_walk_from_both_ends()
    ensures gives { walk_gives {X = ℕ} (Front ∷ Front ∷ Back ∷ Back ∷ Back ∷ Front ∷ []) (1 ∷ 2 ∷ 3 ∷ 4 ∷ [])
        ≡ Some 1 ∷ Some 2 ∷ Some 4 ∷ Some 3 ∷ None ∷ None ∷ [] }
    ensures leaves { walk_leaves {X = ℕ} (Front ∷ Front ∷ Back ∷ Back ∷ Back ∷ Front ∷ [])
        (1 ∷ 2 ∷ 3 ∷ 4 ∷ []) ≡ [] }
    ensures one_left { walk_leaves {X = ℕ × ℕ} (Front ∷ Back ∷ []) ((1, 10) ∷ (3, 30) ∷ (2, 20) ∷ [])
        ≡ (3, 30) ∷ [] }
{}

/// A step from the front takes the first of the entries left, and a step from the back the last.
pub fn a_step_takes_an_end<X>()
    ensures front { (xs : List X) → TakesFirst (λ x. x) xs (first_of xs) (after_first_of xs) }
    ensures back { (xs : List X) → TakesLast (λ x. x) xs (last_of xs) (before_last_of xs) }
{}

/// Each entry is returned once, from whichever ends the steps are. Those returned from the front, those left
/// and those returned from the back are together the list.
pub fn a_walk_gives_each_entry_once<X>()
    ensures { (steps : List End) (xs : List X)
        → given_front steps xs ++ (walk_leaves steps xs ++ given_back steps xs) ≡ xs }
{}

/// Each step leaves one entry fewer, as long as there is one. If none is left, both ends return `None` from
/// then on.
pub fn a_walk_ends<X>()
    ensures hint { (steps : List End) (xs : List X) → length (walk_leaves steps xs)
        ≡ length xs - length steps }
    ensures gives_none { (end : End) → ◌≡◌ {A = Option X} (step_gives end []) None }
    ensures for_good { (end : End) → ◌≡◌ {A = List X} (step_leaves end []) [] }
{}
