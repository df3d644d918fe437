//! Examples and laws of lists of entries.
ghost use Rattle.std.specs.Prelude.{◌≡◌, ◌+◌, Bool, true, List, [], ◌∷◌, ◌++◌, Some, length};
ghost use Rattle.std.specs.{Cmp.IsEquivalence, Map.lookup};
ghost use Rattle.hashlink_model.specs.Entries.{IsEntries, put, moved};
ghost use Rattle.hashlink_model.specs.Entries.{extended};
ghost use Rattle.hashlink_model.specs.Labels as labels;
ghost use Rattle.hashlink_model.specs.Numbers as numbers;

/// A present key moves to either end, with its value.
pub fn moves_to_either_end()
    ensures back { numbers.put ((1, 10) ∷ (2, 20) ∷ (3, 30) ∷ (4, 40) ∷ (5, 50) ∷ []) 1 10 5
        ≡ (2, 20) ∷ (3, 30) ∷ (4, 40) ∷ (5, 50) ∷ (1, 10) ∷ [] }
    ensures front { numbers.put ((2, 20) ∷ (3, 30) ∷ (4, 40) ∷ (5, 50) ∷ (1, 10) ∷ []) 4 40 0
        ≡ (4, 40) ∷ (2, 20) ∷ (3, 30) ∷ (5, 50) ∷ (1, 10) ∷ [] }
{}

/// An insert moves a present key to the back, and a replace leaves it at its place.
pub fn insert_moves_and_replace_stays()
    ensures insert { numbers.insert ((1, 1) ∷ (2, 2) ∷ (3, 3) ∷ (4, 4) ∷ []) 3 5
        ≡ (1, 1) ∷ (2, 2) ∷ (4, 4) ∷ (3, 5) ∷ [] }
    ensures replace { numbers.replace ((1, 1) ∷ (2, 2) ∷ (4, 4) ∷ (3, 5) ∷ []) 2 6
        ≡ (1, 1) ∷ (2, 6) ∷ (4, 4) ∷ (3, 5) ∷ [] }
    ensures replace_absent { numbers.replace ((1, 10) ∷ []) 2 20 ≡ (1, 10) ∷ (2, 20) ∷ [] }
{}

/// Inserts at both ends in turn, the last of them of a present key at the front.
pub fn inserts_at_both_ends()
    ensures three { numbers.insert_front (numbers.insert (numbers.insert_front [] 1 1) 2 2) 3 3
        ≡ (3, 3) ∷ (1, 1) ∷ (2, 2) ∷ [] }
    ensures again { numbers.insert_front ((3, 3) ∷ (1, 1) ∷ (2, 2) ∷ []) 2 4 ≡ (2, 4) ∷ (3, 3) ∷ (1, 1) ∷ [] }
    ensures old_value { numbers.lookup ((3, 3) ∷ (1, 1) ∷ (2, 2) ∷ []) 2 ≡ Some 2 }
{}

/// A sequence of steps: inserts at both ends, a replace, a move, and a removal of the first pair.
pub fn a_run_of_steps()
    ensures { numbers.remove
        (numbers.to_back
        (numbers.replace
        (numbers.insert_front (numbers.insert_front (numbers.insert (numbers.insert_front [] 1 1) 2 2) 3 3)
        2 4) 3 5)
        2)
        3
        ≡ (1, 1) ∷ (2, 4) ∷ [] }
{}

/// A key is put behind its own place, and another before its own: the entries between move up by one.
pub fn places_close_up()
    ensures forward { numbers.put ((1, 1) ∷ (2, 2) ∷ (3, 3) ∷ (4, 4) ∷ []) 1 9 3
        ≡ (2, 2) ∷ (3, 3) ∷ (1, 9) ∷ (4, 4) ∷ [] }
    ensures backward { numbers.put ((1, 1) ∷ (2, 2) ∷ (3, 3) ∷ (4, 4) ∷ []) 4 9 1
        ≡ (1, 1) ∷ (4, 9) ∷ (2, 2) ∷ (3, 3) ∷ [] }
    ensures taken_out { numbers.to_front
        (numbers.insert (numbers.remove ((1, 10) ∷ (2, 20) ∷ (3, 30) ∷ (4, 40) ∷ (5, 50) ∷ (6, 60) ∷ []) 3)
        7 70) 5
        ≡ (5, 50) ∷ (1, 10) ∷ (2, 20) ∷ (4, 40) ∷ (6, 60) ∷ (7, 70) ∷ [] }
{}

/// An insert keeps the stored key and takes the given value.
pub fn insert_keeps_the_stored_key()
    ensures { labels.insert (((7, 1), 10) ∷ ((8, 1), 20) ∷ []) (7, 2) 11 ≡ ((8, 1), 20) ∷ ((7, 1), 11) ∷ [] }
{}

/// A second move to the same end leaves the list as it is.
pub fn move_twice_is_once<K, V>()
    ensures back { (eq : K → K → Bool) → IsEquivalence eq → (es : List (K × V)) (k : K) → IsEntries eq es
        → moved eq (moved eq es k (length es)) k (length es) ≡ moved eq es k (length es) }
    ensures front { (eq : K → K → Bool) → IsEquivalence eq → (es : List (K × V)) (k : K) → IsEntries eq es
        → moved eq (moved eq es k 0) k 0 ≡ moved eq es k 0 }
{}

/// After an insert at the back, the last pair has the new value and a key equal to the given one. After an
/// insert at the front, the first pair has.
pub fn the_end_after_an_insert<K, V>()
    ensures back { (eq : K → K → Bool) → IsEquivalence eq → (es : List (K × V)) (k : K) (v : V)
        → (xs : List (K × V)) × (k0 : K) × (put eq es k v (length es) ≡ xs ++ (k0, v) ∷ [])
        × (eq k k0 ≡ true) }
    ensures front { (eq : K → K → Bool) → IsEquivalence eq → (es : List (K × V)) (k : K) (v : V)
        → (xs : List (K × V)) × (k0 : K) × (put eq es k v 0 ≡ (k0, v) ∷ xs) × (eq k k0 ≡ true) }
{}

/// Inserts of many pairs keep the keys pairwise unequal. A list's own pairs, inserted in turn into an empty
/// list, give the list.
pub fn extend_from_empty<K, V>()
    ensures keys { (eq : K → K → Bool) → IsEquivalence eq → (es pairs : List (K × V)) → IsEntries eq es
        → IsEntries eq (extended eq es pairs) }
    ensures own { (eq : K → K → Bool) → IsEquivalence eq → (es : List (K × V)) → IsEntries eq es
        → extended eq [] es ≡ es }
{}
