//! Examples and laws of cursors.
ghost use Rattle.std.specs.Prelude.{Result, Err, ◌≡◌, ℕ, ◌<◌, ◌≤◌, Bool, List, [], ◌∷◌, Option};
ghost use Rattle.std.specs.{Prelude.{None, Some, length, slice_get, cond}, Cmp.IsEquivalence};
ghost use Rattle.hashlink_model.specs.Cursor.{CursorState, IsCursor, CursorInserts, InsertsBefore};
ghost use Rattle.hashlink_model.specs.Cursor.{InsertsAfter, at_place, place_next, place_previous, place_kept};
ghost use Rattle.hashlink_model.specs.Entries.{IsEntries, put};
ghost use Rattle.hashlink_model.specs.Cursor.{following_place, preceding_place};
ghost use Rattle.hashlink_model.specs.Numbers as numbers;

/// In an empty map a cursor is on the guard before and after each move.
pub fn an_empty_map_has_the_guard_alone()
    ensures next { following_place 0 0 ≡ 0 }
    ensures previous { preceding_place 0 0 ≡ 0 }
    ensures on_guard { numbers.place_kept [] [] 0 ≡ 0 }
{}

/// A key that is inserted before itself stays and takes the new value.
pub fn cursor_inserts_before_itself()
    ensures { numbers.insert_before ((2, 2) ∷ (3, 3) ∷ (4, 4) ∷ []) 3 5 1 ≡ (2, 2) ∷ (3, 5) ∷ (4, 4) ∷ [] }
{}

/// A key before the cursor is inserted after it. The entries between move one place to the front, and the
/// cursor's with them.
pub fn cursor_follows_its_entry()
    ensures moved { numbers.insert_after ((1, 1) ∷ (2, 2) ∷ (3, 3) ∷ []) 1 11 1 ≡ (2, 2) ∷
        (1, 11) ∷ (3, 3) ∷ [] }
    ensures follows { numbers.place_kept ((1, 1) ∷ (2, 2) ∷ (3, 3) ∷ [])
        ((2, 2) ∷ (1, 11) ∷ (3, 3) ∷ []) 1 ≡ 0 }
{}

/// After an insert at any place, a cursor is on the entry that it was on, or on the guard.
pub fn cursor_stays_on_its_entry<K, V>()
    ensures entry { (eq : K → K → Bool) → IsEquivalence eq
        → (es : List (K × V)) (i : ℕ) (e : K × V) (k : K) (v : V) (b : ℕ) → IsEntries eq es
        → slice_get es i ≡ Some e
        → slice_get (put eq es k v b) (place_kept eq es (put eq es k v b) i)
        ≡ Some (cond (eq k e.0) (e.0, v) e) }
    ensures guard { (eq : K → K → Bool) → IsEquivalence eq → (es : List (K × V)) (i : ℕ)
        (k : K) (v : V) (b : ℕ)
        → slice_get es i ≡ None
        → slice_get (put eq es k v b) (place_kept eq es (put eq es k v b) i) ≡ None }
    ensures unchanged { (eq : K → K → Bool) → IsEquivalence eq → (es : List (K × V)) (i : ℕ) → IsEntries eq es
        → i ≤ length es
        → place_kept eq es es i ≡ i }
    ensures within { (eq : K → K → Bool) (old new : List (K × V)) (i : ℕ)
        → place_kept eq old new i ≤ length new }
{}

/// An insert that fails changes neither the entries nor the cursor's place.
pub fn a_refused_insert_leaves_the_cursor<K, V, S>()
    ensures before { (eq : K → K → Bool) → IsEquivalence eq
        → (old new : CursorState K V S) (k : K) (v : V) (pair : K × V) → IsEntries eq old.map.entries
        → IsCursor old
        → InsertsBefore eq old new k v (Err pair)
        → (new.map.entries ≡ old.map.entries) × (new.place ≡ old.place) }
    ensures after { (eq : K → K → Bool) → IsEquivalence eq
        → (old new : CursorState K V S) (k : K) (v : V) (pair : K × V) → IsEntries eq old.map.entries
        → IsCursor old
        → InsertsAfter eq old new k v (Err pair)
        → (new.map.entries ≡ old.map.entries) × (new.place ≡ old.place) }
{}

/// A cursor is on an entry or on the guard, even after a move or an insert. A move forward and one back lead
/// to where it was.
pub fn where_a_cursor_stands<K, V, S>()
    ensures next { (c : CursorState K V S) → IsCursor (at_place c (place_next c)) }
    ensures previous { (c : CursorState K V S) → IsCursor (at_place c (place_previous c)) }
    ensures inserts { (eq : K → K → Bool) (old new : CursorState K V S) (k : K) (v : V) (b : ℕ)
        (r : Result (Option V) (K × V))
        → CursorInserts eq old new k v b r
        → IsCursor new }
    ensures there_and_back { (c : CursorState K V S) → IsCursor c
        → place_previous (at_place c (place_next c)) ≡ c.place }
    ensures back_and_there { (c : CursorState K V S) → IsCursor c
        → place_next (at_place c (place_previous c)) ≡ c.place }
    ensures past_the_guard { (c : CursorState ℕ ℕ S) → c.map.entries ≡ (1, 10) ∷ [] → c.place
        ≡ 7 → IsCursor c → ⊥ }
{}
