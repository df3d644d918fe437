//! Examples and laws of retains.
ghost use Rattle.std.specs.{Prelude.{◌≡◌, ℕ, Bool, true, List, [], ◌∷◌, filter, nat_eq}, Cmp.IsEquivalence};
ghost use Rattle.std.specs.Map.Calls.{CalledAtPair};
ghost use Rattle.hashlink_model.specs.{Entries.IsEntries, RetainRows.{PushesOdd, TimesTen, one_to_six}};
ghost use Rattle.hashlink_model.specs.Retain.{KeepsInSomeOrder, KeepsInOrder, in_order_of};

/// A closure that pushes odd keys to a list and returns false for them: it has pushed them in the list's
/// order, and the even keys are left.
pub fn retain_with_a_closure_that_collects()
    ensures { KeepsInOrder PushesOdd [] one_to_six ((2, 2) ∷ (4, 4) ∷ (6, 6) ∷ []) (1 ∷ 3 ∷ 5 ∷ []) }
{}

/// A closure that multiplies each value by ten and returns true for odd keys.
pub fn retain_with_a_closure_that_writes()
    ensures { KeepsInOrder TimesTen 0 ((1, 1) ∷ (2, 2) ∷ (3, 3) ∷ []) ((1, 10) ∷ (3, 30) ∷ []) 0 }
{}

/// Entries kept by calls in another order are left in the list's own order.
pub fn what_is_kept_stands_in_order()
    ensures { in_order_of {V = ℕ} nat_eq ((1, 1) ∷ (2, 2) ∷ (3, 3) ∷ []) ((3, 30) ∷ (1, 10) ∷ [])
        ≡ (1, 10) ∷ (3, 30) ∷ [] }
{}

/// The closure after the calls: what it has collected, and any property that each call keeps.
pub fn what_a_closure_ends_as<K, V, F: FnMut(&K, &mut V) -> bool>()
    ensures collected { (kept : List (ℕ × ℕ)) (g : List ℕ) → KeepsInOrder PushesOdd [] one_to_six kept g
        → (kept ≡ (2, 2) ∷ (4, 4) ∷ (6, 6) ∷ []) × (g ≡ 1 ∷ 3 ∷ 5 ∷ []) }
    ensures unchanged { (new : List (ℕ × ℕ)) (g : ℕ) → KeepsInSomeOrder TimesTen nat_eq 7
        one_to_six new g → g ≡ 7 }
    ensures in_order { (stays : F → Bool)
        →
        ((f : F) (k : K) (v : V) (b : Bool) (w : V) (g : F) → CalledAtPair F.FnMut f k v b w g
        → stays f ≡ true
        → stays g ≡ true)
        → (f : F) (es kept : List (K × V)) (g : F) → KeepsInOrder (CalledAtPair F.FnMut) f es kept g
        → stays f ≡ true
        → stays g ≡ true }
    ensures some_order { (stays : F → Bool)
        →
        ((f : F) (k : K) (v : V) (b : Bool) (w : V) (g : F) → CalledAtPair F.FnMut f k v b w g
        → stays f ≡ true
        → stays g ≡ true)
        → (eq : K → K → Bool) (f : F) (es new : List (K × V)) (g : F)
        → KeepsInSomeOrder (CalledAtPair F.FnMut) eq f es new g → stays f ≡ true
        → stays g ≡ true }
{}

/// With a predicate both retains are a filter, whatever the closure does with its own state.
pub fn retain_by_a_predicate_is_a_filter<K, V, F: FnMut(&K, &mut V) -> bool>()
    ensures some_order { (eq : K → K → Bool) → IsEquivalence eq → (p : K × V → Bool)
        →
        ((g : F) (k : K) (v : V) (b : Bool) (w : V) (h : F) → CalledAtPair F.FnMut g k v b w h
        → (b ≡ p (k, v)) × (w ≡ v))
        → (f : F) (es new : List (K × V)) (g : F) → IsEntries eq es
        → KeepsInSomeOrder (CalledAtPair F.FnMut) eq f es new g
        → new ≡ filter p es }
    ensures in_order { (p : K × V → Bool)
        →
        ((g : F) (k : K) (v : V) (b : Bool) (w : V) (h : F) → CalledAtPair F.FnMut g k v b w h
        → (b ≡ p (k, v)) × (w ≡ v))
        → (f : F) (es new : List (K × V)) (g : F) → KeepsInOrder (CalledAtPair F.FnMut) f es new g
        → new ≡ filter p es }
{}
