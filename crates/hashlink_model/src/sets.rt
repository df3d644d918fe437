//! Examples and laws of sets.
ghost use Rattle.std.specs.Prelude.{◌≡◌, ℕ, ◌+◌, Bool, true, not, nat_eq, List, [], ◌∷◌, ◌++◌};
ghost use Rattle.std.specs.Prelude.{Option, Some, Ok, length, filter, slice_get};
ghost use Rattle.std.specs.{Cmp.IsEquivalence, List.{IsDistinct, find}};
ghost use Rattle.std.specs.{Fn.CalledAt, Map.keys_of, Set.{is_member, remove_key}};
ghost use Rattle.hashlink_model.specs.Sets.{SetState, elements_of, at_element, pairs_of, put_element};
ghost use Rattle.hashlink_model.specs.Entries.{IsEntries, put};
ghost use Rattle.hashlink_model.specs.Retain.{KeepsInOrder, KeepsInSomeOrder};
ghost use Rattle.hashlink_model.specs.Sets.{replaced, stored_element, SetInserts, GetsOrInserts, SetReplaces};
ghost use Rattle.hashlink_model.specs.Labels as labels;

/// A replace stores the new object. An insert keeps the old one and moves it.
pub fn which_object_a_set_keeps()
    ensures replace { labels.replaced ((7, 1) ∷ []) (7, 2) ≡ (7, 2) ∷ [] }
    ensures insert { labels.insert_element ((7, 1) ∷ (8, 1) ∷ []) (7, 2) ≡ (8, 1) ∷ (7, 1) ∷ [] }
{}

/// A set is a map with values of type `()`. Its elements determine its entries, and an element is put as a
/// key is.
pub fn a_set_is_a_map<T>()
    ensures entries { (es : List (T × Unit {0})) → pairs_of (keys_of es) ≡ es }
    ensures elements { (ts : List T) → keys_of (pairs_of ts) ≡ ts }
    ensures put { (eq : T → T → Bool) (es : List (T × Unit {0})) (t : T) (b : ℕ)
        → keys_of (put eq es t tt b) ≡ put_element eq (keys_of es) t b }
{}

/// The results of the set's own steps, and the elements afterwards. An insert returns whether the element was
/// new, and keeps the stored object. A replace returns this object, and stores the new one at its place.
pub fn what_set_steps_leave<T, S>()
    ensures insert { (eq : T → T → Bool) (old new : SetState T S) (t : T) (b : Bool)
        → SetInserts eq old new t (Ok b)
        → (elements_of new ≡ put_element eq (elements_of old) t (length (elements_of old)))
        × (b ≡ not (is_member eq (elements_of old) t)) }
    ensures replace { (eq : T → T → Bool) (old new : SetState T S) (t : T) (o : Option T)
        → SetReplaces eq old new t (Ok o)
        → (elements_of new ≡ replaced eq (elements_of old) t) × (o ≡ find (eq t) (elements_of old)) }
    ensures lent { (old new : SetState ℕ S) (x : ℕ) → elements_of old ≡ 1 ∷ 2 ∷ 3 ∷ []
        → GetsOrInserts nat_eq old new 1 (Ok x)
        → (x ≡ 1) × (elements_of new ≡ 2 ∷ 3 ∷ 1 ∷ []) }
    ensures swapped { (old new : SetState ℕ S) (o : Option ℕ) → elements_of old ≡ 2 ∷ 3 ∷ 1 ∷ []
        → SetReplaces nat_eq old new 3 (Ok o)
        → (o ≡ Some 3) × (elements_of new ≡ 2 ∷ 3 ∷ 1 ∷ []) }
{}

/// An element that is put last or first is there as the object that the set has for it. A second put at the
/// same end changes nothing, nor does a put at the element's own place or directly behind itself.
pub fn where_an_element_is_put<T>()
    ensures back { (eq : T → T → Bool) (ts : List T) (t : T)
        → put_element eq ts t (length ts) ≡ remove_key (eq t) ts ++ stored_element eq ts t ∷ [] }
    ensures front { (eq : T → T → Bool) (ts : List T) (t : T)
        → put_element eq ts t 0 ≡ stored_element eq ts t ∷ remove_key (eq t) ts }
    ensures back_twice { (eq : T → T → Bool) → IsEquivalence eq → (ts : List T) (t : T) → IsDistinct eq ts
        → put_element eq (put_element eq ts t (length ts)) t (length (put_element eq ts t (length ts)))
        ≡ put_element eq ts t (length ts) }
    ensures front_twice { (eq : T → T → Bool) → IsEquivalence eq → (ts : List T) (t : T) → IsDistinct eq ts
        → put_element eq (put_element eq ts t 0) t 0 ≡ put_element eq ts t 0 }
    ensures there { (eq : T → T → Bool) → IsEquivalence eq → (ts : List T) (j : ℕ)
        (x t : T) → IsDistinct eq ts
        → slice_get ts j ≡ Some x → eq t x ≡ true
        → put_element eq ts t j ≡ ts }
    ensures behind { (eq : T → T → Bool) → IsEquivalence eq → (ts : List T) (j : ℕ)
        (x t : T) → IsDistinct eq ts
        → slice_get ts j ≡ Some x → eq t x ≡ true
        → put_element eq ts t (j + 1) ≡ ts }
{}

/// A retain of a set with a predicate is a filter of its elements.
pub fn a_set_retained_by_a_predicate<T, F: FnMut(&T) -> bool>()
    ensures some_order { (eq : T → T → Bool) → IsEquivalence eq → (p : T → Bool)
        → ((g : F) (t : T) (b : Bool) (h : F) → CalledAt F.FnMut g t b h → b ≡ p t)
        → (f : F) (es new : List (T × Unit {0})) (g : F) → IsEntries eq es
        → KeepsInSomeOrder (at_element (CalledAt F.FnMut)) eq f es new g
        → keys_of new ≡ filter p (keys_of es) }
    ensures in_order { (p : T → Bool)
        → ((g : F) (t : T) (b : Bool) (h : F) → CalledAt F.FnMut g t b h → b ≡ p t)
        → (f : F) (es new : List (T × Unit {0})) (g : F)
        → KeepsInOrder (at_element (CalledAt F.FnMut)) f es new g
        → keys_of new ≡ filter p (keys_of es) }
{}
