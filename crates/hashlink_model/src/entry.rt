//! Examples and laws of entries and raw entries.
ghost use Rattle.std.specs.Prelude.{◌≡◌, ◌+◌, ◌≤◌, ◌<◌, ℕ, Bool, true, List, [], ◌∷◌, None, Some};
ghost use Rattle.std.specs.{Prelude.{length, slice_get, nat_eq}, Cmp.IsEquivalence};
ghost use Rattle.std.specs.Map.{lookup};
ghost use Rattle.hashlink_model.specs.Entries.{IsEntries, place_of, put, moved, moved_at};
ghost use Rattle.hashlink_model.specs.Entry.{insert_value, insert_entry, or_insert, replace_entry};
ghost use Rattle.hashlink_model.specs.Entry.{InsertsEntry, ReplacesKey, EntryState, RawEntryState, IsEntry};
ghost use Rattle.hashlink_model.specs.{Entries.{set_value_at, set_key_at}, Entry.{IsRawEntry, raw_entry_of}};
ghost use Rattle.hashlink_model.specs.MapState.{MapState};
ghost use Rattle.hashlink_model.specs.Labels as labels;
ghost use Rattle.hashlink_model.specs.Numbers as numbers;

/// `insert_entry` on an occupied entry puts the given key at the back, even if it is a different object from
/// the stored key.
pub fn key_in_hand_goes_in()
    ensures vacant { numbers.place_of ((1, 1) ∷ (2, 2) ∷ (3, 3) ∷ []) 4 ≡ None }
    ensures last { labels.insert_entry (((7, 1), 10) ∷ ((8, 1), 20) ∷ []) 0 (7, 2) 11
        ≡ ((8, 1), 20) ∷ ((7, 2), 11) ∷ [] }
    ensures stored { labels.stored_key (((7, 1), 10) ∷ ((8, 1), 20) ∷ []) (7, 2) ≡ (7, 1) }
    ensures in_place { labels.set_key_at (((7, 1), 10) ∷ ((8, 1), 20) ∷ []) 0 (7, 2)
        ≡ ((7, 2), 10) ∷ ((8, 1), 20) ∷ [] }
{}

/// The value of a raw entry is replaced at its place. `or_insert` moves a present key to the back, and
/// inserts an absent one there.
pub fn raw_entries_write_and_move()
    ensures value { numbers.set_value_at ((1, 10) ∷ (2, 20) ∷ []) 1 21 ≡ (1, 10) ∷ (2, 21) ∷ [] }
    ensures absent { numbers.or_insert ((1, 10) ∷ (2, 21) ∷ []) 3 30 ≡ (1, 10) ∷ (2, 21) ∷ (3, 30) ∷ [] }
    ensures there { numbers.or_insert ((1, 10) ∷ (2, 20) ∷ []) 1 99 ≡ (2, 20) ∷ (1, 10) ∷ [] }
{}

/// Several steps on occupied entries in sequence.
pub fn entry_steps_in_a_row()
    ensures insert_entry { numbers.insert_entry ((1, 10) ∷ (2, 20) ∷ []) 0 1 11 ≡ (2, 20) ∷ (1, 11) ∷ [] }
    ensures replace_entry { numbers.replace_entry ((2, 20) ∷ (1, 11) ∷ []) 0 2 22 ≡ (2, 22) ∷ (1, 11) ∷ [] }
    ensures insert { numbers.insert_value ((2, 22) ∷ (1, 11) ∷ []) 0 23 ≡ (1, 11) ∷ (2, 23) ∷ [] }
{}

/// `or_insert` moves a present key to the back with its value, and inserts an absent one there with the given
/// value.
pub fn or_insert_is_a_move_or_an_insert<K, V>()
    ensures there { (eq : K → K → Bool) (es : List (K × V)) (k : K) (v w : V) → lookup (eq k) es ≡ Some w
        → or_insert eq es k v ≡ moved eq es k (length es) }
    ensures absent { (eq : K → K → Bool) (es : List (K × V)) (k : K) (v : V) → lookup (eq k) es ≡ None
        → or_insert eq es k v ≡ put eq es k v (length es) }
{}

/// A replaced key or value changes no place.
pub fn replacing_leaves_every_place<K, V>()
    ensures { (eq : K → K → Bool) → IsEquivalence eq → (q : K) (es : List (K × V)) (j : ℕ)
        (e : K × V) (h : K) (v : V)
        → IsEntries eq es → slice_get es j ≡ Some e → eq h e.0 ≡ true
        → place_of (eq q) (replace_entry es j h v) ≡ place_of (eq q) es }
{}

/// A step that replaces only a key, or only a value, keeps the other part of the entry. A replaced key stores
/// no link.
pub fn what_is_replaced_alone<S>()
    ensures value { numbers.set_value_at ((1, 10) ∷ (2, 20) ∷ []) 1 21 ≡ (1, 10) ∷ (2, 21) ∷ [] }
    ensures past_the_end { numbers.set_value_at ((1, 10) ∷ (2, 20) ∷ []) 2 21 ≡ (1, 10) ∷ (2, 20) ∷ [] }
    ensures key { (old new : MapState ℕ ℕ S) (k : ℕ) → old.entries ≡ (1, 10) ∷ (2, 20) ∷ []
        → ReplacesKey old new 1 2 k
        → (k ≡ 2) × (new.entries ≡ (1, 10) ∷ (2, 20) ∷ []) × (new.link_writes ≡ old.link_writes) }
    ensures key_object { (old new : MapState labels.Label ℕ S) (k : labels.Label)
        → old.entries ≡ ((7, 1), 10) ∷ []
        → ReplacesKey old new 0 (7, 2) k
        → (k ≡ (7, 1)) × (new.entries ≡ ((7, 2), 10) ∷ []) }
    ensures entry { (old new : MapState ℕ ℕ S) (e : ℕ × ℕ) → old.entries ≡ (1, 10) ∷ (2, 20) ∷ []
        → InsertsEntry old new 0 1 11 e
        → (e ≡ (1, 10)) × (new.entries ≡ (2, 20) ∷ (1, 11) ∷ []) × (new.link_writes ≤ old.link_writes + 6) }
{}

/// The place of an entry is that of its key, so it is an entry's of the map, or none. The same holds for a
/// raw entry, whatever test found it.
pub fn where_an_entry_stands<K, V, S>()
    ensures occupied { (eq : K → K → Bool) (e : EntryState K V S) (j : ℕ) → IsEntry eq e → e.place ≡ Some j
        → (x : K × V) × (slice_get e.map.entries j ≡ Some x) × (eq e.key x.0 ≡ true) }
    ensures vacant { (eq : K → K → Bool) → IsEquivalence eq → (e : EntryState K V S)
        → IsEntry eq e → e.place ≡ None
        → lookup (eq e.key) e.map.entries ≡ None }
    ensures raw { (eq : K → K → Bool) (m : MapState K V S) (k : K) → IsRawEntry (raw_entry_of eq m k) }
    ensures past_the_end { (e : EntryState ℕ ℕ S) → e.map.entries ≡ (1, 10) ∷ [] → e.place
        ≡ Some 7 → IsEntry nat_eq e
        → ⊥ }
    ensures raw_past_the_end { (r : RawEntryState ℕ ℕ S) → r.map.entries ≡ (1, 10) ∷ [] → r.place ≡ Some 7
        → IsRawEntry r
        → ⊥ }
{}

/// Inserts, replaces and moves of an occupied entry keep the length.
pub fn lengths_after_entry_steps<K, V>()
    ensures insert_value { (es : List (K × V)) (j : ℕ) (v : V) → length (insert_value es j v) ≡ length es }
    ensures insert_entry { (es : List (K × V)) (j : ℕ) (h : K) (v : V) → length
        (insert_entry es j h v) ≡ length es }
    ensures replace_entry { (es : List (K × V)) (j : ℕ) (h : K) (v : V) → length
        (replace_entry es j h v) ≡ length es }
    ensures moved { (es : List (K × V)) (j b : ℕ) → length (moved_at es j b) ≡ length es }
{}
