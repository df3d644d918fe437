//! Examples and laws of the states of a map, and of the steps between them.
ghost use Rattle.std.specs.Prelude.{◌≡◌, ℕ, ◌+◌, ◌≤◌, ◌<◌, max, Bool, List, [], ◌∷◌, ◌++◌};
ghost use Rattle.std.specs.Prelude.{Option, None, Some, Result, Ok, Err, IsOk, length, nat_eq};
ghost use Rattle.std.specs.{Cmp.IsEquivalence, Map.lookup};
ghost use Rattle.hashlink_model.specs.MapState.{MapState, empty_map, node_count, HasRoom, MayRefuse, Changes};
ghost use Rattle.hashlink_model.specs.MapState.{Adds, Removes, Grows, AddsEntry, PutsEntry, Inserts};
ghost use Rattle.hashlink_model.specs.Steps.{PopsFront, PopsBack, KeepsOnly, WritesEntry, Replaces, Moves};
ghost use Rattle.hashlink_model.specs.Steps.{MovesAndWrites, RemovesKey, Clears, Drains, Reserves, Shrinks};
ghost use Rattle.hashlink_model.specs.{Entries.{IsEntries, without}, MapState.KeepsNodes, Steps.IsMadeWith};

/// An insert fails only if its key is absent and no node is free. It then returns the pair and changes no
/// entry.
pub fn a_refused_insert_changes_nothing<K, V, S>()
    ensures absent { (eq : K → K → Bool) (old new : MapState K V S) (k : K) (v : V) (b : ℕ) (pair : K × V)
        → Inserts eq old new k v b (Err pair)
        → lookup (eq k) old.entries ≡ None }
    ensures no_spare { (eq : K → K → Bool) (old new : MapState K V S) (k : K) (v : V) (b : ℕ) (pair : K × V)
        → Inserts eq old new k v b (Err pair)
        → old.spare ≡ 0 }
    ensures pair { (eq : K → K → Bool) (old new : MapState K V S) (k : K) (v : V) (b : ℕ) (pair : K × V)
        → Inserts eq old new k v b (Err pair)
        → pair ≡ (k, v) }
    ensures entries { (eq : K → K → Bool) (old new : MapState K V S) (k : K) (v : V) (b : ℕ) (pair : K × V)
        → Inserts eq old new k v b (Err pair)
        → new.entries ≡ old.entries }
{}

/// One of three entries is removed: its node is free and serves the next absent key, whose insert cannot
/// fail. After that no node is free.
pub fn a_spare_node_serves_the_next_key<S>()
    ensures removed { (old new : MapState ℕ ℕ S) → old.spare ≡ 0
        → Removes old new (without nat_eq ((1, 10) ∷ (2, 20) ∷ (3, 30) ∷ []) 2)
        → (new.entries ≡ (1, 10) ∷ (3, 30) ∷ []) × (new.spare ≡ 1) }
    ensures served { (old new : MapState ℕ ℕ S) (pair : ℕ × ℕ) → old.spare ≡ 1
        → Inserts nat_eq old new 4 40 2 (Err pair)
        → ⊥ }
    ensures used { (old new : MapState ℕ ℕ S) → old.spare ≡ 1 → AddsEntry nat_eq old new 4 40 2
        → new.spare ≡ 0 }
{}

/// A drain leaves no entry and a free node for each, even if it ends early. A clear leaves the nodes that
/// were free before.
pub fn what_a_drain_and_a_clear_leave<K, V, S>()
    ensures drained { (old new : MapState K V S) → Drains old new
        → (new.entries ≡ []) × (new.spare ≡ old.spare + length old.entries) }
    ensures cleared { (old new : MapState K V S) → Clears old new → (new.entries ≡ [])
        × (new.spare ≡ old.spare) }
{}

/// A write of a value keeps its entry's place, makes no node free and stores no link. A move keeps the value.
/// A move of an absent key changes nothing.
pub fn what_a_write_and_a_move_leave<S>()
    ensures written { (old new : MapState ℕ ℕ S) (w : ℕ) → old.entries ≡ (1, 10) ∷ (2, 20) ∷ []
        → WritesEntry nat_eq old new 1 11 w
        → (w ≡ 10) × (new.entries ≡ (1, 11) ∷ (2, 20) ∷ []) × (new.spare ≡ old.spare)
        × (new.link_writes ≤ old.link_writes) }
    ensures moved { (old new : MapState ℕ ℕ S) (r : Option ℕ) → old.entries ≡ (1, 10) ∷ (2, 20) ∷ (3, 30) ∷ []
        → Moves nat_eq old new 1 3 r
        → (r ≡ Some 10) × (new.entries ≡ (2, 20) ∷ (3, 30) ∷ (1, 10) ∷ []) }
    ensures absent { (old new : MapState ℕ ℕ S) (r : Option ℕ) → old.entries ≡ (1, 10) ∷ []
        → Moves nat_eq old new 2 0 r
        → (r ≡ None) × (new ≡ old) }
    ensures lent { (old new : MapState ℕ ℕ S) → old.entries ≡ (1, 10) ∷ (2, 20) ∷ []
        → MovesAndWrites nat_eq old new 1 2 11
        → new.entries ≡ (2, 20) ∷ (1, 11) ∷ [] }
{}

/// A reserve for a hundred more entries on a map of two entries leaves them and makes room for 102. If there
/// is enough room, it cannot fail. If it fails, it changes nothing.
pub fn what_a_reserve_leaves<K, V, S, E>()
    ensures enough { (old new : MapState ℕ ℕ S) → old.entries ≡ (1, 10) ∷ (2, 20) ∷ []
        → Reserves {E = E} old new 100 (Ok tt)
        → (new.entries ≡ (1, 10) ∷ (2, 20) ∷ []) × (102 ≤ new.room) }
    ensures refused { (old new : MapState K V S) (n : ℕ) (e : E) → Reserves old new n (Err e) → new ≡ old }
    ensures was_enough { (old new : MapState ℕ ℕ S) (r : Result (Unit {0}) E) → old.entries ≡ (1, 10) ∷ []
        → old.room ≡ 10 → Reserves old new 5 r
        → IsOk r × (new ≡ old) }
{}

/// After a shrink that fails, the entries and the room are as before, but no node is free: an insert of an
/// absent key may fail. No shrink raises the room, and one that succeeds leaves room for the entries only. A
/// shrink without entries cannot fail, and leaves no room.
pub fn what_a_shrink_leaves<K, V, S, E>()
    ensures empty { (old new : MapState K V S) (r : Result (Unit {0}) E) → old.entries
        ≡ [] → Shrinks old new r
        → (new.room ≡ 0) × IsOk r }
    ensures refused { (eq : K → K → Bool) (old new : MapState K V S) (k : K) (e : E)
        → lookup (eq k) old.entries ≡ None → Shrinks old new (Err e)
        → (new.entries ≡ old.entries) × MayRefuse eq new k × (new.room ≡ old.room) }
    ensures no_more_room { (old new : MapState ℕ ℕ S) (r : Result (Unit {0}) E) → old.room
        ≡ 4 → Shrinks old new r
        → new.room ≤ 4 }
    ensures fitted { (old new : MapState ℕ ℕ S) → old.entries ≡ (1, 10) ∷ [] → Shrinks {E = E} old new (Ok tt)
        → new.room ≡ 1 }
{}

/// A removal by key returns the stored pair. A removal of an absent key changes nothing.
pub fn what_a_removal_leaves<S>()
    ensures there { (old new : MapState ℕ ℕ S) (r : Option (ℕ × ℕ)) → old.entries ≡ (1, 10) ∷
        (2, 20) ∷ (3, 30) ∷ []
        → RemovesKey nat_eq old new 2 r
        → (r ≡ Some (2, 20)) × (new.entries ≡ (1, 10) ∷ (3, 30) ∷ []) × (new.spare ≡ old.spare + 1) }
    ensures absent { (old new : MapState ℕ ℕ S) (r : Option (ℕ × ℕ)) → old.entries ≡ (1, 10) ∷ []
        → RemovesKey nat_eq old new 2 r
        → (r ≡ None) × (new ≡ old) }
{}

/// A map made with room for ten entries has no entry. One made with room for none is the empty map.
pub fn what_a_map_is_made_with<K, V, S>()
    ensures some { (s : S) (m : MapState K V S) → IsMadeWith 10 s m
        → (m.entries ≡ []) × (10 ≤ m.room) × (m.hasher ≡ s) }
    ensures none { (s : S) (m : MapState K V S) → IsMadeWith 0 s m → m ≡ empty_map s }
{}

/// Two steps that only remove entries are together such a step, and a removal is one. No such step adds an
/// entry.
pub fn steps_that_take_away<K, V, S>()
    ensures removal { (old new : MapState K V S) (es : List (K × V)) → Removes old new es
        → KeepsOnly old new es }
    ensures two { (a b c : MapState K V S) (es fs : List (K × V)) → KeepsOnly a b es → KeepsOnly b c fs
        → KeepsOnly a c fs }
    ensures no_more { (old new : MapState ℕ ℕ S) → old.entries ≡ (1, 10) ∷ []
        → KeepsOnly old new ((1, 10) ∷ (2, 20) ∷ [])
        → ⊥ }
    ensures fewer { (old new : MapState ℕ ℕ S) → old.entries ≡ (1, 10) ∷ [] → Removes old new
        ((1, 10) ∷ (2, 20) ∷ [])
        → ⊥ }
{}

/// A pop removes the first or the last entry and returns it, as a removal by its key does. On an empty map it
/// changes nothing.
pub fn what_a_pop_leaves<K, V, S>()
    ensures front { (old new : MapState K V S) (e : K × V) → PopsFront old new (Some e)
        → (old.entries ≡ e ∷ new.entries) × (new.spare ≡ old.spare + 1) }
    ensures back { (old new : MapState K V S) (e : K × V) → PopsBack old new (Some e)
        → (old.entries ≡ new.entries ++ e ∷ []) × (new.spare ≡ old.spare + 1) }
    ensures none { (old new : MapState K V S) → PopsFront old new None → new ≡ old }
    ensures first_by_key { (eq : K → K → Bool) → IsEquivalence eq → (e : K × V) (es : List (K × V))
        → without eq (e ∷ es) e.0 ≡ es }
    ensures last_by_key { (eq : K → K → Bool) → IsEquivalence eq → (es : List (K × V)) (e : K × V)
        → IsEntries eq (es ++ e ∷ [])
        → without eq (es ++ e ∷ []) e.0 ≡ es }
{}

/// The number of a map's nodes: an insert of an absent key makes a node only if none is free, a removal keeps
/// the node, and a shrink releases the free ones.
pub fn nodes_after_steps<K, V, S, E>()
    ensures adds { (old new : MapState K V S) (es : List (K × V)) → Adds old new es
        → node_count new ≡ max (node_count old) (length new.entries) }
    ensures puts { (eq : K → K → Bool) (old new : MapState K V S) (k : K) (v : V) (b : ℕ) (w : V)
        → PutsEntry eq old new k v b w
        → node_count new ≡ node_count old }
    ensures removes { (old new : MapState K V S) (es : List (K × V)) → Removes old new es
        → node_count new ≡ node_count old }
    ensures keeps { (old new : MapState K V S) (es : List (K × V)) → KeepsOnly old new es
        → node_count new ≡ node_count old }
    ensures shrinks { (old new : MapState K V S) (r : Result (Unit {0}) E) → Shrinks old new r
        → node_count new ≡ length old.entries }
{}

/// An empty map has room for each of its nodes. A step from a map that has such room leads to one that has.
pub fn room_after_steps<K, V, S, E>()
    ensures empty { (s : S) → HasRoom (empty_map {K = K} {V = V} s) }
    ensures inserts { (eq : K → K → Bool) (old new : MapState K V S) (k : K) (v : V) (b : ℕ)
        (r : Result (Option V) (K × V))
        → Inserts eq old new k v b r → HasRoom old
        → HasRoom new }
    ensures changes { (old new : MapState K V S) (es : List (K × V)) (most : ℕ) → Changes old new es most
        → length es ≤ length old.entries → HasRoom old
        → HasRoom new }
    ensures removes { (old new : MapState K V S) (es : List (K × V)) → Removes old new es
        → HasRoom old → HasRoom new }
    ensures grows { (old new : MapState K V S) (n : ℕ) → Grows n old new → HasRoom old → HasRoom new }
    ensures keeps { (old new : MapState K V S) (es : List (K × V)) → KeepsOnly old new es
        → HasRoom old → HasRoom new }
    ensures reserves { (old new : MapState K V S) (n : ℕ) (r : Result (Unit {0}) E) → Reserves old new n r
        → HasRoom old
        → HasRoom new }
    ensures shrinks { (old new : MapState K V S) (r : Result (Unit {0}) E) → Shrinks old new r → HasRoom new }
{}

/// Each step except a clear and a shrink keeps every node, and makes one only if there are more entries than
/// nodes.
#[tactic(auto, using(crate::proofs::KeptNodes::kept))]
pub fn every_node_is_kept<K, V, S, E>()
    ensures inserts { (old new : MapState K V S) (eq : K → K → Bool) (k : K) (v : V) (b : ℕ)
        (r : Result (Option V) (K × V))
        → Inserts eq old new k v b r
        → KeepsNodes old new }
    ensures replaces { (old new : MapState K V S) (eq : K → K → Bool) (k : K) (v : V)
        (r : Result (Option V) (K × V))
        → Replaces eq old new k v r
        → KeepsNodes old new }
    ensures moves { (old new : MapState K V S) (eq : K → K → Bool) (k : K) (b : ℕ) (r : Option V)
        → Moves eq old new k b r
        → KeepsNodes old new }
    ensures moves_and_writes { (old new : MapState K V S) (eq : K → K → Bool) (k : K) (b : ℕ) (w : V)
        → MovesAndWrites eq old new k b w
        → KeepsNodes old new }
    ensures changes { (old new : MapState K V S) (es : List (K × V)) (most : ℕ) → Changes old new es most
        → length es ≡ length old.entries
        → KeepsNodes old new }
    ensures removes_key { (old new : MapState K V S) (eq : K → K → Bool) (k : K) (r : Option (K × V))
        → RemovesKey eq old new k r
        → KeepsNodes old new }
    ensures pops_front { (old new : MapState K V S) (r : Option (K × V)) → PopsFront old new r
        → KeepsNodes old new }
    ensures pops_back { (old new : MapState K V S) (r : Option (K × V)) → PopsBack old new r
        → KeepsNodes old new }
    ensures keeps_only { (old new : MapState K V S) (es : List (K × V)) → KeepsOnly old new es
        → KeepsNodes old new }
    ensures reserves { (old new : MapState K V S) (n : ℕ) (r : Result (Unit {0}) E) → Reserves old new n r
        → KeepsNodes old new }
{}

/// So only a clear and a shrink make nodes fewer, and a clear leaves the nodes that were free. A map that has
/// at least as many nodes as a longer one has a free node, so no insert into it fails.
pub fn a_map_shorter_than_it_was<K, V, S>()
    ensures never_fall { (old new : MapState K V S) → KeepsNodes old new → node_count old ≤ node_count new }
    ensures cleared { (old new : MapState K V S) → Clears old new → node_count new ≡ old.spare }
    ensures spare { (old new : MapState K V S) → node_count old ≤ node_count new
        → length new.entries < length old.entries
        → 1 ≤ new.spare }
    ensures not_refused { (old new : MapState K V S) (eq : K → K → Bool) (k : K)
        → node_count old ≤ node_count new
        → length new.entries < length old.entries → MayRefuse eq new k
        → ⊥ }
{}
