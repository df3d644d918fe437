//! Worked examples and theorems of the nodes that a run needs at most.
ghost use Rattle.std.specs.Prelude.{◌≡◌, ℕ, ◌+◌, ◌≤◌, max, Bool, Option, Result, Ok, List, [], ◌∷◌, ◌++◌};
ghost use Rattle.std.specs.Prelude.{length};
ghost use Rattle.hashlink_model.specs.{Cache.{CacheState, CacheInserts}, Entries.put};
ghost use Rattle.hashlink_model.specs.{MapState.{MapState, node_count, KeepsNodes}, Steps.{Clears, Shrinks}};
ghost use Rattle.hashlink_history.specs.Peak.{Passed, Length, Shrunk, peak, PassesInTurn, Passes};

/// The most nodes that a run needs. A shrink starts this anew.
pub fn a_shrink_starts_the_peak_anew()
    ensures passed { peak 0 (Length 1 ∷ Length 2 ∷ Length 1 ∷ Length 2 ∷ []) ≡ 2 }
    ensures shrunk { peak 0 (Length 4 ∷ Length 1 ∷ Shrunk 1 ∷ Length 2 ∷ []) ≡ 2 }
    ensures from_five { peak 5 (Length 1 ∷ Length 2 ∷ []) ≡ 5 }
    ensures from_five_shrunk { peak 5 (Length 1 ∷ Shrunk 1 ∷ Length 3 ∷ []) ≡ 3 }
{}

/// A length that a run passes raises the peak to it, and a shrink sets the peak to the length there.
pub fn the_peak_grows_with_the_run()
    ensures length { (n m : ℕ) (passed : List Passed) → peak n (passed ++ Length m ∷ [])
        ≡ max (peak n passed) m }
    ensures shrink { (n m : ℕ) (passed : List Passed) → peak n (passed ++ Shrunk m ∷ []) ≡ m }
{}

/// Each step passes the length to which it leads, or is a shrink at its length. Along several steps a map
/// never has more nodes than their peak.
pub fn nodes_stay_within_the_peak<K, V, S, E>()
    ensures kept { (old new : MapState K V S) → KeepsNodes old new → Passes old
        (Length (length new.entries)) new }
    ensures cleared { (old new : MapState K V S) → Clears old new → Passes old (Length 0) new }
    ensures shrunk { (old new : MapState K V S) (r : Result (Unit {0}) E) → Shrinks old new r
        → Passes old (Shrunk (length new.entries)) new }
    ensures in_turn { (old new : MapState K V S) (passed : List Passed) → PassesInTurn old passed new
        → node_count new ≤ peak (node_count old) passed }
    ensures parts { (a b c : MapState K V S) (ps qs : List Passed) → PassesInTurn a ps b → PassesInTurn b qs c
        → PassesInTurn a (ps ++ qs) c }
    ensures row { (old new : MapState ℕ ℕ S) → node_count old ≡ 4
        → PassesInTurn old (Length 5 ∷ Shrunk 1 ∷ Length 2 ∷ Length 0 ∷ []) new
        → node_count new ≤ 2 }
{}

/// An insert that succeeds passes two lengths: that after the map's insert, and that after the evictions.
pub fn lengths_that_a_cache_insert_passes<K, V, S>()
    ensures { (eq : K → K → Bool) (old new : CacheState K V S) (k : K) (v : V) (w : Option V)
        → CacheInserts eq old new k v (Ok w)
        → PassesInTurn old.map
        (Length (length (put eq old.map.entries k v (length old.map.entries))) ∷ Length
        (length new.map.entries) ∷ [])
        new.map }
{}
