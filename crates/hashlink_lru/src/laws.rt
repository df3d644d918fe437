//! What many items leave in a cache, and what an insert evicts. The functions have empty bodies: their
//! contracts are the theorems.
ghost use Rattle.std.specs.Prelude.{◌≡◌, ℕ, ◌+◌, ◌<◌, ◌≤◌, Bool, List, [], ◌∷◌, ◌++◌, length, Option, None};
ghost use Rattle.std.specs.{Prelude.{Some, Result, Ok, Err}, Map.lookup};
ghost use Rattle.hashlink_model.specs.Cache.{CacheInserts, CacheState, EvictsFront, IsWithin, cache_extended};
ghost use Rattle.hashlink_model.specs.{Entries.put, Entry.VacantInserts, Many.{AcceptsAll, StopsAt}};
ghost use Rattle.hashlink_model.specs.MapState.{MapState};
ghost use Rattle.hashlink_map.specs.EntryLends.{PutsLast};
ghost use Rattle.hashlink_lru.specs.{Cached.InsertsPairIn, Evicted.{evicted_by, Pushes}};

/// Items that are inserted one after another leave the entries that an insert for each leaves, at the same
/// capacity. The same holds for the items before one that is not inserted because memory runs out. A cache of
/// at most n entries beyond its capacity stays so. Once an item is inserted, no entry is beyond the capacity,
/// however many were.
pub fn what_many_items_leave<K, V, S>()
    ensures entries { (eq : K → K → Bool) (old new : CacheState K V S) (items : List (K × V))
        → AcceptsAll (InsertsPairIn eq) old items new
        → new.map.entries ≡ cache_extended eq old.map.entries old.cap items }
    ensures capacity { (eq : K → K → Bool) (old new : CacheState K V S) (items : List (K × V))
        → AcceptsAll (InsertsPairIn eq) old items new
        → new.cap ≡ old.cap }
    ensures stopped { (eq : K → K → Bool) (old new : CacheState K V S) (items : List (K × V)) (taken : ℕ)
        (back : K × V) (left : List (K × V)) (s : StopsAt (InsertsPairIn eq) old items new taken back left)
        → (new.map.entries ≡ cache_extended eq old.map.entries old.cap s.before) × (back ≡ s.item) }
    ensures within { (eq : K → K → Bool) (old new : CacheState K V S) (items : List (K × V)) (n : ℕ)
        → AcceptsAll (InsertsPairIn eq) old items new → IsWithin old n
        → IsWithin new n }
    ensures fits { (eq : K → K → Bool) (old new : CacheState K V S) (item : K × V) (items : List (K × V))
        → AcceptsAll (InsertsPairIn eq) old (item ∷ items) new
        → IsWithin new 0 }
{}

/// An insert that succeeds first evicts the entry that `evicted_by` names, and a push of an absent key
/// returns that entry. In a cache within its capacity it is the only one that leaves. If `evicted_by` names
/// none, an insert into a cache of a capacity above 0 evicts none.
pub fn what_an_insert_evicts<K, V, S>()
    ensures first { (eq : K → K → Bool) (old new : CacheState K V S) (k : K) (v : V) (w : Option V)
        (e : K × V) → CacheInserts eq old new k v (Ok w) → evicted_by (eq k) old.map.entries old.cap ≡ Some e
        → (others : List (K × V)) × (put eq old.map.entries k v (length old.map.entries)
        ≡ e ∷ others ++ new.map.entries) }
    ensures alone { (eq : K → K → Bool) (old new : CacheState K V S) (k : K) (v : V) (w : Option V)
        (e : K × V) → CacheInserts eq old new k v (Ok w) → evicted_by (eq k) old.map.entries old.cap ≡ Some e
        → IsWithin old 0
        → old.map.entries ++ (k, v) ∷ [] ≡ e ∷ new.map.entries }
    ensures none { (eq : K → K → Bool) (old new : CacheState K V S) (k : K) (v : V) (w : Option V)
        → CacheInserts eq old new k v (Ok w) → evicted_by (eq k) old.map.entries old.cap ≡ None
        → 1 ≤ old.cap
        → new.map.entries ≡ put eq old.map.entries k v (length old.map.entries) }
    ensures pushed { (eq : K → K → Bool) (old new : CacheState K V S) (k : K) (v : V) (out : Option (K × V))
        (e : K × V) → Pushes eq old new k v (Ok out)
        → evicted_by (eq k) old.map.entries old.cap ≡ Some e
        → lookup (eq k) old.map.entries ≡ None
        → out ≡ Some e }
{}

/// A raw entry of a cache first evicts the front if there are more entries than the capacity. So one insert
/// through it stays within a bound above the capacity, whether its key is absent or present. If an entry was
/// evicted, its node is free, and the insert of an absent key cannot fail.
pub fn what_a_raw_entry_of_a_cache_lets_in<K, V, S, A>()
    ensures found { (old : CacheState K V S) (roomy : MapState K V S) → EvictsFront old.map roomy old.cap
        → (n : ℕ) → IsWithin old n
        → length roomy.entries ≤ old.cap + n }
    ensures inserted { (eq : K → K → Bool) (old : CacheState K V S) (roomy : MapState K V S)
        → EvictsFront old.map roomy old.cap → (new : MapState K V S) (n : ℕ) (k : K) (v : V)
        (r : Result A (K × V))
        → VacantInserts eq roomy new k v r → IsWithin old (n + 1)
        → length new.entries ≤ old.cap + (n + 1) }
    ensures put { (eq : K → K → Bool) (old : CacheState K V S) (roomy : MapState K V S)
        → EvictsFront old.map roomy old.cap → (new : MapState K V S) (n : ℕ) (k : K) (v : V)
        → PutsLast eq roomy new k v → IsWithin old (n + 1)
        → length new.entries ≤ old.cap + (n + 1) }
    ensures not_refused { (eq : K → K → Bool) (old : CacheState K V S) (roomy : MapState K V S)
        → EvictsFront old.map roomy old.cap → (new : MapState K V S) (k : K) (v : V) (pair : K × V) → old.cap
        < length old.map.entries
        → VacantInserts eq {A = A} roomy new k v (Err pair)
        → ⊥ }
{}
