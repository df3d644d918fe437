//! Examples and laws of caches.
ghost use Rattle.std.specs.Prelude.{◌≡◌, ℕ, ◌+◌, ◌-◌, ◌*◌, ◌≤◌, ◌<◌, Bool, nat_eq};
ghost use Rattle.std.specs.Prelude.{List, [], ◌∷◌, ◌++◌, Option, None, Some, Result, Ok, Err, length, drop};
ghost use Rattle.std.specs.{Cmp.IsEquivalence, Map.lookup};
ghost use Rattle.hashlink_model.specs.Cache.{CacheState, OnMap, IsWithin, HasNodeToSpare, InsertsLast};
ghost use Rattle.hashlink_model.specs.Cache.{CacheInserts, CacheGets, CacheGetsAndWrites, SetsCapacity};
ghost use Rattle.hashlink_model.specs.Cache.{EntersCache, CacheUses, front_evicted, last_entries, cache_put};
ghost use Rattle.hashlink_model.specs.Entries.{IsEntries, put};
ghost use Rattle.hashlink_model.specs.Cache.{cache_get, cache_use, cache_extended};
ghost use Rattle.hashlink_model.specs.MapState.{MapState, StoresAtMost, Changes, node_count};
ghost use Rattle.hashlink_model.specs.Steps.{KeepsOnly, Clears, RemovesKey, PopsFront, PopsBack};
ghost use Rattle.hashlink_model.specs.Entry.{EntryState, VacantInserts};
ghost use Rattle.hashlink_model.specs.Labels as labels;
ghost use Rattle.hashlink_model.specs.Numbers as numbers;

/// A cache of capacity 0 is empty after an insert. An insert through an entry leaves one pair in it.
pub fn a_cache_without_places()
    ensures or_insert { numbers.cache_or_insert [] 0 1 10 ≡ (1, 10) ∷ [] }
    ensures insert { numbers.cache_insert ((1, 10) ∷ []) 0 1 11 ≡ [] }
    ensures insert_another { numbers.cache_insert ((1, 10) ∷ []) 0 2 20 ≡ [] }
    ensures again { numbers.cache_or_insert [] 0 1 12 ≡ (1, 12) ∷ [] }
    ensures entry { front_evicted {K = ℕ} {V = ℕ} ((1, 12) ∷ []) 0 ≡ [] }
{}

/// An entry can bring a cache beyond its capacity by one. The next entry then evicts one pair, at the front.
pub fn an_entry_passes_the_capacity_by_one()
    ensures insert { numbers.cache_insert [] 1 1 10 ≡ (1, 10) ∷ [] }
    ensures or_insert { numbers.cache_or_insert ((1, 10) ∷ []) 1 2 20 ≡ (1, 10) ∷ (2, 20) ∷ [] }
    ensures entry { front_evicted {K = ℕ} {V = ℕ} ((1, 10) ∷ (2, 20) ∷ []) 1 ≡ (2, 20) ∷ [] }
    ensures two_too_many { front_evicted {K = ℕ} {V = ℕ} ((1, 10) ∷ (3, 30) ∷ (2, 20) ∷ []) 1
        ≡ (3, 30) ∷ (2, 20) ∷ [] }
{}

/// An insert into a cache that exceeds its capacity, by one or by more, leaves only as many pairs as the
/// capacity, the last ones, even if the key is present.
pub fn an_insert_drops_all_that_are_too_many()
    ensures one { numbers.cache_insert ((1, 10) ∷ (2, 20) ∷ []) 1 3 30 ≡ (3, 30) ∷ [] }
    ensures two { numbers.cache_insert ((1, 10) ∷ (3, 30) ∷ (2, 20) ∷ []) 1 4 40 ≡ (4, 40) ∷ [] }
    ensures there { numbers.cache_insert ((1, 10) ∷ (3, 30) ∷ (2, 20) ∷ []) 1 1 11 ≡ (1, 11) ∷ [] }
    ensures use_step { numbers.cache_use ((1, 10) ∷ (2, 20) ∷ (3, 30) ∷ []) 2 4 40 ≡ (3, 30) ∷ (4, 40) ∷ [] }
    ensures hit { numbers.cache_use ((1, 10) ∷ (2, 20) ∷ (3, 30) ∷ []) 2 1 40 ≡ (2, 20) ∷
        (3, 30) ∷ (1, 10) ∷ [] }
    ensures extended { cache_extended {V = ℕ} nat_eq ((1, 10) ∷ (2, 20) ∷ (3, 30) ∷ []) 1 ((4, 40) ∷ [])
        ≡ (4, 40) ∷ [] }
{}

/// A hit moves its entry to the back, so an insert evicts the least recently used one. A smaller capacity
/// keeps the last pairs.
pub fn a_hit_is_kept()
    ensures hit { numbers.cache_get ((1, 10) ∷ (2, 20) ∷ []) 1 ≡ (2, 20) ∷ (1, 10) ∷ [] }
    ensures insert { numbers.cache_insert ((2, 20) ∷ (1, 10) ∷ []) 2 3 30 ≡ (1, 10) ∷ (3, 30) ∷ [] }
    ensures set_capacity { numbers.last_entries ((1, 10) ∷ (3, 30) ∷ []) 1 ≡ (3, 30) ∷ [] }
    ensures last_five { numbers.last_entries ((6, 60) ∷ (7, 70) ∷ (8, 80) ∷ []) 5 ≡ (6, 60) ∷
        (7, 70) ∷ (8, 80) ∷ [] }
{}

/// Inserts of 5 and 6 into a full cache of capacity 4, and six more pairs inserted through entries.
pub fn entries_leave_one_more_than_the_capacity()
    ensures inserts { cache_extended {V = ℕ} nat_eq ((1, 10) ∷ (2, 20) ∷ (3, 30) ∷ (4, 40) ∷ []) 4
        ((5, 50) ∷ (6, 60) ∷ [])
        ≡ (3, 30) ∷ (4, 40) ∷ (5, 50) ∷ (6, 60) ∷ [] }
    ensures three { numbers.cache_or_inserts ((3, 30) ∷ (4, 40) ∷ (5, 50) ∷ (6, 60) ∷ []) 4
        ((7, 70) ∷ (8, 80) ∷ (9, 90) ∷ [])
        ≡ (5, 50) ∷ (6, 60) ∷ (7, 70) ∷ (8, 80) ∷ (9, 90) ∷ [] }
    ensures six { numbers.cache_or_inserts ((5, 50) ∷ (6, 60) ∷ (7, 70) ∷ (8, 80) ∷ (9, 90) ∷ []) 4
        ((10, 100) ∷ (11, 110) ∷ (12, 120) ∷ [])
        ≡ (8, 80) ∷ (9, 90) ∷ (10, 100) ∷ (11, 110) ∷ (12, 120) ∷ [] }
{}

/// Four pairs extend a cache of capacity 2. Each is inserted in turn, so a present one moves to the back, and
/// the least recently used ones are evicted.
pub fn an_extend_inserts_in_turn()
    ensures two { cache_extended {V = ℕ} nat_eq ((1, 10) ∷ (2, 20) ∷ []) 2
        ((3, 30) ∷ (2, 21) ∷ (4, 40) ∷ (2, 22) ∷ [])
        ≡ (4, 40) ∷ (2, 22) ∷ [] }
    ensures none { cache_extended {V = ℕ} nat_eq ((1, 10) ∷ []) 0 ((1, 11) ∷ []) ≡ [] }
{}

/// Uses of 1, 2, 1, 3 in a cache of capacity 2 leave 1 and 3. With capacity 0 nothing is left.
pub fn uses_in_a_row()
    ensures two { numbers.cache_uses 2 ((1, 10) ∷ (2, 20) ∷ (1, 30) ∷ (3, 40) ∷ []) ≡ (1, 10) ∷ (3, 40) ∷ [] }
    ensures none { numbers.cache_uses 0 ((1, 10) ∷ (1, 10) ∷ []) ≡ [] }
    ensures three { numbers.cache_uses 3 ((1, 10) ∷ (2, 20) ∷ (3, 30) ∷ (4, 40) ∷ (1, 11) ∷
        (2, 21) ∷ (5, 50) ∷ []) ≡ (1, 11) ∷ (2, 21) ∷ (5, 50) ∷ [] }
    ensures four { numbers.cache_uses 4 ((1, 10) ∷ (2, 20) ∷ (3, 30) ∷ (4, 40) ∷ (1, 11) ∷
        (2, 21) ∷ (5, 50) ∷ []) ≡ (4, 40) ∷ (1, 10) ∷ (2, 20) ∷ (5, 50) ∷ [] }
{}

/// Two caches, of capacity 1 and 2, with equal keys that are different objects: an end up to equality.
pub fn an_end_up_to_equality()
    ensures small { labels.cache_insert (labels.cache_insert (labels.cache_insert [] 1 (7, 1) 1) 1 (8, 1) 2) 1
        (7, 2) 3
        ≡ ((7, 2), 3) ∷ [] }
    ensures large { labels.cache_insert (labels.cache_insert (labels.cache_insert [] 2 (7, 1) 1) 2 (8, 1) 2) 2
        (7, 2) 3
        ≡ ((8, 1), 2) ∷ ((7, 1), 3) ∷ [] }
{}

/// A removal from both caches leaves the smaller one an end of the larger one.
pub fn a_removal_from_both_caches()
    ensures small { numbers.remove (numbers.cache_insert (numbers.cache_insert [] 1 1 10) 1 2 20) 2 ≡ [] }
    ensures large { numbers.remove (numbers.cache_insert (numbers.cache_insert [] 2 1 10) 2 2 20) 2
        ≡ (1, 10) ∷ [] }
    ensures small_again { numbers.cache_insert [] 1 1 11 ≡ (1, 11) ∷ [] }
    ensures large_again { numbers.cache_insert ((1, 10) ∷ []) 2 1 11 ≡ (1, 11) ∷ [] }
{}

/// After an insert, a cache has at most its capacity of entries, however many it had before. If it had fewer
/// than its capacity, no entry is evicted. Its keys are pairwise unequal.
pub fn an_insert_comes_within_the_capacity<K, V>()
    ensures at_most { (eq : K → K → Bool) (es : List (K × V)) (cap : ℕ) (k : K) (v : V)
        → length (cache_put eq es cap k v) ≤ cap }
    ensures with_a_place { (eq : K → K → Bool) (es : List (K × V)) (cap : ℕ) (k : K) (v : V) → length es < cap
        → cache_put eq es cap k v ≡ put eq es k v (length es) }
    ensures one_too_many { (eq : K → K → Bool) (es : List (K × V)) (cap : ℕ) (k : K) (v : V) → length es ≤ cap
        → cache_put eq es cap k v ≡ front_evicted (put eq es k v (length es)) cap }
    ensures keys { (eq : K → K → Bool) → IsEquivalence eq → (es : List (K × V)) (cap : ℕ) (k : K) (v : V)
        → IsEntries eq es
        → IsEntries eq (cache_put eq es cap k v) }
    ensures drops { (eq : K → K → Bool) (es : List (K × V)) (n : ℕ) → IsEntries eq es
        → IsEntries eq (drop n es) }
{}

/// Pairs that extend a cache may be given in two parts. A cache with at most n entries, for an n that is at
/// least its capacity, has at most n afterwards.
pub fn a_cache_extended_in_two_parts<K, V>()
    ensures parts { (eq : K → K → Bool) (es : List (K × V)) (cap : ℕ) (xs ys : List (K × V))
        → cache_extended eq es cap (xs ++ ys) ≡ cache_extended eq (cache_extended eq es cap xs) cap ys }
    ensures at_most { (eq : K → K → Bool) (es : List (K × V)) (cap n : ℕ) (pairs : List (K × V)) → cap ≤ n
        → length es ≤ n
        → length (cache_extended eq es cap pairs) ≤ n }
{}

/// A cache with at most n entries beyond its capacity stays so under each call that is made of these steps.
/// After its capacity is set, and after an insert that succeeds, it has none beyond it.
pub fn a_bound_beyond_the_capacity_is_kept<K, V, S>()
    ensures insert { (old new : CacheState K V S) (n : ℕ) (eq : K → K → Bool) (k : K) (v : V)
        (r : Result (Option V) (K × V))
        → CacheInserts eq old new k v r → IsWithin old n
        → IsWithin new n }
    ensures inserted { (old new : CacheState K V S) (eq : K → K → Bool) (k : K) (v : V) (w : Option V)
        → CacheInserts eq old new k v (Ok w)
        → IsWithin new 0 }
    ensures get { (old new : CacheState K V S) (n : ℕ) (eq : K → K → Bool) (k : K) (r : Option V)
        → CacheGets eq old new k r → IsWithin old n
        → IsWithin new n }
    ensures get_mut { (old new : CacheState K V S) (n : ℕ) (eq : K → K → Bool) (k : K) (w : V)
        → CacheGetsAndWrites eq old new k w → IsWithin old n
        → IsWithin new n }
    ensures remove { (old new : CacheState K V S) (n : ℕ) (eq : K → K → Bool) (k : K) (r : Option (K × V))
        → OnMap (λ a b. RemovesKey eq a b k r) old new → IsWithin old n
        → IsWithin new n }
    ensures pop_front { (old new : CacheState K V S) (n : ℕ) (r : Option (K × V))
        → OnMap (λ a b. PopsFront a b r) old new → IsWithin old n
        → IsWithin new n }
    ensures pop_back { (old new : CacheState K V S) (n : ℕ) (r : Option (K × V))
        → OnMap (λ a b. PopsBack a b r) old new → IsWithin old n
        → IsWithin new n }
    ensures change { (old new : CacheState K V S) (n : ℕ) (es : List (K × V)) (most : ℕ)
        → OnMap (λ a b. Changes a b es most) old new → length es ≡ length old.map.entries → IsWithin old n
        → IsWithin new n }
    ensures keeps_only { (old new : CacheState K V S) (n : ℕ) (es : List (K × V))
        → OnMap (λ a b. KeepsOnly a b es) old new → IsWithin old n
        → IsWithin new n }
    ensures clear { (old new : CacheState K V S) (n : ℕ) → OnMap Clears old new
        → IsWithin old n → IsWithin new n }
    ensures set_capacity { (old new : CacheState K V S) (n cap : ℕ) → SetsCapacity old new cap
        → IsWithin new 0 }
    ensures use_step { (eq : K → K → Bool) (es : List (K × V)) (cap n : ℕ) (k : K) (v : V)
        → cap ≤ n → length es ≤ n
        → length (cache_use eq es cap k v) ≤ n }
{}

/// An entry of a cache first evicts the front if there are more entries than the capacity. So one insert
/// through it stays within a bound above the capacity. If an entry was evicted, its node is free, and this
/// insert cannot fail.
pub fn what_an_entry_of_a_cache_lets_in<K, V, S, A>()
    ensures entered { (eq : K → K → Bool) (old : CacheState K V S) (k : K) (e : EntryState K V S)
        → EntersCache eq old k e → (n : ℕ) → IsWithin old n
        → length e.map.entries ≤ old.cap + n }
    ensures inserted { (eq : K → K → Bool) (old : CacheState K V S) (k : K) (e : EntryState K V S)
        → EntersCache eq old k e → (new : MapState K V S) (n : ℕ) (v : V) (r : Result A (K × V))
        → VacantInserts eq e.map new k v r → IsWithin old (n + 1)
        → length new.entries ≤ old.cap + (n + 1) }
    ensures not_refused { (eq : K → K → Bool) (old : CacheState K V S) (k : K) (e : EntryState K V S)
        → EntersCache eq old k e → (new : MapState K V S) (v : V) (pair : K × V) → old.cap
        < length old.map.entries
        → VacantInserts eq {A = A} e.map new k v (Err pair)
        → ⊥ }
    ensures row { (old : CacheState ℕ ℕ S) (e : EntryState ℕ ℕ S) → old.cap ≡ 1
        → old.map.entries ≡ (1, 10) ∷ (2, 20) ∷ [] → EntersCache nat_eq old 1 e
        → (e.map.entries ≡ (2, 20) ∷ []) × (e.place ≡ None) × (e.key ≡ 1) }
{}

/// The most links that an insert stores: four if the key is absent and six if it is present, and three for
/// each entry that it evicts. So at most seven or nine if it evicts one entry, and four for an absent key if
/// it evicts none.
pub fn links_of_a_cache_insert<K, V, S>()
    ensures new_key { (eq : K → K → Bool) (old new : CacheState K V S) (k : K) (v : V)
        → CacheInserts eq old new k v (Ok None)
        → StoresAtMost (4 + 3 * (length old.map.entries + 1 - old.cap)) old.map.link_writes
        new.map.link_writes }
    ensures there { (eq : K → K → Bool) (old new : CacheState K V S) (k : K) (v w : V)
        → CacheInserts eq old new k v (Ok (Some w))
        → StoresAtMost (6 + 3 * (length old.map.entries - old.cap)) old.map.link_writes new.map.link_writes }
    ensures new_key_drops_one { (eq : K → K → Bool) (old new : CacheState K V S) (k : K) (v : V)
        → CacheInserts eq old new k v (Ok None) → IsWithin old 0
        → StoresAtMost 7 old.map.link_writes new.map.link_writes }
    ensures there_drops_one { (eq : K → K → Bool) (old new : CacheState K V S) (k : K) (v w : V)
        → CacheInserts eq old new k v (Ok (Some w)) → IsWithin old 1
        → StoresAtMost 9 old.map.link_writes new.map.link_writes }
    ensures with_a_place { (eq : K → K → Bool) (old new : CacheState K V S) (k : K) (v : V)
        → CacheInserts eq old new k v (Ok None) → length old.map.entries < old.cap
        → StoresAtMost 4 old.map.link_writes new.map.link_writes }
    ensures new_key_then_kept { (eq : K → K → Bool) (a b c : MapState K V S) (k : K)
        (v : V) (es : List (K × V))
        → KeepsOnly b c es → InsertsLast eq k v None a b
        → StoresAtMost (4 + 3 * (length b.entries - length es)) a.link_writes c.link_writes }
    ensures there_then_kept { (eq : K → K → Bool) (a b c : MapState K V S) (k : K) (v : V) (es : List (K × V))
        → KeepsOnly b c es → (w : V) → InsertsLast eq k v (Some w) a b
        → StoresAtMost (6 + 3 * (length b.entries - length es)) a.link_writes c.link_writes }
    ensures set_capacity { (old new : CacheState K V S) (n : ℕ) → SetsCapacity old new n
        → StoresAtMost (3 * (length old.map.entries - n)) old.map.link_writes new.map.link_writes }
{}

/// An insert that evicts an entry leaves more nodes than the capacity, at least one of which is free. This
/// stays so, and no insert fails, as long as only inserts lengthen the cache and no node is freed.
pub fn no_refusal_once_an_entry_was_dropped<K, V, S>()
    ensures dropped { (old new : CacheState K V S) (eq : K → K → Bool) (k : K) (v : V) (w : Option V)
        → CacheInserts eq old new k v (Ok w) → old.cap
        < length (put eq old.map.entries k v (length old.map.entries))
        → HasNodeToSpare new }
    ensures not_refused { (old new : CacheState K V S) (eq : K → K → Bool) (k : K) (v : V) (pair : K × V)
        → HasNodeToSpare old → CacheInserts eq old new k v (Err pair)
        → ⊥ }
    ensures insert { (old new : CacheState K V S) (eq : K → K → Bool) (k : K) (v : V)
        (r : Result (Option V) (K × V))
        → CacheInserts eq old new k v r → HasNodeToSpare old
        → HasNodeToSpare new }
    ensures others { (old new : CacheState K V S) → new.cap ≡ old.cap → node_count old.map
        ≤ node_count new.map
        → length new.map.entries ≤ length old.map.entries → HasNodeToSpare old
        → HasNodeToSpare new }
{}

/// A use returns the old value of its key, and leaves what a hit or an insert leaves.
pub fn what_a_use_leaves<K, V, S>()
    ensures entries { (eq : K → K → Bool) (old new : CacheState K V S) (k : K) (v : V) (w : Option V)
        → CacheUses eq old new k v (Ok w)
        → (w ≡ lookup (eq k) old.map.entries) × (new.map.entries ≡ cache_use eq old.map.entries old.cap k v) }
    ensures row { (old new : CacheState ℕ ℕ S) (w : Option ℕ) → old.cap ≡ 1 → old.map.entries ≡ (2, 20) ∷ []
        → CacheUses nat_eq old new 1 30 (Ok w)
        → (w ≡ None) × (new.map.entries ≡ (1, 30) ∷ []) }
{}
