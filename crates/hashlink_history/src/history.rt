//! Worked examples and theorems of histories.
ghost use Rattle.std.specs.Prelude.{◌≡◌, ℕ, ◌+◌, ◌-◌, ◌*◌, ◌≤◌, max, Bool, ◌&&◌, Some, None, Result, List};
ghost use Rattle.std.specs.{Prelude.{[], ◌∷◌, ◌++◌, length, is_some, nat_eq, nat_lt}, Cmp.IsEquivalence};
ghost use Rattle.std.specs.{Map.{keys_of, lookup}, Set.is_member};
ghost use Rattle.hashlink_model.specs.{Cache.{cache_put, cache_use, missed_uses}, Entries.IsEntries};
ghost use Rattle.hashlink_history.specs.CacheRuns.{CacheEvent, Insert, Use, Remove, Peek, key_of, NoUse};
ghost use Rattle.hashlink_history.specs.CacheRuns.{NoRemoval, used_keys, answer_to, after_events, answers};
ghost use Rattle.hashlink_history.specs.History.{reuse_distance, HoldsRecent, Schedule, misses, cache_misses};
ghost use Rattle.hashlink_history.specs.Numbers as numbers;

/// Other keys since the last use, each counted once.
pub fn others_are_counted_once()
    ensures repeats { numbers.reuse_distance (1 ∷ 2 ∷ 3 ∷ 2 ∷ 3 ∷ 2 ∷ []) 1 ≡ 2 }
    ensures since_the_last { numbers.reuse_distance (1 ∷ 2 ∷ 3 ∷ 1 ∷ 4 ∷ []) 1 ≡ 1 }
    ensures just_used { numbers.reuse_distance (1 ∷ 2 ∷ []) 2 ≡ 0 }
{}

/// A schedule of capacity 2 for the keys 1, 2, 3, 1, 2, 3 that misses four times. A schedule that always
/// evicts the least recently used key misses all six.
pub fn a_schedule_that_misses_four_times()
    ensures schedule { Schedule nat_eq 2 (1 ∷ 2 ∷ 3 ∷ 1 ∷ 2 ∷ 3 ∷ [])
        ((1 ∷ []) ∷ (1 ∷ 2 ∷ []) ∷ (1 ∷ 3 ∷ []) ∷ (1 ∷ 3 ∷ []) ∷ (2 ∷ 3 ∷ []) ∷ (2 ∷ 3 ∷ []) ∷ []) }
    ensures misses { numbers.misses (1 ∷ 2 ∷ 3 ∷ 1 ∷ 2 ∷ 3 ∷ [])
        ((1 ∷ []) ∷ (1 ∷ 2 ∷ []) ∷ (1 ∷ 3 ∷ []) ∷ (1 ∷ 3 ∷ []) ∷ (2 ∷ 3 ∷ []) ∷ (2 ∷ 3 ∷ []) ∷ [])
        ≡ 4 }
    ensures oldest_dropped { numbers.misses (1 ∷ 2 ∷ 3 ∷ 1 ∷ 2 ∷ 3 ∷ [])
        ((1 ∷ []) ∷ (1 ∷ 2 ∷ []) ∷ (2 ∷ 3 ∷ []) ∷ (3 ∷ 1 ∷ []) ∷ (1 ∷ 2 ∷ []) ∷ (2 ∷ 3 ∷ []) ∷ [])
        ≡ 6 }
{}

/// A cache of capacity 2 misses all six of the keys 1, 2, 3, 1, 2, 3, and the first three of 1, 2, 3, 2, 3,
/// 2, 3.
pub fn how_often_a_cache_misses()
    ensures in_turn { numbers.cache_misses 2 (1 ∷ 2 ∷ 3 ∷ 1 ∷ 2 ∷ 3 ∷ []) ≡ 6 }
    ensures two_of_three { numbers.cache_misses 2 (1 ∷ 2 ∷ 3 ∷ 2 ∷ 3 ∷ 2 ∷ 3 ∷ []) ≡ 3 }
    ensures uses { numbers.missed_uses 2 [] ((1, 10) ∷ (2, 20) ∷ (3, 30) ∷ (1, 11) ∷ (2, 21) ∷ (3, 31) ∷ [])
        ≡ 6 }
{}

/// A cache of capacity c that gets inserts and uses holds the last c used keys, each once, up to equality and
/// in the order of their last uses.
pub fn a_cache_holds_the_recent_keys<K, V>()
    ensures start { (eq : K → K → Bool) (c : ℕ) → HoldsRecent eq {V = V} c [] [] }
    ensures insert { (eq : K → K → Bool) → IsEquivalence eq
        → (c : ℕ) (used : List K) (es : List (K × V)) (k : K) (v : V) → HoldsRecent eq c used es
        → HoldsRecent eq c (used ++ k ∷ []) (cache_put eq es c k v) }
    ensures use_step { (eq : K → K → Bool) → IsEquivalence eq
        → (c : ℕ) (used : List K) (es : List (K × V)) (k : K) (v : V) → HoldsRecent eq c used es
        → HoldsRecent eq c (used ++ k ∷ []) (cache_use eq es c k v) }
{}

/// Such a cache holds a key exactly if it was used and fewer than c others were used since.
pub fn a_key_is_held_while_few_others_are_used<K, V>()
    ensures { (eq : K → K → Bool) → IsEquivalence eq → (c : ℕ) (used : List K) (es : List (K × V)) (k : K)
        → HoldsRecent eq c used es
        → is_some (lookup (eq k) es) ≡ (is_member eq used k && nat_lt (reuse_distance eq used k) c) }
{}

/// The uses that a cache misses follow from its history, which has only the keys.
pub fn missed_uses_by_history<K, V>()
    ensures { (eq : K → K → Bool) → IsEquivalence eq → (c : ℕ) (pairs : List (K × V))
        → missed_uses eq c [] pairs ≡ cache_misses eq c (keys_of pairs) }
{}

/// No replacement policy of capacity h, even one that knows the future, misses less than `(c - h + 1) / c`
/// times as often as the cache of capacity c.
pub fn no_schedule_beats_the_cache_by_more<K>()
    ensures { (eq : K → K → Bool) → IsEquivalence eq → (c h : ℕ) → 1 ≤ h → h ≤ c
        → (used : List K) (held : List (List K)) → Schedule eq h used held
        → (c - h + 1) * cache_misses eq c used ≤ c * misses eq used held }
{}

/// Calls of caches of capacities 1 and 2: what each call returns, and what the caches hold afterwards. A
/// removed key returns only by an insert.
pub fn calls_of_caches_in_a_row()
    ensures small { numbers.answers 1 (Insert 1 10 ∷ Insert 2 20 ∷ Remove 2 ∷ Peek 1 ∷ Insert 1 11 ∷ [])
        ≡ None ∷ None ∷ Some 20 ∷ None ∷ None ∷ [] }
    ensures large { numbers.answers 2 (Insert 1 10 ∷ Insert 2 20 ∷ Remove 2 ∷ Peek 1 ∷ Insert 1 11 ∷ [])
        ≡ None ∷ None ∷ Some 20 ∷ Some 10 ∷ Some 10 ∷ [] }
    ensures held { numbers.after_events 2 (Insert 1 10 ∷ Insert 2 20 ∷ Remove 2 ∷ Peek 1 ∷ Insert 1 11 ∷ [])
        ≡ (1, 11) ∷ [] }
    ensures used { used_keys {K = ℕ} {V = ℕ} (Insert 1 10 ∷ Use 2 20 ∷ Remove 2 ∷ Peek 1 ∷ Use 1 11 ∷ [])
        ≡ 1 ∷ 2 ∷ 1 ∷ [] }
    ensures peeks { numbers.after_events 2 (Insert 1 10 ∷ Insert 2 20 ∷ Peek 1 ∷ Insert 3 30 ∷ [])
        ≡ (2, 20) ∷ (3, 30) ∷ [] }
    ensures without_uses { NoUse {K = ℕ} {V = ℕ} (Insert 1 10 ∷ Remove 1 ∷ Peek 1 ∷ []) }
    ensures without_removals { NoRemoval {K = ℕ} {V = ℕ} (Insert 1 10 ∷ Use 1 11 ∷ Peek 1 ∷ []) }
    ensures uses { numbers.answers 1 (Insert 1 10 ∷ Use 1 11 ∷ Use 2 20 ∷ Peek 1 ∷ Peek 2 ∷ [])
        ≡ None ∷ Some 10 ∷ None ∷ None ∷ Some 20 ∷ [] }
{}

/// Calls may be split into two parts, keep the keys pairwise unequal, and never exceed the capacity.
pub fn calls_in_two_parts<K, V>()
    ensures held { (eq : K → K → Bool) (c : ℕ) (es : List (K × V)) (xs ys : List (CacheEvent K V))
        → after_events eq c es (xs ++ ys) ≡ after_events eq c (after_events eq c es xs) ys }
    ensures answers { (eq : K → K → Bool) (c : ℕ) (es : List (K × V)) (xs ys : List (CacheEvent K V))
        → answers eq c es (xs ++ ys) ≡ answers eq c es xs ++ answers eq c (after_events eq c es xs) ys }
    ensures keys { (eq : K → K → Bool) → IsEquivalence eq
        → (c : ℕ) (es : List (K × V)) (events : List (CacheEvent K V)) → IsEntries eq es
        → IsEntries eq (after_events eq c es events) }
    ensures within { (eq : K → K → Bool) (es : List (K × V)) (c n : ℕ)
        (events : List (CacheEvent K V)) → c ≤ n
        → length es ≤ n
        → length (after_events eq c es events) ≤ n }
{}

/// Without removals a cache holds, after any calls, the last c used keys. A call finds a value exactly if its
/// key was used before and fewer than c others were used since.
pub fn calls_by_their_history<K, V>()
    ensures held { (eq : K → K → Bool) → IsEquivalence eq → (c : ℕ) (events : List (CacheEvent K V))
        → NoRemoval events
        → HoldsRecent eq c (used_keys events) (after_events eq c [] events) }
    ensures answer { (eq : K → K → Bool) → IsEquivalence eq
        → (c : ℕ) (before : List (CacheEvent K V)) (e : CacheEvent K V) → NoRemoval before
        → is_some (answer_to eq (after_events eq c [] before) e)
        ≡ (is_member eq (used_keys before) (key_of e) && nat_lt
        (reuse_distance eq (used_keys before) (key_of e)) c) }
{}
