//! Theorems on two caches, of which one is no larger than the other, that get the same steps.
ghost use Rattle.std.specs.{Prelude.{◌≡◌, ℕ, ◌≤◌, Bool, true, List, [], Some, length, is_some}, List.AllZip};
ghost use Rattle.std.specs.{Cmp.IsEquivalence, Map.lookup};
ghost use Rattle.hashlink_model.specs.{Entries.{IsEntries, without}, Cache.{cache_put, cache_use}};
ghost use Rattle.hashlink_history.specs.Inclusion.{IsEndOf, SameKey, SameEntry, AlsoFinds, FindsTheSame};
ghost use Rattle.hashlink_history.specs.CacheRuns.{CacheEvent, NoUse, after_events, answers};

/// Inserts, uses and removals keep the keys of the smaller cache an end of the larger one's, up to equality.
pub fn steps_keep_an_end_of_the_keys<K, V>()
    ensures insert { (eq : K → K → Bool) → IsEquivalence eq → (c d : ℕ) (k : K) (v : V)
        (small large : List (K × V))
        → IsEntries eq large → c ≤ d → length small ≤ c → IsEndOf (SameKey eq) small large
        → IsEndOf (SameKey eq) (cache_put eq small c k v) (cache_put eq large d k v) }
    ensures use_step { (eq : K → K → Bool) → IsEquivalence eq → (c d : ℕ) (k : K) (v : V)
        (small large : List (K × V))
        → IsEntries eq large → c ≤ d → length small ≤ c → IsEndOf (SameKey eq) small large
        → IsEndOf (SameKey eq) (cache_use eq small c k v) (cache_use eq large d k v) }
    ensures remove { (eq : K → K → Bool) → IsEquivalence eq → (k : K) (small large : List (K × V))
        → IsEntries eq large → IsEndOf (SameKey eq) small large
        → IsEndOf (SameKey eq) (without eq small k) (without eq large k) }
    ensures answers { (eq : K → K → Bool) → IsEquivalence eq → (k : K) (small large : List (K × V))
        → IsEndOf (SameKey eq) small large → is_some (lookup (eq k) small) ≡ true
        → is_some (lookup (eq k) large) ≡ true }
{}

/// Without uses the values agree too, and the larger cache returns what the smaller one returns.
pub fn inserts_and_removals_keep_an_end_of_the_entries<K, V>()
    ensures insert { (eq : K → K → Bool) → IsEquivalence eq → (c d : ℕ) (k : K) (v : V)
        (small large : List (K × V))
        → IsEntries eq large → c ≤ d → length small ≤ c → IsEndOf (SameEntry eq) small large
        → IsEndOf (SameEntry eq) (cache_put eq small c k v) (cache_put eq large d k v) }
    ensures remove { (eq : K → K → Bool) → IsEquivalence eq → (k : K) (small large : List (K × V))
        → IsEntries eq large → IsEndOf (SameEntry eq) small large
        → IsEndOf (SameEntry eq) (without eq small k) (without eq large k) }
    ensures answers { (eq : K → K → Bool) → IsEquivalence eq → (k : K) (w : V) (small large : List (K × V))
        → IsEntries eq large → IsEndOf (SameEntry eq) small large → lookup (eq k) small ≡ Some w
        → lookup (eq k) large ≡ Some w }
{}

/// Two caches that start empty and get the same calls: the keys of the smaller one are, up to equality, an
/// end of the larger one's. Each call that finds a value in the smaller one finds a value in the larger one.
pub fn any_calls_keep_an_end_of_the_keys<K, V>()
    ensures keys { (eq : K → K → Bool) → IsEquivalence eq → (c d : ℕ) → c ≤ d
        → (events : List (CacheEvent K V))
        → IsEndOf (SameKey eq) (after_events eq c [] events) (after_events eq d [] events) }
    ensures answers { (eq : K → K → Bool) → IsEquivalence eq → (c d : ℕ) → c ≤ d
        → (events : List (CacheEvent K V))
        → AllZip AlsoFinds (answers eq c [] events) (answers eq d [] events) }
{}

/// Without uses the values agree too, and what a call finds in the smaller cache it finds in the larger one.
pub fn calls_without_uses_keep_an_end_of_the_entries<K, V>()
    ensures entries { (eq : K → K → Bool) → IsEquivalence eq → (c d : ℕ) → c ≤ d
        → (events : List (CacheEvent K V))
        → NoUse events
        → IsEndOf (SameEntry eq) (after_events eq c [] events) (after_events eq d [] events) }
    ensures answers { (eq : K → K → Bool) → IsEquivalence eq → (c d : ℕ) → c ≤ d
        → (events : List (CacheEvent K V))
        → NoUse events
        → AllZip FindsTheSame (answers eq c [] events) (answers eq d [] events) }
{}
