//! What holds for every run that the definitions allow, and what a keep leaves. Each function has an empty
//! body: its contract is the theorem.
ghost use Rattle.std.specs.Prelude.{◌≡◌, ◌≤◌, ℕ, Bool, List, [], filter};
ghost use Rattle.hashlink_model.specs.{Cache.CacheState, MapState.MapState, Steps.KeepsOnly};
ghost use Rattle.hashlink_history.specs.CacheRuns.{CacheEvent, after_events, answers};
ghost use Rattle.hashlink_run.specs.declared.{cache_commands.CacheCommand.CacheCommand, replies.Reply.Reply};
ghost use Rattle.hashlink_run.specs.declared.commands.{Command.Command, Command.TheVariants.Keep};
ghost use Rattle.hashlink_run.specs.{CacheLaws.{Includes, FollowsHistory}, CacheStep.CacheRun, Step.Step};
ghost use Rattle.hashlink_run.specs.CacheRun.{CacheWithinPeak, InsertsFit, KeepsBounds, TakesAllAfterADrop};
ghost use Rattle.hashlink_run.specs.{Chain.Answered, Reads.ClosureSays};
ghost use Rattle.hashlink_run.specs.Run.{Run, StaysWithinPeak, TakesKeysWhereShorter};

/// For any calls of two empty caches, and so after each call in a list of them: the smaller cache holds an
/// end of the larger one's keys, and each holds and found what the history of uses implies.
pub fn calls_of_two_caches<K: Eq, V>()
    ensures inclusion { (c d : ℕ) → c ≤ d → (events : List (CacheEvent K V))
        → Includes K.eq events (after_events K.eq c [] events) (after_events K.eq d [] events)
        (answers K.eq c [] events) (answers K.eq d [] events) }
    ensures history { (c : ℕ) (events : List (CacheEvent K V))
        → FollowsHistory K.eq events c (after_events K.eq c [] events) (answers K.eq c [] events) }
{}

/// For any chain of a map's steps: the nodes stay within the peak. If the map was longer, and has freed no
/// node since, it has a free node.
pub fn runs_of_a_map<K: Eq, V, S, F: Fn(&K, &V) -> bool>()
    ensures within_peak { (f : F) (old : MapState K V S) (commands : List (Command K V))
        (answers : List (Answered _ _))
        → Run K.eq (ClosureSays F.Fn f) (ClosureSays F.Fn f) old commands answers
        → StaysWithinPeak old commands answers }
    ensures shorter { (f : F) (old : MapState K V S) (commands : List (Command K V))
        (answers : List (Answered _ _))
        → Run K.eq (ClosureSays F.Fn f) (ClosureSays F.Fn f) old commands answers
        → TakesKeysWhereShorter old commands answers K.eq }
{}

/// For any chain of a cache's steps: the nodes stay within the peak, and no command runs out of memory after
/// an insert has evicted a pair. The length stays within a bound by the capacity, and an insert brings it
/// within the capacity.
pub fn runs_of_a_cache<K: Eq, V, S, F: Fn(&K, &V) -> bool>()
    ensures within_peak { (f : F) (old : CacheState K V S) (commands : List (CacheCommand K V))
        (answers : List (Answered _ _)) → CacheRun K.eq (ClosureSays F.Fn f) old commands answers
        → CacheWithinPeak K.eq old commands answers }
    ensures after_a_drop { (f : F) (old : CacheState K V S) (commands : List (CacheCommand K V))
        (answers : List (Answered _ _)) → CacheRun K.eq (ClosureSays F.Fn f) old commands answers
        → TakesAllAfterADrop K.eq old commands answers }
    ensures bounded { (f : F) (old : CacheState K V S) (commands : List (CacheCommand K V))
        (answers : List (Answered _ _)) → CacheRun K.eq (ClosureSays F.Fn f) old commands answers
        → KeepsBounds old commands answers }
    ensures fits { (f : F) (old : CacheState K V S) (commands : List (CacheCommand K V))
        (answers : List (Answered _ _)) → CacheRun K.eq (ClosureSays F.Fn f) old commands answers
        → InsertsFit K.eq old commands answers }
{}

/// A keep by a closure that always returns the same for the same key and value is a filter of the entries.
pub fn a_keep_is_a_filter<K, V, S, F: Fn(&K, &V) -> bool>()
    ensures { (eq : K → K → Bool) (f : F) (p : K × V → Bool)
        → ((k : K) (v : V) (b : Bool) → ClosureSays F.Fn f k v b → b ≡ p (k, v))
        → (old new : MapState K V S) (replies : List (Reply K V Bool))
        → Step eq (ClosureSays F.Fn f) (ClosureSays F.Fn f) old Keep replies new
        → KeepsOnly old new (filter p old.entries) }
{}
