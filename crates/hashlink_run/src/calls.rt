//! Several calls of caches, which end if memory runs out.
ghost use Rattle.std.specs.Prelude.{◌≡◌, ◌≤◌, [], ◌∷◌, ◌++◌, map, Option, Ok, IfOk, IsOk, OnOk, OnErr};
ghost use Rattle.std.specs.Prelude.{MatchResult};
ghost use Rattle.hashlink_core.specs.Hashing.{default_builder};
ghost use Rattle.hashlink_lru.specs.Cached.{entries_of, state_of};
ghost use Rattle.hashlink_model.specs.{Cache.CacheUses, Entries.IsEntries};
ghost use Rattle.hashlink_run.specs.CacheLaws.{BearsComparison, FollowsHistory, Includes, MissesOfHistory};
ghost use Rattle.hashlink_run.specs.CacheCalls.{EventRefused, EventStep, RunsFromEmpty, event_of, use_of};
ghost use Rattle.hashlink_run.specs.CacheLaws.{UsedLast};

use crate::PairCommand;
use hashlink_lru::LruCache;
use std::alloc::{AllocError, Global};
use std::hash::Hash;

/// Two caches after the same commands, and what each returned for each command: the old value, the value that
/// a use hit, the removed value, or the value that was read.
#[derive(Drop)]
pub struct Pair<K: Eq + Hash, V> {
    /// The smaller cache.
    pub small: LruCache<K, V>,
    /// The larger cache.
    pub large: LruCache<K, V>,
    /// What the smaller cache returned.
    pub small_replies: Vec<Option<V>>,
    /// What the larger cache returned.
    pub large_replies: Vec<Option<V>>,
}

/// A cache after a list of uses, and the value that each use hit.
#[derive(Drop)]
pub struct Uses<K: Eq + Hash, V> {
    /// The cache.
    pub cache: LruCache<K, V>,
    /// What the cache returned.
    pub replies: Vec<Option<V>>,
}

/// Runs the commands on two empty caches of the given capacities.
///
/// Each command has the cost of the cache's method that it names. If memory runs out, for the replies or for
/// an insert, it returns `AllocError`, and nothing is left of the caches. If there is no command, it needs no
/// memory. `small_capacity` has to be at most `large_capacity`.
pub fn run_pair<K, V>(
    alloc: Global,
    small_capacity: usize,
    large_capacity: usize,
    commands: &[PairCommand<K, V>],
) -> Result<Pair<K, V>, AllocError>
where
    K: Eq + Hash + Copy,
    V: Copy,
    requires { small_capacity ≤ large_capacity }

    // For each cache, a chain of steps in which no insert fails has the replies and leads to the state at the
    // end.
    ensures small { IfOk result (λ pair. RunsFromEmpty K.eq default_builder small_capacity
        (map event_of commands.now) pair.small_replies.items (state_of pair.small)) }
    ensures large { IfOk result (λ pair. RunsFromEmpty K.eq default_builder large_capacity
        (map event_of commands.now) pair.large_replies.items (state_of pair.large)) }

    // The smaller cache holds an end of the larger one's keys, and found no value that the larger one did not
    // find.
    ensures inclusion { IfOk result (λ pair. Includes K.eq (map event_of commands.now) (entries_of pair.small)
        (entries_of pair.large) pair.small_replies.items pair.large_replies.items) }

    // Each cache holds and found what the history of uses implies.
    ensures small_history { IfOk result
        (λ pair. FollowsHistory K.eq (map event_of commands.now) small_capacity
        (entries_of pair.small) pair.small_replies.items) }
    ensures large_history { IfOk result
        (λ pair. FollowsHistory K.eq (map event_of commands.now) large_capacity
        (entries_of pair.large) pair.large_replies.items) }
    ensures small_distinct { IfOk result (λ pair. IsEntries K.eq (entries_of pair.small)) }
    ensures large_distinct { IfOk result (λ pair. IsEntries K.eq (entries_of pair.large)) }
    ensures none { commands.now ≡ [] → IsOk result }
{
    let (small, small_replies) = run_calls(alloc, small_capacity, commands)?;
    let (large, large_replies) = run_calls(alloc, large_capacity, commands)?;
    Ok(Pair {
        small,
        large,
        small_replies,
        large_replies,
    })
}

/// Runs a use of each pair in order on an empty cache of this capacity: a `get` and, if it misses, an insert.
///
/// Each use costs what both methods cost. If memory runs out, for the replies or for an insert, it returns
/// `AllocError`, and nothing is left of the cache. If there is no use, it needs no memory.
pub fn run_uses<K, V>(
    alloc: Global,
    capacity: usize,
    pairs: &[(K, V)],
) -> Result<Uses<K, V>, AllocError>
where
    K: Eq + Hash + Copy,
    V: Copy,
    // A chain of steps in which no insert fails has the replies and leads to the state at the end.
    ensures ran { IfOk result (λ uses. RunsFromEmpty K.eq default_builder capacity (map use_of pairs.now)
        uses.replies.items (state_of uses.cache)) }

    // The cache holds and found what the history of the uses implies. It missed as often as that implies, and
    // not many times more than any other replacement policy would.
    ensures history { IfOk result (λ uses. FollowsHistory K.eq (map use_of pairs.now) capacity
        (entries_of uses.cache) uses.replies.items) }
    ensures misses { IfOk result (λ uses. MissesOfHistory K.eq capacity (map (λ p. p.0) pairs.now)
        uses.replies.items) }
    ensures comparison { IfOk result (λ uses. BearsComparison K.eq capacity (map (λ p. p.0) pairs.now)
        uses.replies.items) }
    ensures distinct { IfOk result (λ uses. IsEntries K.eq (entries_of uses.cache)) }
    ensures none { pairs.now ≡ [] → IsOk result }
{
    let mut replies = Vec::with_capacity(alloc, pairs.len())?;
    let mut cache = LruCache::new(alloc, capacity);
    for (key, value) in pairs {
        push_answer(&mut cache, PairCommand::Use(*key, *value), &mut replies)?;
    }
    Ok(Uses { cache, replies })
}

// Runs the commands on an empty cache of this capacity.
fn run_calls<K, V>(
    alloc: Global,
    capacity: usize,
    commands: &[PairCommand<K, V>],
) -> Result<(LruCache<K, V>, Vec<Option<V>>), AllocError>
where
    K: Eq + Hash + Copy,
    V: Copy,
    ensures ran { IfOk result (λ ran. RunsFromEmpty K.eq default_builder capacity (map event_of commands.now)
        ran.1.items (state_of ran.0)) }
    ensures none { commands.now ≡ [] → IsOk result }
{
    let mut replies = Vec::with_capacity(alloc, commands.len())?;
    let mut cache = LruCache::new(alloc, capacity);
    for command in commands {
        push_answer(&mut cache, *command, &mut replies)?;
    }
    Ok((cache, replies))
}

// Runs the command on the cache, and pushes the method's result.
fn push_answer<K, V>(
    cache: &mut LruCache<K, V>,
    command: PairCommand<K, V>,
    replies: &mut Vec<Option<V>>,
) -> Result<(), AllocError>
where
    K: Eq + Hash + Copy,
    V: Copy,
    ensures answered { OnOk result ((answer : Option V)
        × EventStep K.eq (state_of cache.old) (event_of command) (answer ∷ []) (state_of cache.new)
        × (replies.new.items ≡ replies.old.items ++ answer ∷ [])) }
{
    replies.push(answer_call(cache, command)?)?;
    Ok(())
}

/// Runs the command on the cache and returns the result of the method that it names. It has the cost of that
/// method.
///
/// If it inserts, the key is absent, no node is free and an allocation fails, it returns `AllocError`, and
/// nothing has changed; the room may have grown.
pub fn answer_call<K, V>(
    cache: &mut LruCache<K, V>,
    command: PairCommand<K, V>,
) -> Result<Option<V>, AllocError>
where
    K: Eq + Hash + Copy,
    V: Copy,
    ensures answered { IfOk result (λ answer. EventStep K.eq (state_of cache.old) (event_of command)
        (answer ∷ []) (state_of cache.new)) }
    ensures refused { OnErr result (EventRefused K.eq (state_of cache.old) (event_of command)
        (state_of cache.new)) }
    ensures capacity { (state_of cache.new).cap ≡ (state_of cache.old).cap }
{
    match command {
        PairCommand::Insert(key, value) => without_pair(cache.insert(key, value)),
        PairCommand::Use(key, value) => without_pair(use_pair(cache, key, value)),
        PairCommand::Remove(key) => Ok(cache.remove(&key)),
        PairCommand::Peek(key) => Ok(cache.peek(&key).copied()),
    }
}

// Returns the result of an insert, without the pair that a failed insert returns.
fn without_pair<K: Copy, V: Copy>(
    answer: Result<Option<V>, (K, V)>,
) -> Result<Option<V>, AllocError>
    ensures { MatchResult answer (λ old. result ≡ Ok old) (λ pair. ¬ IsOk result) }
{
    match answer {
        Ok(old) => Ok(old),
        Err(_) => Err(AllocError),
    }
}

// Returns the value of the key and moves its entry to the back, or inserts the pair if the key is absent.
fn use_pair<K, V>(cache: &mut LruCache<K, V>, key: K, value: V) -> Result<Option<V>, (K, V)>
where
    K: Eq + Hash + Copy,
    V: Copy,
    ensures uses { CacheUses K.eq (state_of cache.old) (state_of cache.new) key value result }
    ensures recent { OnOk result (UsedLast K.eq (state_of cache.old).cap (entries_of cache.old) key
        (entries_of cache.new)) }
{
    match cache.get(&key).copied() {
        Some(found) => Ok(Some(found)),
        None => cache.insert(key, value),
    }
}
