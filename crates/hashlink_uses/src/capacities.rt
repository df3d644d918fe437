//! The effect of a larger or a smaller capacity of a cache.
ghost use Rattle.std.specs.Prelude.{◌≡◌, ◌≤◌, ◌+◌, ◌-◌, ◌*◌, ℕ, List, map, IfOk, count_by, is_none};
ghost use Rattle.hashlink.specs.{Cached.entries_of, History.{Schedule, cache_misses, misses}};
ghost use Rattle.hashlink.specs.Inclusion.{IsEndOf, SameKey};

use hashlink::LruCache;
use hashlink::run::{Pair, PairCommand, run_pair, run_uses};
use std::alloc::{AllocError, Global};
use std::hash::Hash;

/// Runs the commands on a smaller and on a larger cache. The smaller one holds an end of the larger one's
/// keys.
pub fn two_caches<K: Eq + Hash + Copy, V: Copy>(
    alloc: Global,
    small: usize,
    large: usize,
    commands: &[PairCommand<K, V>],
) -> Result<(LruCache<K, V>, LruCache<K, V>), AllocError>
    requires { small ≤ large }
    ensures { IfOk result (λ caches. IsEndOf (SameKey K.eq) (entries_of caches.0) (entries_of caches.1)) }
{
    let Pair { small, large, .. } = run_pair(alloc, small, large, commands)?;
    Ok((small, large))
}

/// Returns how many of the uses miss in a cache of this capacity, which is as many as the history of their
/// keys implies. With a smaller capacity not much fewer miss, whatever the replacement policy.
pub fn misses_in_a_cache<K: Eq + Hash + Copy, V: Copy>(
    alloc: Global,
    capacity: usize,
    pairs: &[(K, V)],
) -> Result<usize, AllocError>
    ensures counted { IfOk result (λ missed. missed
        ≡ cache_misses K.eq capacity (map (λ p. p.0) pairs.now)) }
    ensures compared { IfOk result (λ missed. (places : ℕ) → 1 ≤ places → places ≤ capacity
        → (held : List (List K)) → Schedule K.eq places (map (λ p. p.0) pairs.now) held
        → (capacity - places + 1) * missed ≤ capacity * misses K.eq (map (λ p. p.0) pairs.now) held) }
{
    let uses = run_uses(alloc, capacity, pairs)?;
    Ok(misses_among(&uses.replies))
}

// Returns how many of the replies are `None`.
fn misses_among<V>(replies: &[Option<V>]) -> usize
    ensures { result ≡ count_by is_none replies.now }
{
    replies.iter().filter(|reply| reply.is_none()).count()
}
