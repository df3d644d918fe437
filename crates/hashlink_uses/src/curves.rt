//! Miss curves, and what the caller knows about the misses that they report.
ghost use Rattle.std.specs.Prelude.{◌≡◌, ◌*◌, ◌≤◌, ◌<◌, ◌^◌, map, IfOk};
ghost use Rattle.hashlink.specs.History.{cache_misses};

use crate::capacities::misses_in_a_cache;
use hashlink::miss_curve::{MissCurve, miss_curve};
use std::alloc::{AllocError, Global};
use std::hash::Hash;

/// Returns the misses at a capacity and at twice that capacity. Doubling a capacity never adds a miss.
pub fn doubled<K: Eq + Hash>(curve: &MissCurve<K>, capacity: usize) -> (u64, u64)
    requires { 2 * capacity < 2 ^ 64 }
    ensures { result.1 ≤ result.0 }
{
    (curve.misses(capacity), curve.misses(2 * capacity))
}

/// Returns how often the given keys miss in a cache of this capacity.
pub fn misses_of<K: Eq + Hash + Copy>(
    alloc: Global,
    keys: &[K],
    capacity: usize,
) -> Result<u64, AllocError>
    ensures { IfOk result (λ n. n ≡ cache_misses K.eq capacity keys.now) }
{
    Ok(miss_curve(alloc, keys)?.misses(capacity))
}

/// Returns how often the uses miss in a cache of this capacity: as counted in its replies, and as reported by
/// the curve of their keys. The two numbers are equal.
pub fn misses_by_replies_and_by_curve<K: Eq + Hash + Copy, V: Copy>(
    alloc: Global,
    pairs: &[(K, V)],
    capacity: usize,
) -> Result<(usize, u64), AllocError>
    ensures { IfOk result (λ misses. misses.0 ≡ misses.1) }
{
    let by_replies = misses_in_a_cache(alloc, capacity, pairs)?;
    let keys = keys_of(alloc, pairs)?;
    Ok((by_replies, misses_of(alloc, &keys, capacity)?))
}

// Returns the keys of the pairs.
fn keys_of<K: Copy, V: Copy>(alloc: Global, pairs: &[(K, V)]) -> Result<Vec<K>, AllocError>
    ensures { IfOk result (λ keys. keys.items ≡ map (λ p. p.0) pairs.now) }
{
    pairs.iter().map(|pair| pair.0).collect(alloc)
}
