//! Calls of a cache, and what the caller knows after a loan has ended.
ghost use Rattle.std.specs.Prelude.{◌≡◌, ℕ, ◌+◌, ◌<◌, ◌^◌, IsTrue, IsFalse, IsOk, OnOk, IfErr, Ok, length};
ghost use Rattle.std.specs.{Prelude.{is_some, unwrap_or}, Map.lookup};
ghost use Rattle.hashlink.specs.Cache.{CacheGetsAndWrites, EvictsFront, OnMap, IsWithin, front_evicted};
ghost use Rattle.hashlink.specs.{Entries.put, MapState.{MapState, Inserts, RefusesEntry}};
ghost use Rattle.hashlink.specs.{Steps.{Drains, with_value_of}, Cached.{entries_of, state_of}};

use crate::maps::entries::count_word as count_word_in;
use hashlink::LruCache;
use std::hash::{BuildHasher, Hash};

/// Writes the value of a key by `get_mut`, which is a use, and returns whether the key is present.
pub fn use_and_write<K: Eq + Hash, V: Drop, S: BuildHasher>(
    cache: &mut LruCache<K, V, S>,
    key: &K,
    value: V,
) -> bool
    ensures found { result ≡ is_some (lookup (K.eq key.now) (entries_of cache.old)) }
    ensures there { IsTrue result → CacheGetsAndWrites K.eq (state_of cache.old)
        (state_of cache.new) key.now value }
    ensures absent { IsFalse result → state_of cache.new ≡ state_of cache.old }
{
    match cache.get_mut(key) {
        Some(stored) => {
            *stored = value;
            true
        }
        None => false,
    }
}

/// Writes the value of a key by `peek_mut`, at its place, and returns whether the key is present.
pub fn write_in_place<K: Eq + Hash, V: Drop, S: BuildHasher>(
    cache: &mut LruCache<K, V, S>,
    key: &K,
    value: V,
) -> bool
    ensures found { result ≡ is_some (lookup (K.eq key.now) (entries_of cache.old)) }
    ensures there { IsTrue result
        → state_of cache.new
        ≡ record (state_of cache.old) { map = with_value_of K.eq (state_of cache.old).map key.now value } }
    ensures absent { IsFalse result → state_of cache.new ≡ state_of cache.old }
{
    match cache.peek_mut(key) {
        Some(stored) => {
            *stored = value;
            true
        }
        None => false,
    }
}

/// Empties a cache, and keeps its nodes.
pub fn empty_out<K: Eq + Hash + Drop, V: Drop, S: BuildHasher>(cache: &mut LruCache<K, V, S>)
    ensures { OnMap Drains (state_of cache.old) (state_of cache.new) }
{
    let _rest = cache.drain();
}

/// Inserts a value by `entry` if the key is absent. If there were more entries than the capacity, this cannot
/// fail.
pub fn put_by_entry<K: Eq + Hash + Drop, V: Drop, S: BuildHasher>(
    cache: &mut LruCache<K, V, S>,
    key: K,
    value: V,
) -> Result<(), (K, V)>
    ensures over { (state_of cache.old).cap < length (entries_of cache.old) → IsOk result }
{
    cache.entry(key).or_insert(value)?;
    Ok(())
}

/// Counts a word by an entry of the map, after making room. If there are more entries than the capacity, the
/// first is evicted. Then the map is as after an insert of one more than the count so far.
pub fn count_word<K: Eq + Hash + Drop, S: BuildHasher>(
    cache: &mut LruCache<K, u64, S>,
    word: K,
) -> Result<(), (K, u64)>
    requires { unwrap_or (lookup (K.eq word) (front_evicted (entries_of cache.old) (state_of cache.old).cap))
        0 + 1 < 2 ^ 64 }
    ensures counts { OnOk result ((between : MapState K ℕ S)
        × EvictsFront (state_of cache.old).map between (state_of cache.old).cap
        × Inserts K.eq between (state_of cache.new).map word
        (unwrap_or (lookup (K.eq word) between.entries) 0 + 1)
        (length between.entries) (Ok (lookup (K.eq word) between.entries))) }
    ensures refused { IfErr result (λ pair. (between : MapState K ℕ S)
        × EvictsFront (state_of cache.old).map between (state_of cache.old).cap
        × RefusesEntry K.eq between (state_of cache.new).map word 0 pair) }
    ensures over { (state_of cache.old).cap < length (entries_of cache.old) → IsOk result }
    ensures capacity { (state_of cache.new).cap ≡ (state_of cache.old).cap }
{
    cache.make_room();
    count_word_in(cache.map_mut(), word)
}

/// Inserts two pairs. If the first insert evicts an entry, the second cannot fail. The number of entries
/// beyond the capacity does not grow, and it is 0 afterwards if the second pair is inserted.
pub fn insert_both<K: Eq + Hash + Drop, V: Drop, S: BuildHasher>(
    cache: &mut LruCache<K, V, S>,
    first: (K, V),
    second: (K, V),
) -> (Result<Option<V>, (K, V)>, Result<Option<V>, (K, V)>)
    ensures not_refused { IsOk result.0
        → (state_of cache.old).cap
        < length (put K.eq (entries_of cache.old) first.0 first.1 (length (entries_of cache.old)))
        → IsOk result.1 }
    ensures within { (n : ℕ) → IsWithin (state_of cache.old) n → IsWithin (state_of cache.new) n }
    ensures fits { IsOk result.1 → IsWithin (state_of cache.new) 0 }
{
    let (first_key, first_value) = first;
    let (second_key, second_value) = second;
    let answer = cache.insert(first_key, first_value);
    (answer, cache.insert(second_key, second_value))
}
