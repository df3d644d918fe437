//! Inserts that return the pair that leaves the cache.
ghost use Rattle.std.specs.{Prelude.{◌≡◌, IfOk, IsOk, IsSome, OnOk, length}, Map.lookup, Option.option_map};
ghost use Rattle.hashlink_model.specs.{Cache.{IsWithin, KeepsLast, OnMap, cache_put}, Entries.IsEntries};
ghost use Rattle.hashlink_model.specs.{Lookups.UpdatesWithin, MapState.Inserts, Walk.first_of};
ghost use Rattle.hashlink_core.specs.Keyed as keyed;
ghost use Rattle.hashlink_lru.specs.Evicted.{Pushes, evicted_entries, insert_answer, pushed_out};

use super::LruCache;
use hashlink_map::{Entry, LinkedHashMap};
use std::hash::{BuildHasher, Hash};

impl<K: Eq + Hash, V, S: BuildHasher> LruCache<K, V, S> {
    ghost use Rattle.hashlink_lru.specs.Cached.{entries_of, state_of, StaysWithin};

    /// Inserts the pair as `insert` does, and returns the pair that leaves. If the key is present, its entry
    /// keeps the stored key, and the given key leaves with the old value. Otherwise the evicted entry leaves,
    /// or `None` is returned if there is room.
    ///
    /// At capacity 0 an empty cache evicts the new pair, which is returned. If entries, cursors or `map_mut`
    /// have exceeded the capacity, an insert may evict several entries, even if the key is present. All but
    /// the returned one are dropped; if the key is absent, the first one is returned.
    ///
    /// It costs what `insert` costs. If an allocation fails, it returns the given pair in `Err`, changes no
    /// entry and evicts nothing; the room may have grown.
    pub fn push(&mut self, key: K, value: V) -> Result<Option<(K, V)>, (K, V)>
    where
        K: Drop,
        V: Drop,
        ensures pushes { Pushes K.eq (state_of self.old) (state_of self.new) key value result }
        ensures left { IfOk result
            (λ left. left ≡ pushed_out K.eq (entries_of self.old) (state_of self.old).cap key value) }
        ensures entries { OnOk result (entries_of self.new
            ≡ cache_put K.eq (entries_of self.old) (state_of self.old).cap key value) }
        ensures updates { OnOk result (UpdatesWithin K.eq (state_of self.old).cap (entries_of self.old)
            (entries_of self.new) key value) }
        ensures there { IsSome (lookup (K.eq key) (entries_of self.old)) → IsOk result }
        ensures distinct { IsEntries K.eq (entries_of self.new) }
        ensures fits { OnOk result (IsWithin (state_of self.new) 0) }
        ensures within { StaysWithin (state_of self.old) (state_of self.new) }
    {
        let replaced = put_last(&mut self.map, key, value)?;
        let evicted = self.evict_excess();
        Ok(replaced.or(evicted))
    }

    /// Evicts entries from the front until there are no more than the capacity, and returns the first of
    /// them.
    fn evict_excess(&mut self) -> Option<(K, V)>
    where
        K: Drop,
        V: Drop,
        ensures keeps { OnMap (λ a b. KeepsLast a b (state_of self.old).cap) (state_of self.old)
            (state_of self.new) }
        ensures first { result ≡ first_of (evicted_entries (entries_of self.old) (state_of self.old).cap) }
        ensures distinct { IsEntries K.eq (entries_of self.new) }
    {
        if self.map.len() <= self.capacity {
            return None;
        }
        let first = self.map.pop_front();
        self.keep_last(self.capacity);
        first
    }
}

/// Inserts the pair at the back as the map's `insert` does. If the key is present, returns the given key with
/// the old value. Hashes the key once.
fn put_last<K: Eq + Hash + Drop, V: Drop, S: BuildHasher>(
    map: &mut LinkedHashMap<K, V, S>,
    key: K,
    value: V,
) -> Result<Option<(K, V)>, (K, V)>
    ensures inserts { Inserts K.eq (keyed.state_of map.old) (keyed.state_of map.new) key value
        (length (keyed.entries_of map.old)) (insert_answer K.eq (keyed.entries_of map.old) key result) }
    ensures replaced { IfOk result
        (λ out. out ≡ option_map (λ w. (key, w)) (lookup (K.eq key) (keyed.entries_of map.old))) }
    ensures distinct { IsEntries K.eq (keyed.entries_of map.old) }
{
    match map.entry(key) {
        Entry::Occupied(mut entry) => {
            let old = entry.insert(value);
            Ok(Some((entry.into_key(), old)))
        }
        Entry::Vacant(entry) => match entry.insert(value) {
            Ok(_value) => Ok(None),
            Err(pair) => Err(pair),
        },
    }
}
