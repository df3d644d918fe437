//! Inserts, and the evictions of the least recently used entries that make room for them.
ghost use Rattle.std.specs.{Prelude.{◌≡◌, IfOk, IsOk, IsSome, OnOk}, Map.lookup};
ghost use Rattle.hashlink_model.specs.Cache.{CacheInserts, EvictsFront, IsWithin, OnMap, cache_put};
ghost use Rattle.hashlink_model.specs.{Entries.IsEntries, Lookups.{EvictsSome, UpdatesWithin}};

use super::LruCache;
use std::hash::{BuildHasher, Hash};

impl<K: Eq + Hash, V, S: BuildHasher> LruCache<K, V, S> {
    ghost use Rattle.hashlink_lru.specs.Cached.{entries_of, state_of, StaysWithin};

    /// Inserts the pair at the back, and returns the old value of the key if there was one. If the key is
    /// present, its entry keeps the stored key, takes the new value and moves to the back. Then entries are
    /// evicted from the front until there are no more than the capacity. So a cache of capacity 0 is empty
    /// afterwards.
    ///
    /// It hashes the key once. It allocates only if the key is absent and no node is free. If the table is
    /// also full, it grows first, in linear time in the number of entries. If an allocation fails, it returns
    /// the pair in `Err`, changes no entry and evicts nothing; the room may have grown.
    ///
    /// It takes a step for each entry that it evicts. This is at most one, unless entries, cursors, `map_mut`
    /// or, at capacity 0, `get_or_insert_with` or `get_or_try_insert_with` have exceeded the capacity. It
    /// stores at most six links if the key is present, four if it is absent, and three for each entry that it
    /// evicts.
    #[inline(always)]
    pub fn insert(&mut self, key: K, value: V) -> Result<Option<V>, (K, V)>
    where
        K: Drop,
        V: Drop,
        ensures inserts { CacheInserts K.eq (state_of self.old) (state_of self.new) key value result }
        ensures entries { OnOk result (entries_of self.new
            ≡ cache_put K.eq (entries_of self.old) (state_of self.old).cap key value) }
        ensures updates { OnOk result (UpdatesWithin K.eq (state_of self.old).cap (entries_of self.old)
            (entries_of self.new) key value) }
        ensures old { IfOk result (λ old. old ≡ lookup (K.eq key) (entries_of self.old)) }
        ensures there { IsSome (lookup (K.eq key) (entries_of self.old)) → IsOk result }
        ensures distinct { IsEntries K.eq (entries_of self.new) }
        ensures fits { OnOk result (IsWithin (state_of self.new) 0) }
        ensures within { StaysWithin (state_of self.old) (state_of self.new) }
    {
        let old = self.map.insert(key, value)?;
        self.keep_last(self.capacity);
        Ok(old)
    }

    /// Evicts the front if there are more entries than the capacity. It takes constant time, hashes nothing,
    /// and stores at most three links. If it evicts one, the next insert of an absent key uses its node, and
    /// so cannot fail.
    pub fn make_room(&mut self)
    where
        K: Drop,
        V: Drop,
        ensures evicts { OnMap (λ a b. EvictsFront a b (state_of self.old).cap) (state_of self.old)
            (state_of self.new) }
        ensures updates { EvictsSome K.eq (entries_of self.old) (entries_of self.new) }
        ensures distinct { IsEntries K.eq (entries_of self.new) }
        ensures within { StaysWithin (state_of self.old) (state_of self.new) }
    {
        if self.map.len() > self.capacity {
            self.map.pop_front();
        }
    }
}
