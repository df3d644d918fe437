//! The draining iterator of a cache.
ghost use Rattle.std.specs.Prelude.{◌≡◌};
ghost use Rattle.hashlink_core.specs.Drained.{CanDrain, with_free};
ghost use Rattle.hashlink_lru.specs.Cached.{state_of};

use crate::cache::LruCache;
use hashlink_map::{Chain, DefaultHashBuilder, DrainOf, Drainable, FreeBlock};
use std::hash::{BuildHasher, Hash};

/// An iterator that removes the entries of a cache and returns them, from front to back: the least recently
/// used first. When it is dropped, exhausted or not, the cache is empty and every node is free. If it is
/// forgotten (`mem::forget`), the cache is empty too, but the entries left are never dropped, and the memory
/// of their nodes is never returned.
pub type Drain<'a, K, V, S = DefaultHashBuilder> = DrainOf<'a, LruCache<K, V, S>, K, V>;

impl<K: Eq + Hash, V, S: BuildHasher> Drainable<K, V> for LruCache<K, V, S> {
    ghost Hasher = { S };

    ghost map_state = { λ c. (state_of c).map };

    ghost rest = { λ c. c.capacity };

    fn take_entries(&mut self) -> Chain<K, V> {
        self.map.take_entries()
    }

    #[inline(always)]
    fn keep_free(&mut self, block: FreeBlock<K, V>)
        requires { CanDrain (state_of self.old).map 1 }
        ensures freed { (state_of self.new).map ≡ with_free (state_of self.old).map }
        ensures same { self.new.capacity ≡ self.old.capacity }
    {
        self.map.keep_free(block);
    }
}

impl<K: Eq + Hash + Drop, V: Drop, S: BuildHasher> LruCache<K, V, S> {
    ghost use Rattle.hashlink_map.specs.Drain.{drained_state};

    /// Returns an iterator that removes the entries and returns them, from front to back. When it is dropped,
    /// exhausted or not, the cache is empty. The call takes linear time in the number of buckets, the drop in
    /// the number of entries that are left. A drain stores at most three links for each entry, and neither
    /// hashes nor allocates.
    pub fn drain<'a>(&'a mut self) -> Drain<'a, K, V, S>
    where
        S::Hasher: 'a,
        ensures same_cache { result.container.ghost_name ≡ self.entry.ghost_name }
        ensures unchanged { drained_state result ≡ (state_of self.old).map }
        ensures capacity { result.container.now.capacity ≡ self.old.capacity }
    {
        DrainOf::new(self)
    }
}
