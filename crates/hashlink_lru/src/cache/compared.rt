//! Comparisons of caches by their entries in order and their capacities, and hashes of caches by their
//! entries, whatever their hashers are.
ghost use Rattle.hashlink_lru.specs.Compared.{caches_eq, caches_equiv, caches_per};
ghost use Rattle.hashlink_lru.specs.Compared.{cache_hash_input, caches_alike};

use super::LruCache;
use std::hash::{BuildHasher, Hash, Hasher};

/// Two caches are equal if they have the same capacity, the same number of entries, and equal keys and values
/// at each index. The capacity counts because two caches of different capacities evict different entries
/// later. A comparison takes linear time, up to the first entry that differs.
impl<K: Eq + Hash, V: PartialEq, S: BuildHasher> PartialEq for LruCache<K, V, S> {
    ghost eq = { caches_eq K.eq V.eq };

    ghost laws = { caches_per K.Eq.laws V.laws };

    fn eq(&self, other: &LruCache<K, V, S>) -> bool {
        self.capacity == other.capacity && self.map.eq(&other.map)
    }
}

impl<K: Eq + Hash, V: Eq, S: BuildHasher> Eq for LruCache<K, V, S> {
    ghost laws = { caches_equiv K.Eq.laws V.Eq.laws };
}

/// Hashes a cache by its entries in order, key before value, so that equal caches have equal hashes. It takes
/// linear time in the number of entries.
impl<K: Eq + Hash, V: Hash, S: BuildHasher> Hash for LruCache<K, V, S> {
    ghost hash_input = { cache_hash_input K.hash_input V.hash_input };

    ghost respects_eq = { caches_alike K.respects_eq V.respects_eq };

    fn hash<H: Hasher>(&self, state: &mut H) {
        self.map.hash(state);
    }
}
