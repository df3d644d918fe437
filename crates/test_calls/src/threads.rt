//! What several threads may read, if they may read its keys, values and hashers, which need not go to another
//! thread.
use hashlink::linked_hash_map::{IntoIter, Iter, Keys, Values};
use hashlink::weighted::WeightedCache;
use hashlink::{LinkedHashMap, LinkedHashSet, LruCache};
use std::hash::{BuildHasher, Hash};
use std::marker::Sync;

/// Does nothing, for a type that several threads may read.
fn is_sync<T: Sync>() {}

/// Containers, and what reads a map or owns its entries.
pub fn are_read<'a, K, V, S>()
where
    K: Eq + Hash + Sync + 'a,
    V: Sync + 'a,
    S: BuildHasher + Sync + 'a,
{
    is_sync::<LinkedHashMap<K, V, S>>();
    is_sync::<LinkedHashSet<K, S>>();
    is_sync::<LruCache<K, V, S>>();
    is_sync::<WeightedCache<K, V, S>>();
    is_sync::<IntoIter<K, V>>();
    is_sync::<Iter<'a, K, V>>();
    is_sync::<Keys<'a, K, V>>();
    is_sync::<Values<'a, K, V>>();
}
