//! What may go to another thread, and be read by several: containers and what borrows them, if their keys,
//! values and hashers may. Each call here is proved. A thread, a channel or a lock that threads share asks
//! for the same bounds.

use hashlink::linked_hash_map::{
    Drain, Entry, IntoIter, Iter, IterMut, Keys, RawEntryBuilder, RawEntryBuilderMut, RawEntryMut,
    Values, ValuesMut,
};
use hashlink::linked_hash_set::{Difference, Intersection, SymmetricDifference, Union};
use hashlink::weighted::{WeightedCache, WeightedIter};
use hashlink::{LinkedHashMap, LinkedHashSet, LruCache, linked_hash_set, lru_cache};
use std::hash::{BuildHasher, Hash};
use std::marker::{Send, Sync};
use std::sync::Mutex;

/// Does nothing, for a type that may go to another thread.
fn is_send<T: Send>() {}

/// Does nothing, for a type that may go to another thread and be read by several.
fn is_send_sync<T: Send + Sync>() {}

/// A map may go to another thread if its parts may, and a lock with one in it may be shared.
pub fn maps_are_send<K, V, S>()
where
    K: Eq + Hash + Send,
    V: Send,
    S: BuildHasher + Send,
{
    is_send::<LinkedHashMap<K, V, S>>();
    is_send_sync::<Mutex<LinkedHashMap<K, V, S>>>();
}

/// So may a set.
pub fn sets_are_send<T, S>()
where
    T: Eq + Hash + Send,
    S: BuildHasher + Send,
{
    is_send::<LinkedHashSet<T, S>>();
    is_send_sync::<Mutex<LinkedHashSet<T, S>>>();
}

/// So may a cache, with a capacity or with a budget.
pub fn caches_are_send<K, V, S>()
where
    K: Eq + Hash + Send,
    V: Send,
    S: BuildHasher + Send,
{
    is_send::<LruCache<K, V, S>>();
    is_send_sync::<Mutex<LruCache<K, V, S>>>();
    is_send::<WeightedCache<K, V, S>>();
    is_send_sync::<Mutex<WeightedCache<K, V, S>>>();
}

/// Several threads may read a container if they may read its parts.
pub fn containers_are_shared<K, V, S>()
where
    K: Eq + Hash + Send + Sync,
    V: Send + Sync,
    S: BuildHasher + Send + Sync,
{
    is_send_sync::<LinkedHashMap<K, V, S>>();
    is_send_sync::<LinkedHashSet<K, S>>();
    is_send_sync::<LruCache<K, V, S>>();
    is_send_sync::<WeightedCache<K, V, S>>();
}

/// What borrows a map, and what owns the entries of a map or a cache.
pub fn iterators_are_shared<'a, K, V, S>()
where
    K: Eq + Hash + Send + Sync + 'a,
    V: Send + Sync + 'a,
    S: BuildHasher + Send + Sync + 'a,
{
    is_send_sync::<Iter<'a, K, V>>();
    is_send_sync::<Keys<'a, K, V>>();
    is_send_sync::<Values<'a, K, V>>();
    is_send_sync::<IntoIter<K, V>>();
    is_send_sync::<IterMut<'a, K, V, S>>();
    is_send_sync::<ValuesMut<'a, K, V, S>>();
    is_send_sync::<Drain<'a, K, V, S>>();
}

/// What borrows a set, or two, and what owns the elements of one.
pub fn set_iterators_are_shared<'a, T, S>()
where
    T: Eq + Hash + Send + Sync + 'a,
    S: BuildHasher + Send + Sync + 'a,
{
    is_send_sync::<linked_hash_set::Iter<'a, T>>();
    is_send_sync::<linked_hash_set::IntoIter<T>>();
    is_send_sync::<linked_hash_set::Drain<'a, T, S>>();
    is_send_sync::<Difference<'a, T, S>>();
    is_send_sync::<Intersection<'a, T, S>>();
    is_send_sync::<SymmetricDifference<'a, T, S>>();
    is_send_sync::<Union<'a, T, S>>();
}

/// What borrows a cache, apart from the iterators and entries of its map.
pub fn cache_iterators_are_shared<'a, K, V, S>()
where
    K: Eq + Hash + Send + Sync + 'a,
    V: Send + Sync + 'a,
    S: BuildHasher + Send + Sync + 'a,
{
    is_send_sync::<lru_cache::Drain<'a, K, V, S>>();
    is_send_sync::<WeightedIter<'a, K, V>>();
}

/// Entries of a map.
pub fn entries_are_shared<'a, K, V, S>()
where
    K: Eq + Hash + Send + Sync + 'a,
    V: Send + Sync + 'a,
    S: BuildHasher + Send + Sync + 'a,
{
    is_send_sync::<Entry<'a, K, V, S>>();
    is_send_sync::<RawEntryBuilder<'a, K, V, S>>();
    is_send_sync::<RawEntryBuilderMut<'a, K, V, S>>();
    is_send_sync::<RawEntryMut<'a, K, V, S>>();
}
