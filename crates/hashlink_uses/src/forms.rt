//! Forms that a caller writes by habit: loops over borrowed containers, `?` on calls that allocate,
//! operators, and `collect`.
ghost use Rattle.hashlink.specs.Keyed as keyed;
ghost use Rattle.std.specs.{Prelude.{◌≡◌, [], IfOk, OnErr, nat_eq, reverse}, List.list_any, Map.keys_of};
ghost use Rattle.hashlink.{specs.Algebra.intersection_of, specs.Cached.entries_of, specs.Sets.elements_of};

use hashlink::{LinkedHashMap, LinkedHashSet, LruCache};
use std::alloc::{AllocError, Global};
use std::hash::{BuildHasher, Hash};

/// Returns whether an entry has this value.
pub fn has_value<K: Eq + Hash, V: PartialEq, S: BuildHasher>(
    map: &LinkedHashMap<K, V, S>,
    value: &V,
) -> bool
    ensures { result ≡ list_any (λ e. V.eq e.1 value.now) (keyed.entries_of map.now) }
{
    for (_, stored) in map {
        if stored == value {
            return true;
        }
    }
    false
}

/// Returns whether an element of a set equals this one.
pub fn has_element<T: Eq + Hash, S: BuildHasher>(set: &LinkedHashSet<T, S>, wanted: &T) -> bool
    ensures { result ≡ list_any (λ x. T.eq x wanted.now) (elements_of set.now) }
{
    for element in set {
        if element == wanted {
            return true;
        }
    }
    false
}

/// Returns whether an entry of a cache has this value.
pub fn has_cached<K: Eq + Hash, V: PartialEq, S: BuildHasher>(
    cache: &LruCache<K, V, S>,
    value: &V,
) -> bool
    ensures { result ≡ list_any (λ e. V.eq e.1 value.now) (entries_of cache.now) }
{
    for (_, stored) in cache {
        if stored == value {
            return true;
        }
    }
    false
}

/// Makes room for three more, and inserts a pair. If memory runs out, the pair is dropped, and no entry has
/// changed.
pub fn insert_with_room<K: Eq + Hash + Drop, V: Drop, S: BuildHasher>(
    map: &mut LinkedHashMap<K, V, S>,
    key: K,
    value: V,
) -> Result<(), AllocError>
    ensures unchanged { OnErr result (keyed.entries_of map.new ≡ keyed.entries_of map.old) }
{
    map.reserve(3)?;
    map.insert(key, value).map_err(|_| AllocError)?;
    Ok(())
}

/// Removes the entries one by one, from the front.
pub fn pop_each<K: Eq + Hash + Drop, V: Drop, S: BuildHasher>(map: &mut LinkedHashMap<K, V, S>)
    ensures { keyed.entries_of map.new ≡ [] }
{
    while let Some(_pair) = map.pop_front() {}
}

/// Returns a set of the numbers that two sets share.
pub fn shared<S: BuildHasher + Default + Drop>(
    left: &LinkedHashSet<u64, S>,
    right: &LinkedHashSet<u64, S>,
) -> Result<LinkedHashSet<u64, S>, AllocError>
    ensures { IfOk result (λ set. elements_of set
        ≡ intersection_of nat_eq (elements_of left.now) (elements_of right.now)) }
{
    left & right
}

/// Takes all pairs out of a map, in their order. If memory runs out, they are dropped. The clauses of
/// `collect` state nothing about what its iterator borrows, so a `clear` follows, which finds nothing to
/// remove.
pub fn take_all<S: BuildHasher>(
    alloc: Global,
    map: &mut LinkedHashMap<u64, u64, S>,
) -> Result<Vec<(u64, u64)>, AllocError>
    ensures pairs { IfOk result (λ pairs. pairs.items ≡ keyed.entries_of map.old) }
    ensures empty { keyed.entries_of map.new ≡ [] }
{
    let pairs = map.drain().collect(alloc);
    map.clear();
    pairs
}

/// Returns the keys of a map, the last one first.
pub fn latest_keys<S: BuildHasher>(
    alloc: Global,
    map: &LinkedHashMap<u64, u64, S>,
) -> Result<Vec<u64>, AllocError>
    ensures { IfOk result (λ keys. keys.items ≡ reverse (keys_of (keyed.entries_of map.now))) }
{
    map.keys().rev().map(|key| *key).collect(alloc)
}
