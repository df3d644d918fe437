//! Values that raw entries lend, entries that are found by a hash, and what the caller knows about a map
//! afterwards.
ghost use Rattle.std.specs.{Prelude.{◌≡◌, IsFalse, IsTrue, is_some}, Map.lookup};
ghost use Rattle.hashlink.specs.{Keyed.{entries_of, state_of}, Steps.{RemovesKey, with_value_of}};

use hashlink::LinkedHashMap;
use hashlink::linked_hash_map::RawEntryMut;
use std::hash::{BuildHasher, Hash};

/// Writes the value of a key at its place, and returns whether the key is present.
pub fn write_value<K: Eq + Hash, V: Drop, S: BuildHasher>(
    map: &mut LinkedHashMap<K, V, S>,
    key: &K,
    value: V,
) -> bool
    ensures found { result ≡ is_some (lookup (K.eq key.now) (entries_of map.old)) }
    ensures there { IsTrue result
        → state_of map.new ≡ with_value_of K.eq (state_of map.old) key.now value }
    ensures absent { IsFalse result → map.new ≡ map.old }
{
    match map.raw_entry_of(key) {
        RawEntryMut::Occupied(mut entry) => {
            *entry.get_mut() = value;
            true
        }
        RawEntryMut::Vacant(_) => false,
    }
}

/// Does the same, by the pair that is lent.
pub fn write_beside_key<K: Eq + Hash, V: Drop, S: BuildHasher>(
    map: &mut LinkedHashMap<K, V, S>,
    key: &K,
    value: V,
) -> bool
    ensures found { result ≡ is_some (lookup (K.eq key.now) (entries_of map.old)) }
    ensures there { IsTrue result
        → state_of map.new ≡ with_value_of K.eq (state_of map.old) key.now value }
    ensures absent { IsFalse result → map.new ≡ map.old }
{
    match map.raw_entry_of(key) {
        RawEntryMut::Occupied(mut entry) => {
            let (_, stored) = entry.get_key_value_mut();
            *stored = value;
            true
        }
        RawEntryMut::Vacant(_) => false,
    }
}

/// Removes the entry of a key, which it finds by the key's hash and a test.
pub fn take_by_hash<K: Eq + Hash, V, S: BuildHasher>(
    map: &mut LinkedHashMap<K, V, S>,
    key: &K,
) -> Option<(K, V)>
    ensures { RemovesKey K.eq (state_of map.old) (state_of map.new) key.now result }
{
    let hash = map.hasher().hash_one(key);
    match map.raw_entry_from_hash(hash, |stored| key == stored) {
        RawEntryMut::Occupied(entry) => Some(entry.remove_entry()),
        RawEntryMut::Vacant(_) => None,
    }
}
