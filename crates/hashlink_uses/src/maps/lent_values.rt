//! Values that a map lends for writing, and what the caller knows about the map afterwards.
ghost use Rattle.std.specs.{Prelude.{◌≡◌, IsFalse, IsTrue, OnOk, Some, is_some, length}, Map.lookup};
ghost use Rattle.hashlink.specs.{Keyed.{entries_of, state_of}, Lookups.Updates};
ghost use Rattle.hashlink.specs.Steps.{MovesAndWrites, with_value_of};

use hashlink::LinkedHashMap;
use std::hash::{BuildHasher, Hash};

/// Writes the value of a key at its place, and returns whether the key is present.
pub fn write<K: Eq + Hash, V: Drop, S: BuildHasher>(
    map: &mut LinkedHashMap<K, V, S>,
    key: &K,
    value: V,
) -> bool
    ensures found { result ≡ is_some (lookup (K.eq key.now) (entries_of map.old)) }
    ensures there { IsTrue result
        → state_of map.new ≡ with_value_of K.eq (state_of map.old) key.now value }
    ensures absent { IsFalse result → state_of map.new ≡ state_of map.old }
{
    match map.get_mut(key) {
        Some(stored) => {
            *stored = value;
            true
        }
        None => false,
    }
}

/// Moves the entry of a key to the front and writes its value, and returns whether the key is present.
pub fn write_to_front<K: Eq + Hash, V: Drop, S: BuildHasher>(
    map: &mut LinkedHashMap<K, V, S>,
    key: &K,
    value: V,
) -> bool
    ensures found { result ≡ is_some (lookup (K.eq key.now) (entries_of map.old)) }
    ensures there { IsTrue result
        → MovesAndWrites K.eq (state_of map.old) (state_of map.new) key.now 0 value }
    ensures absent { IsFalse result → state_of map.new ≡ state_of map.old }
{
    match map.to_front(key) {
        Some(stored) => {
            *stored = value;
            true
        }
        None => false,
    }
}

/// Moves the entry of a key to the back and writes its value, and returns whether the key is present.
pub fn write_to_back<K: Eq + Hash, V: Drop, S: BuildHasher>(
    map: &mut LinkedHashMap<K, V, S>,
    key: &K,
    value: V,
) -> bool
    ensures found { result ≡ is_some (lookup (K.eq key.now) (entries_of map.old)) }
    ensures there { IsTrue result → MovesAndWrites K.eq (state_of map.old) (state_of map.new) key.now
        (length (entries_of map.old)) value }
    ensures absent { IsFalse result → state_of map.new ≡ state_of map.old }
{
    match map.to_back(key) {
        Some(stored) => {
            *stored = value;
            true
        }
        None => false,
    }
}

/// Writes the value of a key, which is then the last one, and first makes a value if the key is absent.
pub fn write_or_make<K: Eq + Hash + Drop, S: BuildHasher, F: FnOnce() -> u64 + Drop>(
    map: &mut LinkedHashMap<K, u64, S>,
    key: K,
    value: u64,
    make: F,
) -> Result<(), (K, u64)>
    requires callable { F.pre make }
    ensures { OnOk result (Updates K.eq (entries_of map.old) (entries_of map.new) key (Some value)) }
{
    *map.get_or_insert_with(key, make)? = value;
    Ok(())
}
