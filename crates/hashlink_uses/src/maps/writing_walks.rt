//! Lending iterators, and what the caller knows about a map after one.
ghost use Rattle.std.specs.Prelude.{◌≡◌, ◌≢◌, ◌-◌, [], length, IsTrue, IsFalse};
ghost use Rattle.hashlink.specs.{MapState.with_value, Keyed.{state_of, entries_of}};

use hashlink::LinkedHashMap;
use std::hash::{BuildHasher, Hash};

/// Sets the value of the first entry, and returns whether there was one.
pub fn write_first<K: Eq + Hash, V: Drop, S: BuildHasher>(
    map: &mut LinkedHashMap<K, V, S>,
    value: V,
) -> bool
    ensures written { IsTrue result → state_of map.new ≡ with_value (state_of map.old) 0 value }
    ensures some { IsTrue result → entries_of map.old ≢ [] }
    ensures none { IsFalse result → entries_of map.old ≡ [] }
    ensures unchanged { IsFalse result → map.new ≡ map.old }
{
    let mut walk = map.iter_mut();
    let Some(first) = walk.next_value() else {
        return false;
    };
    *first = value;
    true
}

/// Sets the value of the last entry, and returns whether there was one.
pub fn write_last<K: Eq + Hash, V: Drop, S: BuildHasher>(
    map: &mut LinkedHashMap<K, V, S>,
    value: V,
) -> bool
    ensures written { IsTrue result
        → state_of map.new ≡ with_value (state_of map.old) (length (entries_of map.old) - 1) value }
    ensures some { IsTrue result → entries_of map.old ≢ [] }
    ensures none { IsFalse result → entries_of map.old ≡ [] }
    ensures unchanged { IsFalse result → map.new ≡ map.old }
{
    let mut walk = map.iter_mut();
    let Some(last) = walk.next_value_back() else {
        return false;
    };
    *last = value;
    true
}
