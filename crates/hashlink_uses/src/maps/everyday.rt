//! Everyday calls of a map. Each caller is proved without a file of proof.
ghost use Rattle.std.specs.Prelude.{[], ◌∷◌, ◌++◌, ◌≡◌, Contains, IfErr, IfOk, IfSome, IsOk, IsSome};
ghost use Rattle.std.specs.Prelude.{MatchOption, OnErr, OnOk, length};
ghost use Rattle.std.specs.Map.{lookup, lookup_entry, remove_entry};
ghost use Rattle.hashlink.specs.{Entries.{IsEntries, put}, Keyed.entries_of};

use hashlink::LinkedHashMap;
use std::hash::{BuildHasher, Hash};

/// Puts a pair last, and returns the value that it replaces.
pub fn write<K: Eq + Hash + Drop, V, S: BuildHasher>(
    map: &mut LinkedHashMap<K, V, S>,
    key: K,
    value: V,
) -> Result<Option<V>, (K, V)>
    ensures entries { OnOk result (entries_of map.new
        ≡ put K.eq (entries_of map.old) key value (length (entries_of map.old))) }
    ensures old { IfOk result (λ old. old ≡ lookup (K.eq key) (entries_of map.old)) }
    ensures there { IsSome (lookup (K.eq key) (entries_of map.old)) → IsOk result }
    ensures unchanged { OnErr result (entries_of map.new ≡ entries_of map.old) }
    ensures handed_back { IfErr result (λ pair. pair ≡ (key, value)) }
{
    map.insert(key, value)
}

/// Puts a pair first, and returns the value that it replaces.
pub fn write_first<K: Eq + Hash + Drop, V, S: BuildHasher>(
    map: &mut LinkedHashMap<K, V, S>,
    key: K,
    value: V,
) -> Result<Option<V>, (K, V)>
    ensures entries { OnOk result (entries_of map.new ≡ put K.eq (entries_of map.old) key value 0) }
    ensures old { IfOk result (λ old. old ≡ lookup (K.eq key) (entries_of map.old)) }
    ensures unchanged { OnErr result (entries_of map.new ≡ entries_of map.old) }
    ensures handed_back { IfErr result (λ pair. pair ≡ (key, value)) }
{
    map.insert_front(key, value)
}

/// Returns the value of a key.
pub fn read<K: Eq + Hash, V: Copy, S: BuildHasher>(
    map: &LinkedHashMap<K, V, S>,
    key: &K,
) -> Option<V>
    ensures found { result ≡ lookup (K.eq key.now) (entries_of map.now) }
    ensures distinct { IsEntries K.eq (entries_of map.now) }
{
    map.get(key).copied()
}

/// Removes the entry of a key, and returns its value.
pub fn erase<K: Eq + Hash + Drop, V, S: BuildHasher>(
    map: &mut LinkedHashMap<K, V, S>,
    key: &K,
) -> Option<V>
    ensures found { result ≡ lookup (K.eq key.now) (entries_of map.old) }
    ensures entries { entries_of map.new ≡ remove_entry (K.eq key.now) (entries_of map.old) }
    ensures distinct { IsEntries K.eq (entries_of map.new) }
{
    map.remove(key)
}

/// Removes the entry of a key, and returns it. The returned entry was in the map.
pub fn erase_entry<K: Eq + Hash, V, S: BuildHasher>(
    map: &mut LinkedHashMap<K, V, S>,
    key: &K,
) -> Option<(K, V)>
    ensures found { result ≡ lookup_entry (K.eq key.now) (entries_of map.old) }
    ensures entries { entries_of map.new ≡ remove_entry (K.eq key.now) (entries_of map.old) }
    ensures held { IfSome result (Contains (entries_of map.old)) }
{
    map.remove_entry(key)
}

/// Removes the first entry, and returns it.
pub fn take_first_entry<K: Eq + Hash, V, S: BuildHasher>(
    map: &mut LinkedHashMap<K, V, S>,
) -> Option<(K, V)>
    ensures { MatchOption result ((entries_of map.old ≡ []) × (entries_of map.new ≡ []))
        (λ entry. entries_of map.old ≡ entry ∷ entries_of map.new) }
{
    map.pop_front()
}

/// Removes the last entry, and returns it.
pub fn take_last_entry<K: Eq + Hash, V, S: BuildHasher>(
    map: &mut LinkedHashMap<K, V, S>,
) -> Option<(K, V)>
    ensures { MatchOption result ((entries_of map.old ≡ []) × (entries_of map.new ≡ []))
        (λ entry. entries_of map.old ≡ entries_of map.new ++ entry ∷ []) }
{
    map.pop_back()
}
