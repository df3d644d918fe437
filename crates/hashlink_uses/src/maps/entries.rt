//! Calls through entries, raw entries and cursors, and what the caller knows about a map afterwards.
ghost use Rattle.std.specs.Prelude.{◌≡◌, ℕ, ◌+◌, ◌-◌, ◌<◌, ◌^◌, [], Some, Ok, IfOk, OnOk, IfErr, IfNone, ◌≢◌};
ghost use Rattle.std.specs.Prelude.{MatchOption, is_none, is_some, length, unwrap_or, true, false};
ghost use Rattle.std.specs.Map.{lookup};
ghost use Rattle.hashlink.specs.{Cursor.{following_place, preceding_place}, Keyed.{state_of, entries_of}};
ghost use Rattle.hashlink.specs.{Entry.{TakesEntry, ReplacesKey, ReplacesValue}, Entries.place_of};
ghost use Rattle.hashlink.specs.MapState.{AddsEntry, PutsEntry, Inserts, RefusesEntry, with_value};
ghost use Rattle.hashlink.specs.Steps.{RemovesKey, WritesEntry, with_value_of};

use hashlink::LinkedHashMap;
use hashlink::linked_hash_map::{Entry, RawEntryMut};
use std::hash::{BuildHasher, Hash};

/// Counts a word: the map ends as after an insert of one more than the count so far.
pub fn count_word<K: Eq + Hash + Drop, S: BuildHasher>(
    map: &mut LinkedHashMap<K, u64, S>,
    word: K,
) -> Result<(), (K, u64)>
    requires { unwrap_or (lookup (K.eq word) (entries_of map.old)) 0 + 1 < 2 ^ 64 }
    ensures counts { OnOk result
        (Inserts K.eq (state_of map.old) (state_of map.new) word
        (unwrap_or (lookup (K.eq word) (entries_of map.old)) 0 + 1) (length (entries_of map.old))
        (Ok (lookup (K.eq word) (entries_of map.old)))) }
    ensures refused { IfErr result (RefusesEntry K.eq (state_of map.old) (state_of map.new) word 0) }
{
    let count = map.entry(word).or_insert(0)?;
    *count += 1;
    Ok(())
}

/// Counts a word: adds one to the present count, or begins with one. The map ends as after `count_word`.
pub fn count_on<K: Eq + Hash + Drop, S: BuildHasher>(
    map: &mut LinkedHashMap<K, u64, S>,
    word: K,
) -> Result<(), (K, u64)>
    requires { unwrap_or (lookup (K.eq word) (entries_of map.old)) 0 + 1 < 2 ^ 64 }
    ensures counts { OnOk result
        (Inserts K.eq (state_of map.old) (state_of map.new) word
        (unwrap_or (lookup (K.eq word) (entries_of map.old)) 0 + 1) (length (entries_of map.old))
        (Ok (lookup (K.eq word) (entries_of map.old)))) }
    ensures refused { IfErr result (RefusesEntry K.eq (state_of map.old) (state_of map.new) word 1) }
{
    map.entry(word)
        .and_modify(|count| *count += 1)
        .or_insert(1)?;
    Ok(())
}

/// Inserts a pair at the back if its key is absent, and returns whether it was.
pub fn put_new<K: Eq + Hash + Drop, V: Drop, S: BuildHasher>(
    map: &mut LinkedHashMap<K, V, S>,
    key: K,
    value: V,
) -> Result<bool, (K, V)>
    ensures added { IfOk result (λ added. added ≡ is_none (lookup (K.eq key) (entries_of map.old))) }
    ensures new { result ≡ Ok true → AddsEntry K.eq (state_of map.old) (state_of map.new) key value
        (length (entries_of map.old)) }
    ensures there { result ≡ Ok false → state_of map.new ≡ state_of map.old }
    ensures refused { IfErr result (RefusesEntry K.eq (state_of map.old) (state_of map.new) key value) }
{
    match map.entry(key) {
        Entry::Occupied(entry) => {
            entry.into_key();
            Ok(false)
        }
        Entry::Vacant(entry) => {
            entry.insert(value)?;
            Ok(true)
        }
    }
}

/// Removes the key's entry through its entry, as the map's `remove_entry` does.
pub fn take<K: Eq + Hash + Drop, V, S: BuildHasher>(
    map: &mut LinkedHashMap<K, V, S>,
    key: K,
) -> Option<(K, V)>
    ensures { RemovesKey K.eq (state_of map.old) (state_of map.new) key result }
{
    match map.entry(key) {
        Entry::Occupied(entry) => Some(entry.remove_entry()),
        Entry::Vacant(_) => None,
    }
}

/// Sets the value of a key that is present and moves it to the back, as the map's `insert` does.
pub fn refresh<K: Eq + Hash + Drop, V: Drop, S: BuildHasher>(
    map: &mut LinkedHashMap<K, V, S>,
    key: K,
    value: V,
) -> Option<V>
    ensures found { is_some result ≡ is_some (lookup (K.eq key) (entries_of map.old)) }
    ensures puts { MatchOption result (state_of map.new ≡ state_of map.old)
        (PutsEntry K.eq (state_of map.old) (state_of map.new) key value (length (entries_of map.old))) }
{
    match map.entry(key) {
        Entry::Occupied(mut entry) => {
            let old = entry.insert(value);
            entry.into_key();
            Some(old)
        }
        Entry::Vacant(_entry) => None,
    }
}

/// Writes the value of a key at its place.
pub fn write_in_place<K: Eq + Hash + Drop, V: Drop, S: BuildHasher>(
    map: &mut LinkedHashMap<K, V, S>,
    key: K,
    value: V,
)
    ensures { state_of map.new ≡ with_value_of K.eq (state_of map.old) key value }
{
    if let Entry::Occupied(mut entry) = map.entry(key) {
        *entry.get_mut() = value;
        entry.into_key();
    }
}

/// Does the same, by a reference that lasts as long as the map is borrowed.
pub fn write_for_good<K: Eq + Hash + Drop, V: Drop, S: BuildHasher>(
    map: &mut LinkedHashMap<K, V, S>,
    key: K,
    value: V,
)
    ensures { state_of map.new ≡ with_value_of K.eq (state_of map.old) key value }
{
    if let Entry::Occupied(entry) = map.entry(key) {
        *entry.into_mut() = value;
    }
}

/// Does the same, by a closure. It returns the given key.
pub fn set_to_seven<K: Eq + Hash + Drop, S: BuildHasher>(
    map: &mut LinkedHashMap<K, u64, S>,
    key: K,
) -> K
    ensures { state_of map.new ≡ with_value_of K.eq (state_of map.old) key 7 }
{
    match map.entry(key).and_modify(|value| *value = 7) {
        Entry::Occupied(entry) => entry.into_key(),
        Entry::Vacant(entry) => entry.into_key(),
    }
}

/// Inserts the value that the closure makes at the back, if the key is absent.
pub fn put_seven<K: Eq + Hash + Drop, S: BuildHasher>(
    map: &mut LinkedHashMap<K, u64, S>,
    key: K,
) -> Result<(), (K, u64)>
    ensures puts { OnOk result
        (Inserts K.eq (state_of map.old) (state_of map.new) key
        (unwrap_or (lookup (K.eq key) (entries_of map.old)) 7)
        (length (entries_of map.old)) (Ok (lookup (K.eq key) (entries_of map.old)))) }
    ensures refused { IfErr result (RefusesEntry K.eq (state_of map.old) (state_of map.new) key 7) }
{
    map.entry(key).or_insert_with(|| 7)?;
    Ok(())
}

/// Writes the value of a key at its place, by its raw entry.
pub fn write_raw<K: Eq + Hash, V: Drop, S: BuildHasher>(
    map: &mut LinkedHashMap<K, V, S>,
    key: &K,
    value: V,
) -> Option<V>
    ensures found { is_some result ≡ is_some (lookup (K.eq key.now) (entries_of map.old)) }
    ensures writes { MatchOption result (map.new ≡ map.old)
        (WritesEntry K.eq (state_of map.old) (state_of map.new) key.now value) }
{
    match map.raw_entry_of(key) {
        RawEntryMut::Occupied(mut entry) => Some(entry.replace_value(value)),
        RawEntryMut::Vacant(_) => None,
    }
}

/// Inserts a pair at the back and then writes its value, by a raw entry. The key has to be absent.
pub fn put_absent<K: Eq + Hash, V: Drop, S: BuildHasher>(
    map: &mut LinkedHashMap<K, V, S>,
    key: K,
    value: V,
    written: V,
) -> Result<bool, (K, V)>
where
    K: Drop,
    ensures added { IfOk result (λ added. added ≡ is_none (lookup (K.eq key) (entries_of map.old))) }
    ensures put { result ≡ Ok true → AddsEntry K.eq (state_of map.old) (state_of map.new) key written
        (length (entries_of map.old)) }
    ensures there { result ≡ Ok false → map.new ≡ map.old }
    ensures refused { IfErr result (RefusesEntry K.eq (state_of map.old) (state_of map.new) key value) }
{
    match map.raw_entry_of(&key) {
        RawEntryMut::Occupied(_entry) => Ok(false),
        RawEntryMut::Vacant(entry) => {
            *entry.insert_entry(key, value)?.into_mut() = written;
            Ok(true)
        }
    }
}

/// Replaces the stored key by the given equal key, by a raw entry, and returns the old one.
pub fn renew_key<K: Eq + Hash + Drop, V, S: BuildHasher>(
    map: &mut LinkedHashMap<K, V, S>,
    key: K,
) -> Option<K>
    ensures found { is_some result ≡ is_some (lookup (K.eq key) (entries_of map.old)) }
    ensures replaces { MatchOption result (map.new ≡ map.old)
        (λ stored. (j : ℕ) × (place_of (K.eq key) (entries_of map.old) ≡ Some j)
        × ReplacesKey (state_of map.old) (state_of map.new) j key stored) }
{
    let found = map.raw_entry_of(&key);
    match found {
        RawEntryMut::Occupied(mut entry) => Some(entry.replace_key(key)),
        RawEntryMut::Vacant(_) => None,
    }
}

/// Removes the last entry by its raw entry, as the map's `pop_back` does.
pub fn take_last<K: Eq + Hash, V, S: BuildHasher>(
    map: &mut LinkedHashMap<K, V, S>,
) -> Option<(K, V)>
    ensures none { IfNone result (entries_of map.old ≡ []) }
    ensures takes { MatchOption result (map.new ≡ map.old)
        (TakesEntry (state_of map.old) (state_of map.new) (length (entries_of map.old) - 1)) }
{
    Some(map.back_entry()?.remove_entry())
}

/// Sets the value of the first entry, by its raw entry.
pub fn set_front<K: Eq + Hash, V: Drop, S: BuildHasher>(
    map: &mut LinkedHashMap<K, V, S>,
    value: V,
) -> Option<V>
    ensures none { IfNone result (entries_of map.old ≡ []) }
    ensures replaces { MatchOption result (map.new ≡ map.old)
        (ReplacesValue (state_of map.old) (state_of map.new) 0 value) }
{
    match map.front_entry() {
        Some(mut entry) => Some(entry.replace_value(value)),
        None => None,
    }
}

/// Removes the entry before the last, by a cursor.
pub fn take_before_last<K: Eq + Hash, V, S: BuildHasher>(
    map: &mut LinkedHashMap<K, V, S>,
) -> Option<(K, V)>
    ensures none { IfNone result (length (entries_of map.old) < 2) }
    ensures takes { MatchOption result (map.new ≡ map.old)
        (TakesEntry (state_of map.old) (state_of map.new)
        (preceding_place (length (entries_of map.old)) (length (entries_of map.old) - 1))) }
{
    let mut cursor = map.cursor_back_mut();
    cursor.move_prev();
    Some(cursor.into_entry()?.remove_entry())
}

/// Inserts a pair directly after the first, by a cursor.
pub fn put_second<K: Eq + Hash + Drop, V: Drop, S: BuildHasher>(
    map: &mut LinkedHashMap<K, V, S>,
    key: K,
    value: V,
) -> Result<Option<V>, (K, V)>
    ensures { Inserts K.eq (state_of map.old) (state_of map.new) key value
        (following_place (length (entries_of map.old)) 0) result }
{
    map.cursor_front_mut().insert_after(key, value)
}

/// Writes the value of the first entry, by a cursor, and returns whether there is one.
pub fn write_first<K: Eq + Hash, V: Drop, S: BuildHasher>(
    map: &mut LinkedHashMap<K, V, S>,
    value: V,
) -> bool
    ensures there { result ≡ true → state_of map.new ≡ with_value (state_of map.old) 0 value }
    ensures some { result ≡ true → entries_of map.old ≢ [] }
    ensures none { result ≡ false → entries_of map.old ≡ [] }
    ensures unchanged { result ≡ false → state_of map.new ≡ state_of map.old }
{
    let mut cursor = map.cursor_front_mut();
    match cursor.current_value() {
        Some(first) => {
            *first = value;
            true
        }
        None => false,
    }
}
