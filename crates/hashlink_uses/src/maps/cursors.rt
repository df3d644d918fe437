//! Cursors of entries, and what the caller knows about a map after one.
ghost use Rattle.std.specs.{Prelude.{◌≡◌, ℕ, None, Some, IfNone, MatchOption, length}, Map.lookup};
ghost use Rattle.hashlink.specs.{Cursor.following_place, Entries.place_of, Keyed.{entries_of, state_of}};
ghost use Rattle.hashlink.specs.MapState.{Inserts};

use hashlink::LinkedHashMap;
use hashlink::linked_hash_map::Entry;
use std::hash::{BuildHasher, Hash};

/// Inserts a pair directly after the entry of `before`, if that key is present, and returns what the insert
/// returned.
pub fn put_after<K: Eq + Hash + Drop, V: Drop, S: BuildHasher>(
    map: &mut LinkedHashMap<K, V, S>,
    before: K,
    key: K,
    value: V,
) -> Option<Result<Option<V>, (K, V)>>
    ensures absent { IfNone result (lookup (K.eq before) (entries_of map.old) ≡ None) }
    ensures inserts { MatchOption result (state_of map.new ≡ state_of map.old)
        (λ inserted. (j : ℕ) × (place_of (K.eq before) (entries_of map.old) ≡ Some j)
        × Inserts K.eq (state_of map.old) (state_of map.new) key value
        (following_place (length (entries_of map.old)) j) inserted) }
{
    match map.entry(before) {
        Entry::Occupied(entry) => Some(entry.cursor_mut().insert_after(key, value)),
        Entry::Vacant(_entry) => None,
    }
}
