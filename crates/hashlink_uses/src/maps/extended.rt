//! Maps that are built from many pairs or extended by them, and what the caller knows about them afterwards.
ghost use Rattle.std.specs.Prelude.{◌≡◌, ◌≤◌, [], List, length, IsOk, OnErr, OnOk, IfOk, IfErr};
ghost use Rattle.hashlink.specs.{Many.{AcceptsAll, StopsAt, InsertsPair}, Keyed.{state_of, entries_of}};

use super::drains::empty_out;
use hashlink::LinkedHashMap;
use hashlink::linked_hash_map::{ExtendError, IntoIter};
use std::alloc::{AllocError, Global};
use std::hash::{BuildHasher, Hash};

/// Builds a map from another's entries, each moved out of it: the list is the same.
pub fn rebuild<K: Eq + Hash + Drop, V: Drop, S: BuildHasher + Default + Drop>(
    alloc: Global,
    map: LinkedHashMap<K, V, S>,
) -> Result<LinkedHashMap<K, V, S>, AllocError>
    ensures { IfOk result (λ new. entries_of new ≡ entries_of map) }
{
    // the clauses of `len` state that no two keys are equal
    let _count = map.len();
    LinkedHashMap::from_iter(alloc, map)
}

/// Moves another map's entries to the back of this one. If an insert fails, the entries before it stay
/// inserted, and the error contains its pair.
pub fn append<K: Eq + Hash + Drop, V: Drop, S: BuildHasher + Drop>(
    map: &mut LinkedHashMap<K, V, S>,
    other: LinkedHashMap<K, V, S>,
) -> Result<(), ExtendError<K, V>>
    ensures all { OnOk result
        (AcceptsAll (InsertsPair K.eq) (state_of map.old) (entries_of other) (state_of map.new)) }
    ensures stopped { IfErr result (λ e. (left : List (K × V))
        × StopsAt (InsertsPair K.eq) (state_of map.old) (entries_of other)
        (state_of map.new) e.taken e.pair left) }
{
    map.extend(other)
}

/// Empties a map and moves another's entries into it, which are no more than it had. No insert fails, because
/// each uses a free node.
pub fn refill<K: Eq + Hash + Drop, V: Drop, S: BuildHasher + Drop>(
    map: &mut LinkedHashMap<K, V, S>,
    other: LinkedHashMap<K, V, S>,
) -> Result<(), ExtendError<K, V>>
    requires { length (entries_of other) ≤ length (entries_of map.old) }
    ensures { IsOk result }
{
    empty_out(map);
    append(map, other)
}

/// Moves the entries that an iterator over another map has yet to return to the back of this one. If an
/// insert fails, the entries after its pair are still left.
pub fn append_rest<K: Eq + Hash + Drop, V: Drop, S: BuildHasher + Drop>(
    map: &mut LinkedHashMap<K, V, S>,
    rest: &mut IntoIter<K, V>,
) -> Result<(), ExtendError<K, V>>
    ensures all { OnOk result
        (AcceptsAll (InsertsPair K.eq) (state_of map.old) rest.old (state_of map.new)) }
    ensures stopped { IfErr result (λ e. StopsAt (InsertsPair K.eq) (state_of map.old) rest.old
        (state_of map.new) e.taken e.pair rest.new) }
{
    map.extend_from(rest)
}

/// Returns a map of the same numbers.
pub fn copy_of<S: BuildHasher + Clone>(
    map: &LinkedHashMap<u64, u64, S>,
) -> Result<LinkedHashMap<u64, u64, S>, AllocError>
    ensures same { IfOk result (λ copy. entries_of copy ≡ entries_of map.now) }
    ensures refused { OnErr result (S.is_infallible map.now.hasher → entries_of map.now ≡ [] → ⊥) }
{
    map.clone()
}
