//! One step on a map's entry.
ghost use Rattle.std.specs.Prelude.{◌≡◌, [], ◌∷◌, Some, slice_get};
ghost use Rattle.hashlink_core.specs.Keyed.{state_of};
ghost use Rattle.hashlink_map.specs.Entry.{occupied_map, occupied_place, occupied_state};
ghost use Rattle.hashlink_run.specs.EntrySteps.{EntrySteps, ReadAtEntry};
ghost use Rattle.hashlink_run.specs.Reads.{CallableOn, ClosureSays, SaysOf};

use crate::{EntryStep, Reply};
use hashlink_map::{Entry, LinkedHashMap, OccupiedEntry};
use std::hash::{BuildHasher, Hash};

/// Runs the step at the key's place in the map, with the given key, and returns its reply. `says` has to be
/// callable on the pair that the step reads. It has the cost of the entry's methods that the step names. If
/// it fails to allocate, it replies `Refused` with the pair.
pub fn reply_of_entry<K, V, S, B, F>(
    map: &mut LinkedHashMap<K, V, S>,
    key: K,
    step: EntryStep<V>,
    says: &F,
) -> Reply<K, V, B>
where
    K: Eq + Hash + Drop,
    V: Drop,
    S: BuildHasher,
    F: Fn(&K, &V) -> B,
    requires says { CallableOn F.Fn says.now (ReadAtEntry K.eq (state_of map.old) key step) }
    ensures { EntrySteps K.eq (ClosureSays F.Fn says.now) (state_of map.old) key step (result ∷ [])
        (state_of map.new) }
{
    // If no method has consumed an occupied entry, `into_key` ends it. If it went out of scope with a key of
    // any type, the proof would know nothing about the map.
    match map.entry(key) {
        Entry::Occupied(mut entry) => match step {
            EntryStep::Get => Reply::Seen(Some(said_of_entry(entry, says))),
            EntryStep::OrInsert(_) | EntryStep::ToBack => {
                entry.to_back();
                Reply::Seen(Some(said_of_entry(entry, says)))
            }
            EntryStep::Insert(value) => {
                let old = entry.insert(value);
                entry.into_key();
                Reply::Value(Some(old))
            }
            EntryStep::InsertEntry(value) => Reply::Pair(Some(entry.insert_entry(value))),
            EntryStep::ReplaceEntry(value) => Reply::Pair(Some(entry.replace_entry(value))),
            EntryStep::ReplaceKey => Reply::Key(Some(entry.replace_key())),
            EntryStep::ToFront => {
                entry.to_front();
                Reply::Seen(Some(said_of_entry(entry, says)))
            }
            EntryStep::Remove => Reply::Value(Some(entry.remove())),
            EntryStep::RemoveEntry => Reply::Pair(Some(entry.remove_entry())),
        },
        // The loan or the pair that an insert returns is bound as a whole, so that the proof knows what
        // becomes of the map.
        Entry::Vacant(entry) => match step {
            EntryStep::Get | EntryStep::ToFront | EntryStep::ToBack => Reply::Seen(None),
            EntryStep::OrInsert(value) => match entry.insert(value) {
                Ok(_value) => Reply::Seen(None),
                Err(pair) => Reply::Refused(pair.0, pair.1),
            },
            EntryStep::Insert(value) => match entry.insert(value) {
                Ok(_value) => Reply::Value(None),
                Err(pair) => Reply::Refused(pair.0, pair.1),
            },
            EntryStep::InsertEntry(value) => match entry.insert(value) {
                Ok(_value) => Reply::Pair(None),
                Err(pair) => Reply::Refused(pair.0, pair.1),
            },
            EntryStep::ReplaceEntry(_) | EntryStep::RemoveEntry => Reply::Pair(None),
            EntryStep::ReplaceKey => Reply::Key(None),
            EntryStep::Remove => Reply::Value(None),
        },
    }
}

// Returns what the closure returns for the entry's pair, and ends the entry.
fn said_of_entry<K, V, S, B, F>(entry: OccupiedEntry<'_, K, V, S>, says: &F) -> B
where
    K: Eq + Hash + Drop,
    S: BuildHasher,
    F: Fn(&K, &V) -> B,
    requires says { CallableOn F.Fn says.now (λ pair.
        slice_get (occupied_state entry).map.entries (occupied_place entry) ≡ Some pair) }
    ensures said { SaysOf (ClosureSays F.Fn says.now)
        (slice_get (occupied_state entry.entry).map.entries (occupied_place entry.entry)) (Some result) }
    ensures unchanged { entry.exit.0.now ≡ (occupied_map entry.entry).now }
{
    let said = says(entry.key(), entry.get());
    entry.into_key();
    said
}
