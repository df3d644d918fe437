//! A caller of a vacant raw entry, for a must-fail edit. An edit proves its crate once more, and this crate is
//! small.
#![tactic(auto)]

use hashlink::LinkedHashMap;
use hashlink::linked_hash_map::RawEntryMut;

/// Inserts a number under another at the back, by a raw entry, if the key is absent, and returns whether it
/// was.
pub fn put_number(
    map: &mut LinkedHashMap<u64, u64>,
    key: u64,
    value: u64,
) -> Result<bool, (u64, u64)> {
    match map.raw_entry_of(&key) {
        RawEntryMut::Occupied(_) => Ok(false),
        RawEntryMut::Vacant(entry) => {
            entry.insert(key, value)?;
            Ok(true)
        }
    }
}
