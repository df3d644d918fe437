//! Look-ups of a map after a change.
ghost use Rattle.std.specs.Prelude.{◌≡◌, ◌≢◌, ℕ, [], Some, None, IfOk, IsTrue, OnOk, nat_eq, string_bytes};
ghost use Rattle.std.specs.Map.{lookup};
ghost use Rattle.hashlink.specs.{Keyed.entries_of, Texts.is_text};

use hashlink::LinkedHashMap;
use std::hash::BuildHasher;

/// Inserts a number. Afterwards its key has it, and each other key is as before.
pub fn put<S: BuildHasher>(
    map: &mut LinkedHashMap<u64, u64, S>,
    key: u64,
    value: u64,
) -> Result<(), (u64, u64)>
    ensures there { OnOk result (lookup (nat_eq key) (entries_of map.new) ≡ Some value) }
    ensures others { OnOk result ((other : ℕ) → other ≢ key
        → lookup (nat_eq other) (entries_of map.new) ≡ lookup (nat_eq other) (entries_of map.old)) }
{
    map.insert(key, value)?;
    Ok(())
}

/// Inserts two numbers, and returns the first as it is found afterwards.
pub fn put_both<S: BuildHasher>(
    map: &mut LinkedHashMap<u64, u64, S>,
    first: u64,
    second: u64,
) -> Result<Option<u64>, (u64, u64)>
    requires { first ≢ second }
    ensures { IfOk result (λ found. found ≡ Some 1) }
{
    map.insert(first, 1)?;
    map.insert(second, 2)?;
    Ok(map.get(&first).copied())
}

/// Removes a key, which is absent afterwards.
pub fn forget<S: BuildHasher>(map: &mut LinkedHashMap<u64, u64, S>, key: u64)
    ensures { lookup (nat_eq key) (entries_of map.new) ≡ None }
{
    map.remove(&key);
}

/// Removes a key. Every other key is found as before.
pub fn forget_one<S: BuildHasher>(
    map: &mut LinkedHashMap<u64, u64, S>,
    key: u64,
    other: u64,
) -> Option<u64>
    requires { key ≢ other }
    ensures found { result ≡ lookup (nat_eq other) (entries_of map.old) }
    ensures unchanged { lookup (nat_eq other) (entries_of map.new)
        ≡ lookup (nat_eq other) (entries_of map.old) }
{
    map.remove(&key);
    map.get(&other).copied()
}

/// Writes the value of a key that is present, and returns whether it is.
pub fn write<S: BuildHasher>(map: &mut LinkedHashMap<u64, u64, S>, key: u64, value: u64) -> bool
    ensures { IsTrue result → lookup (nat_eq key) (entries_of map.new) ≡ Some value }
{
    match map.get_mut(&key) {
        Some(stored) => {
            *stored = value;
            true
        }
        None => false,
    }
}

/// Returns whether there is no entry at the front, which holds only for an empty map.
pub fn is_vacant<S: BuildHasher>(map: &LinkedHashMap<u64, u64, S>) -> bool
    ensures { IsTrue result → entries_of map.now ≡ [] }
{
    map.front().is_none()
}

/// Inserts a number for a name. Afterwards the name has it.
pub fn put_name<S: BuildHasher>(
    map: &mut LinkedHashMap<String, u64, S>,
    name: String,
    value: u64,
) -> Result<(), (String, u64)>
    ensures { OnOk result (lookup (is_text (string_bytes name)) (entries_of map.new) ≡ Some value) }
{
    map.insert(name, value)?;
    Ok(())
}

/// Removes a name, which is absent afterwards.
pub fn forget_name<S: BuildHasher>(map: &mut LinkedHashMap<String, u64, S>, name: &str)
    ensures { lookup (is_text name.now) (entries_of map.new) ≡ None }
{
    map.remove(name);
}

/// Removes a name. Every other name is found as before.
#[tactic(auto, using(std::proofs::lemmas::Map::Text::text_keys))]
pub fn forget_one_name<S: BuildHasher>(
    map: &mut LinkedHashMap<String, u64, S>,
    name: &str,
    other: &str,
) -> Option<u64>
    requires { name.now ≢ other.now }
    ensures found { result ≡ lookup (is_text other.now) (entries_of map.old) }
    ensures unchanged { lookup (is_text other.now) (entries_of map.new)
        ≡ lookup (is_text other.now) (entries_of map.old) }
{
    map.remove(name);
    map.get(other).copied()
}

/// Writes the number of a name that is present, and returns whether it is.
pub fn write_name<S: BuildHasher>(
    map: &mut LinkedHashMap<String, u64, S>,
    name: &str,
    value: u64,
) -> bool
    ensures { IsTrue result → lookup (is_text name.now) (entries_of map.new) ≡ Some value }
{
    match map.get_mut(name) {
        Some(stored) => {
            *stored = value;
            true
        }
        None => false,
    }
}
