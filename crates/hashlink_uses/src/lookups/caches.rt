//! Look-ups of a cache after a change.
ghost use Rattle.std.specs.Prelude.{◌≡◌, ◌≢◌, ◌<◌, [], Some, None, IsTrue, OnOk, nat_eq, string_bytes};
ghost use Rattle.std.specs.Map.{lookup};
ghost use Rattle.hashlink.specs.{Cached.{entries_of, state_of}, Texts.is_text};

use hashlink::LruCache;
use std::hash::BuildHasher;

/// Inserts a number into a cache that holds entries. Afterwards its key has it.
pub fn put<S: BuildHasher>(
    cache: &mut LruCache<u64, u64, S>,
    key: u64,
    value: u64,
) -> Result<(), (u64, u64)>
    requires { 0 < (state_of cache.old).cap }
    ensures { OnOk result (lookup (nat_eq key) (entries_of cache.new) ≡ Some value) }
{
    cache.insert(key, value)?;
    Ok(())
}

/// Removes a key, which is absent afterwards.
pub fn forget<S: BuildHasher>(cache: &mut LruCache<u64, u64, S>, key: u64)
    ensures { lookup (nat_eq key) (entries_of cache.new) ≡ None }
{
    cache.remove(&key);
}

/// Removes a key. Every other key is found as before.
pub fn forget_one<S: BuildHasher>(
    cache: &mut LruCache<u64, u64, S>,
    key: u64,
    other: u64,
) -> Option<u64>
    requires { key ≢ other }
    ensures { result ≡ lookup (nat_eq other) (entries_of cache.old) }
{
    cache.remove(&key);
    cache.get(&other).copied()
}

/// Uses a key. Every key is found as before.
pub fn recall<S: BuildHasher>(
    cache: &mut LruCache<u64, u64, S>,
    key: u64,
    other: u64,
) -> Option<u64>
    ensures { result ≡ lookup (nat_eq other) (entries_of cache.old) }
{
    cache.get(&key);
    cache.peek(&other).copied()
}

/// Writes the value of a key that is present, and returns whether it is.
pub fn write<S: BuildHasher>(cache: &mut LruCache<u64, u64, S>, key: u64, value: u64) -> bool
    ensures { IsTrue result → lookup (nat_eq key) (entries_of cache.new) ≡ Some value }
{
    match cache.get_mut(&key) {
        Some(stored) => {
            *stored = value;
            true
        }
        None => false,
    }
}

/// Returns whether there is no least recently used entry, which holds only for an empty cache.
pub fn is_vacant<S: BuildHasher>(cache: &LruCache<u64, u64, S>) -> bool
    ensures { IsTrue result → entries_of cache.now ≡ [] }
{
    cache.peek_lru().is_none()
}

/// Inserts a number for a name into a cache that holds entries. Afterwards the name has it.
pub fn put_name<S: BuildHasher>(
    cache: &mut LruCache<String, u64, S>,
    name: String,
    value: u64,
) -> Result<(), (String, u64)>
    requires { 0 < (state_of cache.old).cap }
    ensures { OnOk result (lookup (is_text (string_bytes name)) (entries_of cache.new) ≡ Some value) }
{
    cache.insert(name, value)?;
    Ok(())
}

/// Removes a name, which is absent afterwards.
pub fn forget_name<S: BuildHasher>(cache: &mut LruCache<String, u64, S>, name: &str)
    ensures { lookup (is_text name.now) (entries_of cache.new) ≡ None }
{
    cache.remove(name);
}

/// Removes a name. Every other name is found as before.
#[tactic(auto, using(std::proofs::lemmas::Map::Text::text_keys))]
pub fn forget_one_name<S: BuildHasher>(
    cache: &mut LruCache<String, u64, S>,
    name: &str,
    other: &str,
) -> Option<u64>
    requires { name.now ≢ other.now }
    ensures { result ≡ lookup (is_text other.now) (entries_of cache.old) }
{
    cache.remove(name);
    cache.get(other).copied()
}

/// Writes the number of a name that is present, and returns whether it is.
pub fn write_name<S: BuildHasher>(
    cache: &mut LruCache<String, u64, S>,
    name: &str,
    value: u64,
) -> bool
    ensures { IsTrue result → lookup (is_text name.now) (entries_of cache.new) ≡ Some value }
{
    match cache.get_mut(name) {
        Some(stored) => {
            *stored = value;
            true
        }
        None => false,
    }
}
