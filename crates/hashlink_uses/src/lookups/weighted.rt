//! Look-ups of a cache with a budget after a change.
ghost use Rattle.std.specs.{Prelude.{◌≡◌, ◌≢◌, Some, None, OnOk, nat_eq, string_bytes}, Map.lookup};
ghost use Rattle.hashlink.specs.{Answers.without_weight, Weighed.entries_of, Texts.is_text};

use hashlink::weighted::{WeightError, WeightedCache};
use std::hash::BuildHasher;

/// Inserts a number with its weight. Afterwards its key has both.
pub fn put<S: BuildHasher>(
    cache: &mut WeightedCache<u64, u64, S>,
    key: u64,
    value: u64,
    weight: u64,
) -> Result<(), WeightError<u64, u64>>
    ensures { OnOk result (lookup (nat_eq key) (entries_of cache.new) ≡ Some (value, weight)) }
{
    cache.insert(key, value, weight)?;
    Ok(())
}

/// Removes a key, which is absent afterwards.
pub fn forget<S: BuildHasher>(cache: &mut WeightedCache<u64, u64, S>, key: u64)
    ensures { lookup (nat_eq key) (entries_of cache.new) ≡ None }
{
    cache.remove(&key);
}

/// Removes a key. Every other key is found as before.
pub fn forget_one<S: BuildHasher>(
    cache: &mut WeightedCache<u64, u64, S>,
    key: u64,
    other: u64,
) -> Option<u64>
    requires { key ≢ other }
    ensures { result ≡ without_weight (lookup (nat_eq other) (entries_of cache.old)) }
{
    cache.remove(&key);
    cache.get(&other).copied()
}

/// Inserts a number with its weight for a name. Afterwards the name has both.
pub fn put_name<S: BuildHasher>(
    cache: &mut WeightedCache<String, u64, S>,
    name: String,
    value: u64,
    weight: u64,
) -> Result<(), WeightError<String, u64>>
    ensures { OnOk result
        (lookup (is_text (string_bytes name)) (entries_of cache.new) ≡ Some (value, weight)) }
{
    cache.insert(name, value, weight)?;
    Ok(())
}

/// Removes a name, which is absent afterwards.
pub fn forget_name<S: BuildHasher>(cache: &mut WeightedCache<String, u64, S>, name: &str)
    ensures { lookup (is_text name.now) (entries_of cache.new) ≡ None }
{
    cache.remove(name);
}

/// Removes a name. Every other name is found as before.
#[tactic(auto, using(std::proofs::lemmas::Map::Text::text_keys))]
pub fn forget_one_name<S: BuildHasher>(
    cache: &mut WeightedCache<String, u64, S>,
    name: &str,
    other: &str,
) -> Option<u64>
    requires { name.now ≢ other.now }
    ensures { result ≡ without_weight (lookup (is_text other.now) (entries_of cache.old)) }
{
    cache.remove(name);
    cache.get(other).copied()
}
