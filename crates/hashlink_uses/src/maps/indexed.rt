//! Writes through an index, and what the caller knows about a map after one.
ghost use Rattle.std.specs.Prelude.{◌≡◌};
ghost use Rattle.hashlink.specs.{Steps.with_value_of, Keyed.state_of, Indexed.HasKey};

use hashlink::LinkedHashMap;
use std::hash::{BuildHasher, Hash};

/// Sets the value of a key that is present, at its place.
pub fn set_indexed<K: Eq + Hash, V: Drop, S: BuildHasher>(
    map: &mut LinkedHashMap<K, V, S>,
    key: &K,
    value: V,
)
    requires { HasKey K.eq map.old key.now }
    ensures { state_of map.new ≡ with_value_of K.eq (state_of map.old) key.now value }
{
    map[key] = value;
}
