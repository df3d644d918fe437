//! Hashing of maps: a hasher is fed key, value, key, value in order, and no length.
ghost use Rattle.hashlink_map.specs.Compared.{map_hash_input, maps_alike};

use crate::map::LinkedHashMap;
use std::hash::{BuildHasher, Hash, Hasher};

/// Hashes a map by its entries in order, key before value, so that equal maps have equal hashes. It takes
/// linear time in the number of entries.
impl<K: Eq + Hash, V: Hash, S: BuildHasher> Hash for LinkedHashMap<K, V, S> {
    ghost hash_input = { map_hash_input K.hash_input V.hash_input };

    ghost respects_eq = { maps_alike K.respects_eq V.respects_eq };

    fn hash<H: Hasher>(&self, state: &mut H) {
        let mut rest = self.iter();
        while let Some((key, value)) = rest.next() {
            key.hash(state);
            value.hash(state);
        }
    }
}
