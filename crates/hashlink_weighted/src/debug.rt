//! Debug output.
use crate::cache::WeightedCache;
use std::fmt;
use std::hash::{BuildHasher, Hash};

/// Formats the keys with their values, from back to front.
impl<K: Eq + Hash + fmt::Debug, V: fmt::Debug, S: BuildHasher> fmt::Debug
    for WeightedCache<K, V, S> {
    fn fmt<W: fmt::Write>(&self, f: &mut fmt::Formatter<W>) -> fmt::Result {
        let mut map = f.debug_map();
        for (key, value, _) in self.iter().rev() {
            map.entry(key, value);
        }
        map.finish()
    }
}
