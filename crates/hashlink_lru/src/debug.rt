//! Debug output: the entries, from back to front.
use crate::cache::LruCache;
use std::fmt;
use std::hash::{BuildHasher, Hash};

impl<K: Eq + Hash + fmt::Debug, V: fmt::Debug, S: BuildHasher> fmt::Debug for LruCache<K, V, S> {
    fn fmt<W: fmt::Write>(&self, f: &mut fmt::Formatter<W>) -> fmt::Result {
        f.debug_map().entries(self.iter().rev()).finish()
    }
}
