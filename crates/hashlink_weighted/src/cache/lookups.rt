//! Reads, uses and removals. Each hashes the key once and does not allocate.
ghost use Rattle.std.specs.{Prelude.{◌≡◌, None, length, option_copied}, Borrow.sem, Map.lookup};
ghost use Rattle.hashlink_model.specs.{Entries.{IsEntries, moved_match}, Lookups.{KeepsLookups, UpdatesBy}};
ghost use Rattle.hashlink_weighted.specs.Weighed.{entries_of, WeightedRemovesMatch};

use super::WeightedCache;
use hashlink_map::Equivalent;
use std::hash::{BuildHasher, Hash};

// Look-ups are inlined, as the map's are.
impl<K: Eq + Hash, V, S: BuildHasher> WeightedCache<K, V, S> {
    ghost use Rattle.hashlink_weighted.specs.{Answers.without_weight, Lends.EndsUsed};

    /// Returns a reference to the value of the key, or `None` if it is absent. The order does not change. It
    /// hashes the key once.
    #[inline(always)]
    pub fn peek<Q: Equivalent<K>>(&self, key: Q) -> Option<&V>
        ensures { option_copied result ≡ without_weight (lookup (Q.matches key) (entries_of self.now)) }
    {
        let (value, _) = self.map.get(key)?;
        Some(value)
    }

    /// Returns a reference to the value of the key, and moves its entry to the back. If the key is absent, it
    /// returns `None` and nothing changes. It hashes the key once, and stores at most six links.
    #[inline(always)]
    pub fn get<Q: Equivalent<K>>(&mut self, key: Q) -> Option<&V>
        ensures* used { sem 𝓛 (EndsUsed K.row V.row S.row S.Hasher.row K.Hash S.BuildHasher S.Hasher.Hasher
            self.entry (Q.matches key)) }
        ensures keeps { KeepsLookups K.eq (Q.matches key) (entries_of self.old)
            (moved_match (Q.matches key) (entries_of self.old) (length (entries_of self.old))) }
        ensures value { option_copied result ≡ without_weight (lookup (Q.matches key) (entries_of self.old)) }
        ensures distinct { IsEntries K.eq (entries_of self.old) }
    {
        match self.map.to_back(key) {
            Some(pair) => Some(&pair.0),
            None => None,
        }
    }

    /// Removes the entry of the key, and returns its value, or `None` if the key is absent. It looks the key
    /// up as `peek` does, and stores at most three links. The next insert of an absent key uses the node of
    /// the removed entry.
    #[inline(always)]
    pub fn remove<Q: Equivalent<K>>(&mut self, key: Q) -> Option<V>
    where
        K: Drop,
        ensures value { result ≡ without_weight (lookup (Q.matches key) (entries_of self.old)) }
        ensures removes { WeightedRemovesMatch (Q.matches key) self.old self.new }
        ensures updates { UpdatesBy K.eq (Q.matches key) (entries_of self.old) (entries_of self.new) None }
        ensures distinct { IsEntries K.eq (entries_of self.new) }
    {
        let (value, weight) = self.map.remove(key)?;
        self.total -= weight;
        Some(value)
    }
}
