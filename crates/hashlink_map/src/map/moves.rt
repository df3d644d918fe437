//! Moves of an entry to either end. A move hashes the key once, does not allocate, and stores at most six
//! links.
ghost use Rattle.std.specs.{Prelude.{◌≡◌, IfSome, length}, Borrow.sem, Option.option_copied_mut, Map.lookup};
ghost use Rattle.hashlink_core.specs.Keyed.{entries_of};
ghost use Rattle.hashlink_model.specs.{Entries.{IsEntries, moved_match}, Lookups.{KeepsLookups, UpdatesLent}};

use super::LinkedHashMap;
use hashlink_core::Equivalent;
use std::hash::{BuildHasher, Hash};

impl<K: Eq + Hash, V, S: BuildHasher> LinkedHashMap<K, V, S> {
    ghost use Rattle.hashlink_map.specs.Lends.{LendsMoved};

    /// Moves the entry of the key to the front, and returns a mutable reference to its value. If the key is
    /// absent, it returns `None` and nothing changes. It hashes the key once, and stores at most six links.
    #[inline(always)]
    pub fn to_front<Q: Equivalent<K>>(&mut self, key: Q) -> Option<&mut V>
        ensures* lends { sem 𝓛 (LendsMoved K.row V.row S.row S.Hasher.row K.Hash S.BuildHasher S.Hasher.Hasher
            self.entry (Q.matches key) 0 result) }
        ensures updates { IfSome result (λ _. UpdatesLent K.eq (Q.matches key) (entries_of self.old)
            (moved_match (Q.matches key) (entries_of self.old) 0)) }
        ensures keeps { KeepsLookups K.eq (Q.matches key) (entries_of self.old)
            (moved_match (Q.matches key) (entries_of self.old) 0) }
        ensures value { option_copied_mut result ≡ lookup (Q.matches key) (entries_of self.old) }
        ensures distinct { IsEntries K.eq (entries_of self.old) }
    {
        match self.find(key) {
            Some(node) => {
                self.list.move_after(node, None);
                Some(self.list.value_mut(node))
            }
            None => None,
        }
    }

    /// Moves the entry of the key to the back, and returns a mutable reference to its value. If the key is
    /// absent, it returns `None` and nothing changes. It hashes the key once, and stores at most six links.
    #[inline(always)]
    pub fn to_back<Q: Equivalent<K>>(&mut self, key: Q) -> Option<&mut V>
        ensures* lends { sem 𝓛 (LendsMoved K.row V.row S.row S.Hasher.row K.Hash S.BuildHasher S.Hasher.Hasher
            self.entry (Q.matches key) (length (entries_of self.old)) result) }
        ensures updates { IfSome result (λ _. UpdatesLent K.eq (Q.matches key) (entries_of self.old)
            (moved_match (Q.matches key) (entries_of self.old) (length (entries_of self.old)))) }
        ensures keeps { KeepsLookups K.eq (Q.matches key) (entries_of self.old)
            (moved_match (Q.matches key) (entries_of self.old) (length (entries_of self.old))) }
        ensures value { option_copied_mut result ≡ lookup (Q.matches key) (entries_of self.old) }
        ensures distinct { IsEntries K.eq (entries_of self.old) }
    {
        match self.find(key) {
            Some(node) => {
                self.list.move_before(node, None);
                Some(self.list.value_mut(node))
            }
            None => None,
        }
    }
}
