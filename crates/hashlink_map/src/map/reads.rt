//! Reads of a map. Each lookup hashes the key once, and looks at the entries of one bucket.
ghost use Rattle.std.specs.Prelude.{◌≡◌, [], None, IfNone, IfSome, MatchOption, is_some};
ghost use Rattle.std.specs.{Prelude.option_copied, Borrow.sem, Option.{option_map, option_copied_mut}};
ghost use Rattle.std.specs.{Map.{lookup, lookup_entry}, Map.Iter.deref_pair};
ghost use Rattle.hashlink_model.specs.{Entries.{IsEntries, place_of}, Lookups.UpdatesLent};
ghost use Rattle.hashlink_model.specs.Walk.{first_of, last_of};
ghost use Rattle.hashlink_core.specs.Keyed.{entries_of, HoldsMatch};

use super::LinkedHashMap;
use hashlink_core::{Equivalent, Node};
use std::hash::{BuildHasher, Hash};

impl<K: Eq + Hash, V, S: BuildHasher> LinkedHashMap<K, V, S> {
    ghost use Rattle.hashlink_map.specs.Lends.{LendsValueOf, LendsLastValue};

    /// Returns the node of the key, or `None` if it is absent. It hashes the key once.
    #[inline(always)]
    pub(crate) fn find<Q: Equivalent<K>>(&self, key: Q) -> Option<Node>
        ensures found { MatchOption result (place_of (Q.matches key) (entries_of self.now) ≡ None)
            (HoldsMatch (Q.matches key) self.now.nodes) }
        ensures distinct { IsEntries K.eq (entries_of self.now) }
    {
        let found = self.list.find(self.list.hash_of(key), key)?;
        Some(found.node)
    }

    /// Returns a reference to the value of the key, or `None` if it is absent. The order does not change. It
    /// hashes the key once.
    #[inline(always)]
    pub fn get<Q: Equivalent<K>>(&self, key: Q) -> Option<&V>
        ensures found { option_copied result ≡ lookup (Q.matches key) (entries_of self.now) }
        ensures distinct { IsEntries K.eq (entries_of self.now) }
    {
        let (_, value) = self.get_key_value(key)?;
        Some(value)
    }

    /// Returns the stored pair of the key, or `None` if it is absent. The stored key may be a different
    /// object from the given one. The order does not change. It hashes the key once.
    #[inline(always)]
    pub fn get_key_value<Q: Equivalent<K>>(&self, key: Q) -> Option<(&K, &V)>
        ensures found { option_map deref_pair result ≡ lookup_entry (Q.matches key) (entries_of self.now) }
        ensures distinct { IsEntries K.eq (entries_of self.now) }
    {
        let node = self.find(key)?;
        Some(self.pair_at(node))
    }

    /// Returns whether the key is present. It hashes the key once.
    #[inline(always)]
    pub fn contains_key<Q: Equivalent<K>>(&self, key: Q) -> bool
        ensures found { result ≡ is_some (lookup (Q.matches key) (entries_of self.now)) }
        ensures distinct { IsEntries K.eq (entries_of self.now) }
    {
        self.get(key).is_some()
    }

    /// Returns a mutable reference to the value of the key, or `None` if it is absent. The order does not
    /// change. It hashes the key once.
    #[inline(always)]
    pub fn get_mut<Q: Equivalent<K>>(&mut self, key: Q) -> Option<&mut V>
        ensures* lends { sem 𝓛 (LendsValueOf K.row V.row S.row S.Hasher.row K.Hash
            S.BuildHasher S.Hasher.Hasher self.entry (Q.matches key) result) }
        ensures value { option_copied_mut result ≡ lookup (Q.matches key) (entries_of self.old) }
        ensures updates { IfSome result
            (λ _. UpdatesLent K.eq (Q.matches key) (entries_of self.old) (entries_of self.old)) }
        ensures distinct { IsEntries K.eq (entries_of self.old) }
    {
        match self.find(key) {
            Some(node) => Some(self.value_at_mut(node)),
            None => None,
        }
    }

    /// Returns the entry at the front, or `None` if the map is empty. It takes constant time and hashes
    /// nothing.
    #[inline]
    pub fn front(&self) -> Option<(&K, &V)>
        ensures found { option_map deref_pair result ≡ first_of (entries_of self.now) }
        ensures none { IfNone result (entries_of self.now ≡ []) }
        ensures distinct { IsEntries K.eq (entries_of self.now) }
    {
        let node = self.list.front()?;
        Some(self.pair_at(node))
    }

    /// Returns the entry at the back, or `None` if the map is empty. It takes constant time and hashes
    /// nothing.
    #[inline]
    pub fn back(&self) -> Option<(&K, &V)>
        ensures found { option_map deref_pair result ≡ last_of (entries_of self.now) }
        ensures none { IfNone result (entries_of self.now ≡ []) }
        ensures distinct { IsEntries K.eq (entries_of self.now) }
    {
        let node = self.list.back()?;
        Some(self.pair_at(node))
    }

    /// Returns a mutable reference to the value of the entry at the back, or `None` if the map is empty. The
    /// order does not change. It takes constant time and hashes nothing.
    #[inline]
    pub fn back_value_mut(&mut self) -> Option<&mut V>
        ensures* lends { sem 𝓛 (LendsLastValue K.row V.row S.row S.Hasher.row K.Hash
            S.BuildHasher S.Hasher.Hasher self.entry result) }
        ensures value { option_copied_mut result ≡ option_map (λ e. e.1) (last_of (entries_of self.old)) }
    {
        match self.list.back() {
            Some(node) => Some(self.value_at_mut(node)),
            None => None,
        }
    }
}
