//! Reads of a cache. A `get` is a use and moves its entry to the back; a `peek` does not change the order.
//! Each hashes the key once, does not allocate, and looks at the entries of one bucket.
ghost use Rattle.std.specs.{Prelude.{◌≡◌, [], IfNone, IfSome, is_some, length, option_copied}, Borrow.sem};
ghost use Rattle.std.specs.{Option.{option_map, option_copied_mut}, Map.{lookup, remove_entry}};
ghost use Rattle.std.specs.Map.Iter.{deref_pair};
ghost use Rattle.hashlink_model.specs.{Entries.{IsEntries, moved_match}, Lookups.{KeepsLookups, UpdatesLent}};
ghost use Rattle.hashlink_model.specs.Walk.{first_of, last_of};
ghost use Rattle.hashlink_lru.specs.{Cached.{entries_of, state_of}, Evicted.evicted_by};

use super::LruCache;
use hashlink_map::Equivalent;
use std::hash::{BuildHasher, Hash};

// Look-ups are inlined, as the map's are.
impl<K: Eq + Hash, V, S: BuildHasher> LruCache<K, V, S> {
    ghost use Rattle.hashlink_lru.specs.Lends.{LendsValueIn, LendsUsed, EndsUsed};

    /// Returns whether the key is present. The order does not change. It hashes the key once.
    #[inline(always)]
    pub fn contains_key<Q: Equivalent<K>>(&self, key: Q) -> bool
        ensures found { result ≡ is_some (lookup (Q.matches key) (entries_of self.now)) }
        ensures distinct { IsEntries K.eq (entries_of self.now) }
    {
        self.map.contains_key(key)
    }

    /// Returns a reference to the value of the key, or `None` if it is absent. The order does not change. It
    /// hashes the key once.
    #[inline(always)]
    pub fn peek<Q: Equivalent<K>>(&self, key: Q) -> Option<&V>
        ensures found { option_copied result ≡ lookup (Q.matches key) (entries_of self.now) }
        ensures distinct { IsEntries K.eq (entries_of self.now) }
    {
        self.map.get(key)
    }

    /// Returns a mutable reference to the value of the key, or `None` if it is absent. The order does not
    /// change. It hashes the key once.
    #[inline(always)]
    pub fn peek_mut<Q: Equivalent<K>>(&mut self, key: Q) -> Option<&mut V>
        ensures* lends { sem 𝓛 (LendsValueIn K.row V.row S.row S.Hasher.row K.Hash
            S.BuildHasher S.Hasher.Hasher self.entry (Q.matches key) result) }
        ensures updates { IfSome result
            (λ _. UpdatesLent K.eq (Q.matches key) (entries_of self.old) (entries_of self.old)) }
        ensures value { option_copied_mut result ≡ lookup (Q.matches key) (entries_of self.old) }
        ensures distinct { IsEntries K.eq (entries_of self.old) }
    {
        self.map.get_mut(key)
    }

    /// Returns the front, which is the least recently used entry and the next one to be evicted, or `None` if
    /// the cache is empty. The order does not change. It takes constant time and hashes nothing.
    pub fn peek_lru(&self) -> Option<(&K, &V)>
        ensures found { option_map deref_pair result ≡ first_of (entries_of self.now) }
        ensures none { IfNone result (entries_of self.now ≡ []) }
        ensures distinct { IsEntries K.eq (entries_of self.now) }
    {
        self.map.front()
    }

    /// Returns the back, which is the most recently used entry, or `None` if the cache is empty. The order
    /// does not change. It takes constant time and hashes nothing.
    pub fn back(&self) -> Option<(&K, &V)>
        ensures found { option_map deref_pair result ≡ last_of (entries_of self.now) }
        ensures none { IfNone result (entries_of self.now ≡ []) }
        ensures distinct { IsEntries K.eq (entries_of self.now) }
    {
        self.map.back()
    }

    /// Returns the entry that an insert of this key would evict first, or `None` if the insert would evict no
    /// entry but the key's own. That is so if the key is absent and there is room, or present and the
    /// capacity is not exceeded. The order does not change. It hashes the key once.
    ///
    /// At capacity 0 an insert evicts every entry and at last its own pair, which this call never returns. If
    /// entries, cursors or `map_mut` have exceeded the capacity, an insert evicts even if the key is present.
    /// Then this call returns the first entry that is not the key's own.
    #[inline(always)]
    #[tactic(auto, using(crate::proofs::Evicting::if_absent, crate::proofs::Evicting::if_there))]
    pub fn evicted_by<Q: Equivalent<K>>(&self, key: Q) -> Option<(&K, &V)>
        ensures found { option_map deref_pair result
            ≡ evicted_by (Q.matches key) (entries_of self.now) (state_of self.now).cap }
        ensures distinct { IsEntries K.eq (entries_of self.now) }
    {
        let len = self.map.len();
        if !self.map.contains_key(key) {
            return if len < self.capacity {
                None
            } else {
                self.map.front()
            };
        }
        if len <= self.capacity {
            return None;
        }
        self.first_other(key)
    }

    /// Returns the first entry that is not the key's. Only a cache beyond its capacity needs it.
    #[inline(never)]
    fn first_other<Q: Equivalent<K>>(&self, key: Q) -> Option<(&K, &V)>
        ensures { option_map deref_pair result
            ≡ first_of (remove_entry (Q.matches key) (entries_of self.now)) }
    {
        let mut entries = self.map.iter();
        let front = entries.next()?;
        if key.equivalent(front.0) {
            return entries.next();
        }
        Some(front)
    }

    /// Returns a reference to the value of the key, and moves its entry to the back. If the key is absent, it
    /// returns `None` and nothing changes. It hashes the key once, and stores at most six links.
    #[inline(always)]
    pub fn get<Q: Equivalent<K>>(&mut self, key: Q) -> Option<&V>
        ensures* used { sem 𝓛 (EndsUsed K.row V.row S.row S.Hasher.row K.Hash S.BuildHasher S.Hasher.Hasher
            self.entry (Q.matches key) (option_copied result)) }
        ensures keeps { KeepsLookups K.eq (Q.matches key) (entries_of self.old)
            (moved_match (Q.matches key) (entries_of self.old) (length (entries_of self.old))) }
        ensures value { option_copied result ≡ lookup (Q.matches key) (entries_of self.old) }
        ensures distinct { IsEntries K.eq (entries_of self.old) }
    {
        match self.map.to_back(key) {
            Some(value) => Some(&*value),
            None => None,
        }
    }

    /// Returns a mutable reference to the value of the key, and moves its entry to the back. If the key is
    /// absent, it returns `None` and nothing changes. It hashes the key once, and stores at most six links.
    #[inline(always)]
    pub fn get_mut<Q: Equivalent<K>>(&mut self, key: Q) -> Option<&mut V>
        ensures* lends { sem 𝓛 (LendsUsed K.row V.row S.row S.Hasher.row K.Hash S.BuildHasher S.Hasher.Hasher
            self.entry (Q.matches key) result) }
        ensures updates { IfSome result (λ _. UpdatesLent K.eq (Q.matches key) (entries_of self.old)
            (moved_match (Q.matches key) (entries_of self.old) (length (entries_of self.old)))) }
        ensures keeps { KeepsLookups K.eq (Q.matches key) (entries_of self.old)
            (moved_match (Q.matches key) (entries_of self.old) (length (entries_of self.old))) }
        ensures value { option_copied_mut result ≡ lookup (Q.matches key) (entries_of self.old) }
        ensures distinct { IsEntries K.eq (entries_of self.old) }
    {
        self.map.to_back(key)
    }
}
