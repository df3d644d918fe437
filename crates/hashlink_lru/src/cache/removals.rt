//! Removals. The other entries keep their order. Except for `clear`, each removal leaves a free node, which
//! the next insert of an absent key uses. No removal allocates.
ghost use Rattle.std.specs.{Prelude.{◌≡◌, IfSome, None, Contains}, Map.{lookup, lookup_entry, remove_entry}};
ghost use Rattle.std.specs.Map.{Calls.{CalledAtPair, TakesPair, CallableOnEachPair}, Iter.TakesFirst};
ghost use Rattle.hashlink_model.specs.{Cache.{IsWithin, KeepsLast, OnMap, SetsCapacity}, Entries.IsEntries};
ghost use Rattle.hashlink_model.specs.Lookups.{EvictsSome, UpdatesBy, UpdatesKept, UpdatesPopped};
ghost use Rattle.hashlink_model.specs.{Retain.RetainsInOrder, Steps.{RemovesMatch, PopsFront, Clears}};

use super::LruCache;
use hashlink_map::Equivalent;
use std::hash::{BuildHasher, Hash};

impl<K: Eq + Hash, V, S: BuildHasher> LruCache<K, V, S> {
    ghost use Rattle.hashlink_lru.specs.Cached.{entries_of, state_of, StaysWithin};

    /// Removes the entry of the key, and returns its value, or `None` if the key is absent. It looks the key
    /// up as `peek` does, and stores at most three links.
    #[inline(always)]
    pub fn remove<Q: Equivalent<K>>(&mut self, key: Q) -> Option<V>
    where
        K: Drop,
        ensures value { result ≡ lookup (Q.matches key) (entries_of self.old) }
        ensures entries { entries_of self.new ≡ remove_entry (Q.matches key) (entries_of self.old) }
        ensures updates { UpdatesBy K.eq (Q.matches key) (entries_of self.old) (entries_of self.new) None }
        ensures removes { OnMap (λ a b. RemovesMatch (Q.matches key) a b
            (lookup_entry (Q.matches key) a.entries)) (state_of self.old) (state_of self.new) }
        ensures distinct { IsEntries K.eq (entries_of self.new) }
        ensures within { StaysWithin (state_of self.old) (state_of self.new) }
    {
        self.map.remove(key)
    }

    /// Removes the entry of the key, and returns the stored pair, or `None` if the key is absent. It looks
    /// the key up as `peek` does, and stores at most three links.
    #[inline(always)]
    pub fn remove_entry<Q: Equivalent<K>>(&mut self, key: Q) -> Option<(K, V)>
        ensures held { IfSome result (Contains (entries_of self.old)) }
        ensures updates { UpdatesBy K.eq (Q.matches key) (entries_of self.old) (entries_of self.new) None }
        ensures removes { OnMap (λ a b. RemovesMatch (Q.matches key) a b result) (state_of self.old)
            (state_of self.new) }
        ensures distinct { IsEntries K.eq (entries_of self.new) }
        ensures within { StaysWithin (state_of self.old) (state_of self.new) }
    {
        self.map.remove_entry(key)
    }

    /// Removes the front, which is the least recently used entry, and returns it, or `None` if the cache is
    /// empty. It takes constant time, hashes nothing, and stores at most three links.
    #[inline]
    pub fn remove_lru(&mut self) -> Option<(K, V)>
        ensures pops { OnMap (λ a b. PopsFront a b result) (state_of self.old) (state_of self.new) }
        ensures entries { TakesFirst (λ e. e) (entries_of self.old) result (entries_of self.new) }
        ensures updates { UpdatesPopped K.eq (entries_of self.old) (entries_of self.new) result }
        ensures distinct { IsEntries K.eq (entries_of self.new) }
        ensures within { StaysWithin (state_of self.old) (state_of self.new) }
    {
        self.map.pop_front()
    }

    /// Drops every entry and frees its node. The nodes that were free and the capacity stay. It takes linear
    /// time in the number of entries and buckets.
    pub fn clear(&mut self)
    where
        K: Drop,
        V: Drop,
        ensures clears { OnMap Clears (state_of self.old) (state_of self.new) }
        ensures within { StaysWithin (state_of self.old) (state_of self.new) }
    {
        self.map.clear();
    }

    /// Sets the capacity, and evicts entries from the front until there are no more than that. It takes a
    /// step for each entry that it evicts, hashes nothing, and stores at most three links for each.
    pub fn set_capacity(&mut self, capacity: usize)
    where
        K: Drop,
        V: Drop,
        ensures sets { SetsCapacity (state_of self.old) (state_of self.new) capacity }
        ensures updates { EvictsSome K.eq (entries_of self.old) (entries_of self.new) }
        ensures distinct { IsEntries K.eq (entries_of self.new) }
        ensures fits { IsWithin (state_of self.new) 0 }
    {
        self.keep_last(capacity);
        self.capacity = capacity;
    }

    /// Evicts entries from the front until there are at most `count`.
    #[inline]
    pub(super) fn keep_last(&mut self, count: usize)
    where
        K: Drop,
        V: Drop,
        ensures keeps { OnMap (λ a b. KeepsLast a b count) (state_of self.old) (state_of self.new) }
        ensures updates { EvictsSome K.eq (entries_of self.old) (entries_of self.new) }
        ensures distinct { IsEntries K.eq (entries_of self.new) }
    {
        for _ in count..self.map.len() {
            self.map.pop_front();
        }
    }

    /// Calls `keep` once on each entry, from the front, and removes the entries for which it returns false.
    /// It takes linear time in the number of entries, hashes nothing, and stores at most three links for each
    /// removal. `keep` has to be callable on each entry, in the state that its earlier calls left it in.
    pub fn retain<F: FnMut(&K, &mut V) -> bool>(&mut self, keep: F)
    where
        K: Drop,
        V: Drop,
        requires callable { CallableOnEachPair (CalledAtPair F.FnMut) (TakesPair F.FnMut) keep
            (entries_of self.old) }
        ensures retained { (end : F) × OnMap (λ a b. RetainsInOrder (CalledAtPair F.FnMut) keep a b end)
            (state_of self.old) (state_of self.new) }
        ensures updates { UpdatesKept (CalledAtPair F.FnMut) K.eq (entries_of self.old)
            (entries_of self.new) }
        ensures distinct { IsEntries K.eq (entries_of self.new) }
        ensures within { StaysWithin (state_of self.old) (state_of self.new) }
    {
        self.map.retain(keep);
    }

    /// Does the same as `retain`, with a closure that the caller keeps: afterwards the caller can read from
    /// `keep` the state that its calls left. It takes linear time in the number of entries, hashes nothing,
    /// and stores at most three links for each removal. `keep` has to be callable on each entry, in the state
    /// that its earlier calls left it in.
    pub fn retain_from<F: FnMut(&K, &mut V) -> bool>(&mut self, keep: &mut F)
    where
        K: Drop,
        V: Drop,
        requires callable { CallableOnEachPair (CalledAtPair F.FnMut) (TakesPair F.FnMut) keep.old
            (entries_of self.old) }
        ensures retained { OnMap (λ a b. RetainsInOrder (CalledAtPair F.FnMut) keep.old a b keep.new)
            (state_of self.old) (state_of self.new) }
        ensures updates { UpdatesKept (CalledAtPair F.FnMut) K.eq (entries_of self.old)
            (entries_of self.new) }
        ensures distinct { IsEntries K.eq (entries_of self.new) }
        ensures within { StaysWithin (state_of self.old) (state_of self.new) }
    {
        self.map.retain_from(keep);
    }
}
