//! Removals. The other entries keep their order. Each removal except `clear` leaves a free node, which the
//! next insert of an absent key uses. No removal allocates.
ghost use Rattle.std.specs.{Prelude.{◌≡◌, Contains, IfSome, None}, Map.{lookup, lookup_entry, remove_entry}};
ghost use Rattle.std.specs.Map.Iter.{TakesFirst, TakesLast};
ghost use Rattle.hashlink_model.specs.{Entries.IsEntries, Lookups.{UpdatesBy, UpdatesPopped}};
ghost use Rattle.hashlink_model.specs.Steps.{RemovesMatch, PopsFront, PopsBack, Clears};
ghost use Rattle.hashlink_core.specs.Keyed.{state_of, entries_of};

use super::LinkedHashMap;
use hashlink_core::Equivalent;
use std::hash::{BuildHasher, Hash};

impl<K: Eq + Hash, V, S: BuildHasher> LinkedHashMap<K, V, S> {
    /// Removes the entry of the key, and returns its value, or `None` if the key is absent. It looks the key
    /// up as `get` does, and stores at most three links.
    #[inline(always)]
    pub fn remove<Q: Equivalent<K>>(&mut self, key: Q) -> Option<V>
    where
        K: Drop,
        ensures value { result ≡ lookup (Q.matches key) (entries_of self.old) }
        ensures entries { entries_of self.new ≡ remove_entry (Q.matches key) (entries_of self.old) }
        ensures updates { UpdatesBy K.eq (Q.matches key) (entries_of self.old) (entries_of self.new) None }
        ensures removes { RemovesMatch (Q.matches key) (state_of self.old) (state_of self.new)
            (lookup_entry (Q.matches key) (entries_of self.old)) }
        ensures distinct { IsEntries K.eq (entries_of self.new) }
    {
        let (_, value) = self.remove_entry(key)?;
        Some(value)
    }

    /// Removes the entry of the key, and returns the stored pair, or `None` if the key is absent. It looks
    /// the key up as `get` does, and stores at most three links.
    #[inline(always)]
    pub fn remove_entry<Q: Equivalent<K>>(&mut self, key: Q) -> Option<(K, V)>
        ensures found { result ≡ lookup_entry (Q.matches key) (entries_of self.old) }
        ensures entries { entries_of self.new ≡ remove_entry (Q.matches key) (entries_of self.old) }
        ensures updates { UpdatesBy K.eq (Q.matches key) (entries_of self.old) (entries_of self.new) None }
        ensures held { IfSome result (Contains (entries_of self.old)) }
        ensures removes { RemovesMatch (Q.matches key) (state_of self.old) (state_of self.new) result }
        ensures distinct { IsEntries K.eq (entries_of self.new) }
    {
        self.list.remove_key(key)
    }

    /// Removes the entry at the front, and returns it, or `None` if the map is empty. It takes constant time,
    /// hashes nothing, and stores at most three links.
    #[inline]
    pub fn pop_front(&mut self) -> Option<(K, V)>
        ensures pops { PopsFront (state_of self.old) (state_of self.new) result }
        ensures entries { TakesFirst (λ e. e) (entries_of self.old) result (entries_of self.new) }
        ensures updates { UpdatesPopped K.eq (entries_of self.old) (entries_of self.new) result }
        ensures distinct { IsEntries K.eq (entries_of self.new) }
    {
        let node = self.list.front()?;
        Some(self.list.remove(node, None))
    }

    /// Removes the entry at the back, and returns it, or `None` if the map is empty. It takes constant time,
    /// hashes nothing, and stores at most three links.
    #[inline]
    pub fn pop_back(&mut self) -> Option<(K, V)>
        ensures pops { PopsBack (state_of self.old) (state_of self.new) result }
        ensures entries { TakesLast (λ e. e) (entries_of self.old) result (entries_of self.new) }
        ensures updates { UpdatesPopped K.eq (entries_of self.old) (entries_of self.new) result }
        ensures distinct { IsEntries K.eq (entries_of self.new) }
    {
        let node = self.list.back()?;
        Some(self.list.remove(node, None))
    }

    /// Drops every entry and releases its node. The nodes that were free before and the room stay. It takes
    /// linear time in the number of entries and buckets.
    pub fn clear(&mut self)
    where
        K: Drop,
        V: Drop,
        ensures { Clears (state_of self.old) (state_of self.new) }
    {
        self.list.clear();
    }
}
