//! Removals of the entries that a closure chooses. The others keep their order, and have the values that the
//! closure wrote. None of the methods allocates or hashes a key. Each removal leaves a free node, which a
//! later insert of an absent key uses.
ghost use Rattle.std.specs.Map.Calls.{CalledAtPair, TakesPair, CallableOnEachPair};
ghost use Rattle.hashlink_model.specs.{Entries.IsEntries, Lookups.UpdatesKept, Retain.RetainsInOrder};
ghost use Rattle.hashlink_core.specs.Keyed.{state_of, entries_of};

use super::LinkedHashMap;
use std::hash::{BuildHasher, Hash};

impl<K: Eq + Hash, V, S: BuildHasher> LinkedHashMap<K, V, S> {
    /// Calls `keep` once on each entry, from the front, and removes those for which it returns false. It
    /// takes linear time in the number of entries, and stores at most three links for each removal. `keep`
    /// has to be callable on each entry, in the state that its earlier calls have left it in.
    pub fn retain<F: FnMut(&K, &mut V) -> bool>(&mut self, mut keep: F)
    where
        K: Drop,
        V: Drop,
        requires callable { CallableOnEachPair (CalledAtPair F.FnMut) (TakesPair F.FnMut) keep
            (entries_of self.old) }
        ensures retained { (end : F) × RetainsInOrder (CalledAtPair F.FnMut) keep (state_of self.old)
            (state_of self.new) end }
        ensures updates { UpdatesKept (CalledAtPair F.FnMut) K.eq (entries_of self.old)
            (entries_of self.new) }
        ensures distinct { IsEntries K.eq (entries_of self.new) }
    {
        self.retain_from(&mut keep);
    }

    /// Calls `keep` once on each entry, from the front, and removes those for which it returns false. It
    /// takes linear time in the number of entries, and stores at most three links for each removal. `keep`
    /// has to be callable on each entry, in the state that its earlier calls have left it in.
    pub fn retain_with_order<F: FnMut(&K, &mut V) -> bool>(&mut self, mut keep: F)
    where
        K: Drop,
        V: Drop,
        requires callable { CallableOnEachPair (CalledAtPair F.FnMut) (TakesPair F.FnMut) keep
            (entries_of self.old) }
        ensures retained { (end : F) × RetainsInOrder (CalledAtPair F.FnMut) keep (state_of self.old)
            (state_of self.new) end }
        ensures updates { UpdatesKept (CalledAtPair F.FnMut) K.eq (entries_of self.old)
            (entries_of self.new) }
        ensures distinct { IsEntries K.eq (entries_of self.new) }
    {
        self.retain_from(&mut keep);
    }

    /// Does the same as `retain_with_order` with a closure that the caller keeps. Afterwards the caller can
    /// read from `keep` what its calls left there. It takes linear time in the number of entries, and stores
    /// at most three links for each removal. `keep` has to be callable on each entry, in the state that its
    /// earlier calls have left it in.
    pub fn retain_from<F: FnMut(&K, &mut V) -> bool>(&mut self, keep: &mut F)
    where
        K: Drop,
        V: Drop,
        requires callable { CallableOnEachPair (CalledAtPair F.FnMut) (TakesPair F.FnMut) keep.old
            (entries_of self.old) }
        ensures retained { RetainsInOrder (CalledAtPair F.FnMut) keep.old (state_of self.old)
            (state_of self.new) keep.new }
        ensures updates { UpdatesKept (CalledAtPair F.FnMut) K.eq (entries_of self.old)
            (entries_of self.new) }
        ensures distinct { IsEntries K.eq (entries_of self.new) }
    {
        let list = &mut self.list;
        let mut place = list.front();
        while let Some(node) = place {
            place = list.next(place);
            let (key, value) = list.entry_mut(node);
            if !keep(key, value) {
                list.remove(node, None);
            }
        }
    }
}
