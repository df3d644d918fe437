//! Inserts of many items, and clones.
ghost use Rattle.std.specs.Prelude.{◌≡◌, Bool, true, List, [], OnOk, OnErr, IfOk, IfErr};
ghost use Rattle.std.specs.Iterator.{ExtendsWithItems, IsFinite, IsFiniteIterable};
ghost use Rattle.hashlink_model.specs.{Cache.OnMap, Compare.entries_eq, MapState.Grows};
ghost use Rattle.hashlink_model.specs.Many.{AcceptsAll, StopsAt, StopsAtLast, MadeFrom, InsertsPair};
ghost use Rattle.hashlink_map.specs.{Cloning.{ArePairClones, IsOfPairClones}, Extending.TakesItems};
ghost use Rattle.hashlink_map.specs.Reading.{GivesAll, GivesSome, ReadsAll, ReadsSome};
ghost use Rattle.hashlink_lru.specs.Cached.{entries_of, state_of, InsertsPairIn, StaysWithin};

use super::LruCache;
use hashlink_map::ExtendError;
use std::alloc::AllocError;
use std::hash::{BuildHasher, Hash};

impl<K: Eq + Hash + Drop, V: Drop, S: BuildHasher> LruCache<K, V, S> {
    /// Inserts each item in turn, as `insert` does, at the cost of an insert for each. The iterator has to
    /// end, and its `next` has to be callable.
    ///
    /// If an allocation for an item fails, the items before it stay inserted. The error contains that item
    /// and their number. No further item is read.
    pub fn extend<I: IntoIterator<Item = (K, V)>>(
        &mut self,
        iter: I,
    ) -> Result<(), ExtendError<K, V>>
        requires { IsFiniteIterable I.into_iter_gives I.IntoIter.can_next I.IntoIter.remaining iter }
        ensures all { OnOk result (ReadsAll I.into_iter_gives I.IntoIter.next_gives iter
            (λ items. AcceptsAll (InsertsPairIn K.eq) (state_of self.old) items (state_of self.new))) }
        ensures stopped { IfErr result (λ e. ReadsSome I.into_iter_gives I.IntoIter.next_gives iter
            (λ items. StopsAt (InsertsPairIn K.eq) (state_of self.old) items
            (state_of self.new) e.taken e.pair [])) }
        ensures within { StaysWithin (state_of self.old) (state_of self.new) }
    {
        let mut rest = iter.into_iter();
        self.extend_from(&mut rest)
    }

    /// Does the same as `extend` with an iterator that the caller keeps. It has to end, and its `next` has to
    /// be callable. If an allocation fails, the items after the one in the error are left in the iterator.
    /// Otherwise none is left.
    pub fn extend_from<I: Iterator<Item = (K, V)>>(
        &mut self,
        iter: &mut I,
    ) -> Result<(), ExtendError<K, V>>
        requires may { I.can_next iter.old }
        requires ends { IsFinite (I.remaining iter.old) }
        ensures all { OnOk result (GivesAll I.next_gives iter.old iter.new
            (λ items. AcceptsAll (InsertsPairIn K.eq) (state_of self.old) items (state_of self.new))) }
        ensures stopped { IfErr result (λ e. GivesSome I.next_gives iter.old iter.new (λ items.
            StopsAt (InsertsPairIn K.eq) (state_of self.old) items (state_of self.new) e.taken e.pair [])) }
        ensures within { StaysWithin (state_of self.old) (state_of self.new) }
    {
        let mut taken = 0u64;
        while let Some((key, value)) = iter.next() {
            if let Err(pair) = self.insert(key, value) {
                return Err(ExtendError { taken, pair });
            }
            taken = taken.saturating_add(1);
        }
        Ok(())
    }
}

/// Inserts the items as the function `extend` does. If memory runs out, it returns `AllocError`, and the
/// items inserted before stay. The item that was not inserted is dropped.
impl<K: Eq + Hash + Drop, V: Drop, S: BuildHasher> Extend<(K, V)> for LruCache<K, V, S> {
    ghost extend_gives = { λ old items new. TakesItems (InsertsPairIn K.eq) (OnMap (Grows 1))
        (state_of old) items (state_of new) };

    fn extend<I: IntoIterator<Item = (K, V)>>(&mut self, iter: I) -> Result<(), AllocError>
        requires { IsFiniteIterable I.into_iter_gives I.IntoIter.can_next I.IntoIter.remaining iter }
        ensures ran { ExtendsWithItems I.into_iter_gives I.IntoIter.next_gives
            (λ old items new. TakesItems (InsertsPairIn K.eq) (OnMap (Grows 1)) (state_of old) items
            (state_of new))
            iter self.old self.new result }
        ensures all { OnOk result (ReadsAll I.into_iter_gives I.IntoIter.next_gives iter
            (λ items. AcceptsAll (InsertsPairIn K.eq) (state_of self.old) items (state_of self.new))) }
        ensures stopped { OnErr result (ReadsSome I.into_iter_gives I.IntoIter.next_gives iter
            (λ items. StopsAtLast (InsertsPairIn K.eq) (state_of self.old) items (state_of self.new))) }
        ensures within { StaysWithin (state_of self.old) (state_of self.new) }
    {
        LruCache::extend(self, iter).map_err(|_| AllocError)
    }
}

impl<K: Eq + Hash + Clone, V: Clone, S: BuildHasher + Clone> LruCache<K, V, S> {
    /// Returns a clone: a cache of the same capacity, with a clone of the hasher and a clone of each pair in
    /// the same order. It uses the same allocator, and has no free node. It costs a clone and an insert for
    /// each pair.
    ///
    /// If an allocation for a clone or for a node fails, it returns `AllocError`, and nothing is left of the
    /// new cache. The clone of an empty cache fails only if the clone of its hasher does.
    pub fn clone(&self) -> Result<Self, AllocError>
        ensures capacity { IfOk result (λ cache. (state_of cache).cap ≡ (state_of self.now).cap) }
        ensures made { IfOk result (λ cache. (s : S) × S.is_clone (state_of self.now).map.hasher s
            × (clones : List (K × V)) × ArePairClones K.is_clone V.is_clone (entries_of self.now) clones
            × MadeFrom (InsertsPair K.eq) clones s (state_of cache).map) }
        ensures refused { OnErr result (S.is_infallible (state_of self.now).map.hasher
            → entries_of self.now ≡ [] → ⊥) }

        // If clones are equal to their sources, the entries are equal to the cache's.
        ensures equal { (eqv : V → V → Bool) → ((x y : K) → K.is_clone x y → K.eq x y ≡ true)
            → ((x y : V) → V.is_clone x y → eqv x y ≡ true)
            → IfOk result (λ cache. entries_eq K.eq eqv (entries_of self.now) (entries_of cache) ≡ true) }
        ensures same { ((x y : K) → K.is_clone x y → y ≡ x) → ((x y : V) → V.is_clone x y → y ≡ x)
            → IfOk result (λ cache. entries_of cache ≡ entries_of self.now) }
    {
        let map = self.map.clone()?;
        Ok(LruCache {
            map,
            capacity: self.capacity,
        })
    }
}

/// A type that contains a cache can be cloned with it: the function `clone` makes the clone.
impl<K: Eq + Hash + Clone, V: Clone, S: BuildHasher + Clone> Clone for LruCache<K, V, S> {
    ghost is_clone = { λ cache made. ((state_of made).cap ≡ (state_of cache).cap)
        × IsOfPairClones K.eq K.is_clone V.is_clone (S.is_clone (state_of cache).map.hasher)
        (entries_of cache)
        (state_of made).map };

    ghost is_infallible = { λ cache. S.is_infallible (state_of cache).map.hasher × (entries_of cache ≡ []) };

    fn clone(&self) -> Result<Self, AllocError> {
        LruCache::clone(self)
    }
}
