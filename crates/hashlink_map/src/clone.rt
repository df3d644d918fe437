//! Maps built from the items of an iterator, and clones.
ghost use Rattle.std.specs.Prelude.{◌≡◌, List, [], Bool, true, Option, Ok, IfOk, OnOk, OnErr, ⊤};
ghost use Rattle.std.specs.Iterator.{DrainsIf, IsFiniteIterable};
ghost use Rattle.hashlink_model.specs.{Compare.entries_eq, Many.{MadeFrom, InsertsPair}};
ghost use Rattle.hashlink_core.specs.Keyed.{state_of, entries_of};
ghost use Rattle.hashlink_map.specs.Cloning.{ArePairClones, IsMadeOf, IsOfPairClones, StopsMaking};
ghost use Rattle.hashlink_map.specs.Reading.{ReadsAll, ReadsSome};

use crate::map::LinkedHashMap;
use std::alloc::{AllocError, Global};
use std::hash::{BuildHasher, Hash};

impl<K: Eq + Hash + Drop, V: Drop, S: BuildHasher + Default + Drop> LinkedHashMap<K, V, S> {
    /// Builds a map by inserting each item in turn, as `insert` does, at the cost of an insert for each. It
    /// hashes with `S::default()`. The iterator has to end, and its `next` to be callable. No room is
    /// reserved in advance.
    ///
    /// If an allocation for an item fails, it returns `AllocError`, reads no further item and drops the map.
    pub fn from_iter<I: IntoIterator<Item = (K, V)>>(
        alloc: Global,
        iter: I,
    ) -> Result<Self, AllocError>
        requires { IsFiniteIterable I.into_iter_gives I.IntoIter.can_next I.IntoIter.remaining iter }
        ensures made { IfOk result (λ map. (s : S) × S.is_default s
            × ReadsAll I.into_iter_gives I.IntoIter.next_gives iter
            (λ items. MadeFrom (InsertsPair K.eq) items s (state_of map))) }
        ensures stopped { OnErr result ((s : S) × S.is_default s
            × ReadsSome I.into_iter_gives I.IntoIter.next_gives iter (StopsMaking (InsertsPair K.eq) s)) }
    {
        let mut map = LinkedHashMap::with_hasher(alloc, S::default());
        map.extend(iter)?;
        Ok(map)
    }
}

/// `collect(alloc)` builds a map from the items as the function `from_iter` does.
impl<K: Eq + Hash + Drop, V: Drop, S: BuildHasher + Default + Drop> FromIterator<(K, V)>
    for LinkedHashMap<K, V, S> {
    type Alloc = Global;

    ghost from_iter_gives = { λ items map. IsMadeOf (InsertsPair K.eq) S.is_default items (state_of map) };

    fn from_iter<I: IntoIterator<Item = (K, V)>>(alloc: Global, iter: I) -> Result<Self, AllocError>
        requires { IsFiniteIterable I.into_iter_gives I.IntoIter.can_next I.IntoIter.remaining iter }
        ensures ran { IfOk result (λ map. (it : I.IntoIter) × (items : List (K × V))
            × I.into_iter_gives iter it × DrainsIf I.IntoIter.next_gives ⊤ it items
            × IsMadeOf (InsertsPair K.eq) S.is_default items (state_of map)) }
        ensures stopped { OnErr result ((s : S) × S.is_default s
            × ReadsSome I.into_iter_gives I.IntoIter.next_gives iter (StopsMaking (InsertsPair K.eq) s)) }
    {
        LinkedHashMap::from_iter(alloc, iter)
    }
}

impl<K: Eq + Hash + Clone, V: Clone, S: BuildHasher + Clone> LinkedHashMap<K, V, S> {
    /// Returns a map with a clone of the hasher, into which a clone of each pair is inserted in turn, from
    /// the front. It has the same allocator and no free node. It costs a clone and an insert for each pair.
    ///
    /// If an allocation fails, it returns `AllocError` and drops the new map. The clone of an empty map fails
    /// only if the clone of its hasher does.
    pub fn clone(&self) -> Result<Self, AllocError>
        ensures made { IfOk result (λ map. (s : S) × S.is_clone self.now.hasher s × (clones : List (K × V))
            × ArePairClones K.is_clone V.is_clone (entries_of self.now) clones
            × MadeFrom (InsertsPair K.eq) clones s (state_of map)) }
        ensures refused { OnErr result (S.is_infallible self.now.hasher → entries_of self.now ≡ [] → ⊥) }

        // If clones are equal to their sources, the clone is equal to the map.
        ensures equal { (eqv : V → V → Bool) → ((x y : K) → K.is_clone x y → K.eq x y ≡ true)
            → ((x y : V) → V.is_clone x y → eqv x y ≡ true)
            → IfOk result (λ map. entries_eq K.eq eqv (entries_of self.now) (entries_of map) ≡ true) }
        ensures same { ((x y : K) → K.is_clone x y → y ≡ x) → ((x y : V) → V.is_clone x y → y ≡ x)
            → IfOk result (λ map. entries_of map ≡ entries_of self.now) }
    {
        let hash_builder = self.list.hasher().clone()?;
        let mut map = LinkedHashMap::with_hasher(self.list.allocator(), hash_builder);
        for (key, value) in self.iter() {
            map.insert_clone(key, value)?;
        }
        Ok(map)
    }

    // Inserts a clone of the pair.
    fn insert_clone(&mut self, key: &K, value: &V) -> Result<(), AllocError>
        ensures { OnOk result ((p : K × V) × (old : Option V) × K.is_clone key.now p.0
            × V.is_clone value.now p.1
            × InsertsPair K.eq (state_of self.old) (state_of self.new) p (Ok old)) }
    {
        match self.insert(key.clone()?, value.clone()?) {
            Ok(_) => Ok(()),
            Err(_) => Err(AllocError),
        }
    }
}

/// Clones as the function `clone` does, so a type that contains a map can be cloned too.
impl<K: Eq + Hash + Clone, V: Clone, S: BuildHasher + Clone> Clone for LinkedHashMap<K, V, S> {
    ghost is_clone = { λ map made. IsOfPairClones K.eq K.is_clone V.is_clone (S.is_clone map.hasher)
        (entries_of map) (state_of made) };

    ghost is_infallible = { λ map. S.is_infallible map.hasher × (entries_of map ≡ []) };

    fn clone(&self) -> Result<Self, AllocError> {
        LinkedHashMap::clone(self)
    }
}
