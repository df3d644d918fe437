//! The draining iterator of a map, or of a container over a map.
ghost use Rattle.std.specs.{Prelude.{◌≡◌, ℕ, List, [], Some, IfSome, length}, Iterator.{at_most, UpTo}};
ghost use Rattle.std.specs.Iterator.SizeHint.{IsWithinCount};
ghost use Rattle.hashlink_core.specs.Drained.{CanDrain, CanDrain-prop, state_with, with_free};
ghost use Rattle.hashlink_core.specs.Keyed.{state_of};
ghost use Rattle.hashlink_model.specs.{MapState.MapState, Steps.Drains};

use crate::map::LinkedHashMap;
use hashlink_core::{Chain, DefaultHashBuilder, FreeBlock};
use std::hash::{BuildHasher, Hash};
use std::iter::FusedIterator;
use std::marker::PhantomData;
use std::mem;

/// A map, or a container over a map, whose entries can be drained: they are taken out, and then the map gets
/// the block of each that is removed.
pub trait Drainable<K, V> {
    // `map_state` is the state of its map, and `rest` all else of the container, as a number.
    ghost Hasher: { Type 0 };

    ghost map_state: { Self → MapState K V Hasher };

    ghost rest: { Self → ℕ } = { λ _. 0 };

    /// Takes all entries out of the map, as `KeyedList::take_entries` does.
    fn take_entries(&mut self) -> Chain<K, V>
        ensures taken { state_with (map_state self.new) result ≡ map_state self.old }
        ensures fits { CanDrain (map_state self.new) (length result) }
        ensures same { rest self.new ≡ rest self.old };

    /// Takes the block of a removed entry back, as `KeyedList::keep_free` does.
    fn keep_free(&mut self, block: FreeBlock<K, V>)
        requires { CanDrain (map_state self.old) 1 }
        ensures freed { map_state self.new ≡ with_free (map_state self.old) }
        ensures same { rest self.new ≡ rest self.old };
}

impl<K: Eq + Hash, V, S: BuildHasher> Drainable<K, V> for LinkedHashMap<K, V, S> {
    ghost Hasher = { S };

    ghost map_state = { λ m. state_of m };

    fn take_entries(&mut self) -> Chain<K, V> {
        self.list.take_entries()
    }

    #[inline(always)]
    fn keep_free(&mut self, block: FreeBlock<K, V>)
        requires { CanDrain (state_of self.old) 1 }
        ensures freed { state_of self.new ≡ with_free (state_of self.old) }
    {
        self.list.keep_free(block);
    }
}

/// The entries that were taken out of a map. Only `Chain` implements it. A drain keeps them in a field whose
/// type is a parameter with this bound, as an entry keeps its node (`AsNode`).
pub trait AsChain<K, V> {
    ghost pairs: { Self → List (K × V) };

    /// Takes all entries, and leaves none.
    fn take(&mut self) -> Chain<K, V>
        ensures taken { result ≡ pairs self.old }
        ensures left { pairs self.new ≡ [] };
}

impl<K, V> AsChain<K, V> for Chain<K, V> {
    ghost pairs = { λ c. c };

    fn take(&mut self) -> Chain<K, V> {
        let none = Chain::new(self.allocator());
        mem::replace(self, none)
    }
}

/// An iterator that removes the entries of a map and returns them, from front to back. When it is dropped,
/// exhausted or not, the map is empty and every node is free.
///
/// If it is forgotten (`mem::forget`), the map is empty too, and keeps its room. The nodes that were free
/// before and those of the returned entries are free. The entries that were left are then never dropped, and
/// the memory of their nodes is never returned.
pub type Drain<'a, K, V, S = DefaultHashBuilder> = DrainOf<'a, LinkedHashMap<K, V, S>, K, V>;

/// The draining iterator of a map or of a container over a map.
pub struct DrainOf<'a, C: Drainable<K, V>, K, V, D: AsChain<K, V> = Chain<K, V>> {
    container: &'a mut C,
    pub(crate) chain: D,
    mark: PhantomData<(K, V)>,
    ghost fits: { CanDrain (C.map_state container.now) (length (D.pairs chain)) } by { CanDrain-prop _ _ },
}

impl<'a, C: Drainable<K, V>, K: Drop, V: Drop, D: AsChain<K, V> + Drop> Drop
    for DrainOf<'a, C, K, V, D> {
    ghost use Rattle.hashlink_map.specs.Drain.{drained_state};

    fn drop(mut self)
        ensures drains { Drains (drained_state self.entry) (C.map_state self.exit.0.now) }
        ensures same { C.rest self.exit.0.now ≡ C.rest self.entry.container.now }
    {
        let mut left = self.chain.take();
        while let Some((_pair, block)) = left.take_first() {
            self.container.keep_free(block);
        }
        let DrainOf {
            container: _,
            chain: _,
            mark: _,
        } = self;
    }
}

impl<'a, C: Drainable<K, V>, K, V> DrainOf<'a, C, K, V> {
    ghost use Rattle.hashlink_map.specs.Drain.{drained_state};

    /// Returns the draining iterator of the container.
    pub fn new(container: &'a mut C) -> Self
        ensures name { result.container.ghost_name ≡ container.entry.ghost_name }
        ensures unchanged { drained_state result ≡ C.map_state container.old }
        ensures same { C.rest result.container.now ≡ C.rest container.old }
    {
        let chain = container.take_entries();
        DrainOf {
            container,
            chain,
            mark: PhantomData,
        }
    }
}

impl<K: Eq + Hash + Drop, V: Drop, S: BuildHasher> LinkedHashMap<K, V, S> {
    ghost use Rattle.hashlink_map.specs.Drain.{drained_state};

    /// Returns an iterator that removes the entries and returns them, from front to back. When it is dropped,
    /// exhausted or not, the map is empty. The call takes linear time in the number of buckets. The drop
    /// takes linear time in the number of entries left. A drain stores at most three links for each entry,
    /// and neither hashes nor allocates.
    pub fn drain<'a>(&'a mut self) -> Drain<'a, K, V, S>
    where
        S::Hasher: 'a,
        ensures same_map { result.container.ghost_name ≡ self.entry.ghost_name }
        ensures unchanged { drained_state result ≡ state_of self.old }
    {
        DrainOf::new(self)
    }
}

impl<'a, C: Drainable<K, V>, K: Drop, V: Drop> Iterator for DrainOf<'a, C, K, V> {
    ghost use Rattle.hashlink_map.specs.Drain.{drain_rest, DrainSteps};

    type Item = (K, V);

    ghost next_gives = { DrainSteps };

    ghost remaining = { λ s. at_most (length (drain_rest s)) };

    #[inline(always)]
    fn next(&mut self) -> Option<(K, V)> {
        let (pair, block) = self.chain.take_first()?;
        self.container.keep_free(block);
        Some(pair)
    }

    fn size_hint(&self) -> (usize, Option<usize>)
        ensures lower { IsWithinCount result.0 (at_most (length (drain_rest self.now))) }
        ensures upper { IfSome result.1 (UpTo (at_most (length (drain_rest self.now)))) }
        ensures exact { result ≡ (length (drain_rest self.now), Some (length (drain_rest self.now))) }
    {
        (self.chain.len(), Some(self.chain.len()))
    }
}

impl<'a, C: Drainable<K, V>, K: Drop, V: Drop> DoubleEndedIterator for DrainOf<'a, C, K, V> {
    ghost use Rattle.hashlink_map.specs.Drain.{DrainStepsBack};

    ghost next_back_gives = { DrainStepsBack };

    #[inline(always)]
    fn next_back(&mut self) -> Option<(K, V)> {
        let (pair, block) = self.chain.take_last()?;
        self.container.keep_free(block);
        Some(pair)
    }
}

impl<'a, C: Drainable<K, V>, K: Drop, V: Drop> FusedIterator for DrainOf<'a, C, K, V> {}
