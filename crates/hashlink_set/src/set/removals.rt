//! Removals. The other elements keep their order. Except for `clear`, each removal leaves a free node, which
//! the next insert of an absent element uses. No removal allocates.
ghost use Rattle.std.specs.{Prelude.{◌≡◌, false}, List.{IsDistinct, list_any}, Map.lookup_entry};
ghost use Rattle.std.specs.{Map.Iter.{TakesFirst, TakesLast}, Set.remove_key};
ghost use Rattle.hashlink_model.specs.{Lookups.{SetUpdatesBy, SetUpdatesPopped}, Sets.elements_of};
ghost use Rattle.hashlink_model.specs.Steps.{RemovesMatch, PopsFront, PopsBack, Clears};
ghost use Rattle.hashlink_set.specs.Answers.{as_entry};

use super::LinkedHashSet;
use hashlink_map::Equivalent;
use std::hash::{BuildHasher, Hash};

impl<T: Eq + Hash, S: BuildHasher> LinkedHashSet<T, S> {
    /// Removes the equal element and drops it, and returns whether it was present. It looks the element up as
    /// `contains` does, and stores at most three links.
    #[inline(always)]
    pub fn remove<Q: Equivalent<T>>(&mut self, value: Q) -> bool
    where
        T: Drop,
        ensures answer { result ≡ list_any (Q.matches value) (elements_of self.old) }
        ensures elements { elements_of self.new ≡ remove_key (Q.matches value) (elements_of self.old) }
        ensures updates { SetUpdatesBy T.eq (Q.matches value) (elements_of self.old) (elements_of self.new)
            false }
        ensures removes { RemovesMatch (Q.matches value) self.old self.new
            (lookup_entry (Q.matches value) self.old.entries) }
        ensures distinct { IsDistinct T.eq (elements_of self.new) }
    {
        self.take(value).is_some()
    }

    /// Removes the equal element and returns it, or returns `None` if it is absent. It looks the element up
    /// as `contains` does, and stores at most three links.
    #[inline(always)]
    pub fn take<Q: Equivalent<T>>(&mut self, value: Q) -> Option<T>
        ensures removes { RemovesMatch (Q.matches value) self.old self.new (as_entry result) }
        ensures updates { SetUpdatesBy T.eq (Q.matches value) (elements_of self.old) (elements_of self.new)
            false }
        ensures distinct { IsDistinct T.eq (elements_of self.new) }
    {
        let (stored, ()) = self.map.remove_entry(value)?;
        Some(stored)
    }

    /// Removes the element at the front and returns it, or returns `None` if the set is empty. It takes
    /// constant time, hashes nothing, and stores at most three links.
    #[inline]
    pub fn pop_front(&mut self) -> Option<T>
        ensures pops { PopsFront self.old self.new (as_entry result) }
        ensures elements { TakesFirst (λ t. t) (elements_of self.old) result (elements_of self.new) }
        ensures updates { SetUpdatesPopped T.eq (elements_of self.old) (elements_of self.new) result }
        ensures distinct { IsDistinct T.eq (elements_of self.new) }
    {
        let (first, ()) = self.map.pop_front()?;
        Some(first)
    }

    /// Removes the element at the back and returns it, or returns `None` if the set is empty. It takes
    /// constant time, hashes nothing, and stores at most three links.
    #[inline]
    pub fn pop_back(&mut self) -> Option<T>
        ensures pops { PopsBack self.old self.new (as_entry result) }
        ensures elements { TakesLast (λ t. t) (elements_of self.old) result (elements_of self.new) }
        ensures updates { SetUpdatesPopped T.eq (elements_of self.old) (elements_of self.new) result }
        ensures distinct { IsDistinct T.eq (elements_of self.new) }
    {
        let (last, ()) = self.map.pop_back()?;
        Some(last)
    }

    /// Drops every element and frees its node. The nodes that were free and the room stay. It takes linear
    /// time in the number of elements and buckets.
    pub fn clear(&mut self)
    where
        T: Drop,
        ensures { Clears self.old self.new }
    {
        self.map.clear();
    }
}
