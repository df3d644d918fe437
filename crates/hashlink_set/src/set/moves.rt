//! Moves of an element to either end. A move hashes the element once, does not allocate, and stores at most
//! six links.
ghost use Rattle.std.specs.{Prelude.{◌≡◌, length}, List.IsDistinct};
ghost use Rattle.hashlink_model.specs.{Lookups.SetKeepsLookups, Steps.MovesMatch, Sets.elements_of};
ghost use Rattle.hashlink_set.specs.Answers.{as_value};

use super::LinkedHashSet;
use hashlink_map::Equivalent;
use std::hash::{BuildHasher, Hash};

impl<T: Eq + Hash, S: BuildHasher> LinkedHashSet<T, S> {
    /// Moves the equal element to the front, and returns whether it is present. If it is absent, nothing
    /// changes. It hashes the element once, and stores at most six links.
    #[inline(always)]
    pub fn to_front<Q: Equivalent<T>>(&mut self, value: Q) -> bool
        ensures moves { MovesMatch (Q.matches value) self.old self.new 0 (as_value result) }
        ensures keeps { SetKeepsLookups T.eq (Q.matches value) (elements_of self.old) (elements_of self.new) }
    {
        match self.map.to_front(value) {
            Some(_) => true,
            None => false,
        }
    }

    /// Moves the equal element to the back, and returns whether it is present. If it is absent, nothing
    /// changes. It hashes the element once, and stores at most six links.
    #[inline(always)]
    pub fn to_back<Q: Equivalent<T>>(&mut self, value: Q) -> bool
        ensures moves { MovesMatch (Q.matches value) self.old self.new (length self.old.entries)
            (as_value result) }
        ensures keeps { SetKeepsLookups T.eq (Q.matches value) (elements_of self.old) (elements_of self.new) }
    {
        match self.map.to_back(value) {
            Some(_) => true,
            None => false,
        }
    }
}
