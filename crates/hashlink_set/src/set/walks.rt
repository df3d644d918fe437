//! The iterator over a set, from both ends. It does not allocate, and each step takes constant time.
ghost use Rattle.std.specs.{Prelude.{◌≡◌, ◌^◌, ◌<◌, length}, List.IsDistinct};
ghost use Rattle.std.specs.Map.Iter.{ShowsInOrder, ShowsInReverse, deref};
ghost use Rattle.hashlink_model.specs.Sets.{elements_of};

use super::LinkedHashSet;
use crate::Iter;
use std::hash::{BuildHasher, Hash};

impl<T: Eq + Hash, S: BuildHasher> LinkedHashSet<T, S> {
    /// Returns an iterator over the elements, from front to back. It does not allocate, and each step takes
    /// constant time.
    pub fn iter(&self) -> Iter<'_, T>
        ensures rest { result ≡ elements_of self.now }
        ensures runs { ShowsInOrder (deref {X = T}) }
        ensures runs_back { ShowsInReverse (deref {X = T}) }
        ensures fits { length (elements_of self.now) < 2 ^ 63 }
        ensures distinct { IsDistinct T.eq (elements_of self.now) }
    {
        Iter::of(&self.map)
    }
}
