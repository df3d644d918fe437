//! Reads of a set. Each lookup hashes the element once, and looks at the elements of one bucket.
ghost use Rattle.std.specs.{Prelude.{◌≡◌, [], IfNone, option_copied}, List.{IsDistinct, find, list_any}};
ghost use Rattle.hashlink_model.specs.{Walk.{first_of, last_of}, Sets.elements_of};

use super::LinkedHashSet;
use hashlink_map::Equivalent;
use std::hash::{BuildHasher, Hash};

// Look-ups are inlined, as the map's are.
impl<T: Eq + Hash, S: BuildHasher> LinkedHashSet<T, S> {
    /// Returns whether an equal element is present. It hashes the element once.
    #[inline(always)]
    pub fn contains<Q: Equivalent<T>>(&self, value: Q) -> bool
        ensures found { result ≡ list_any (Q.matches value) (elements_of self.now) }
        ensures distinct { IsDistinct T.eq (elements_of self.now) }
    {
        self.map.contains_key(value)
    }

    /// Returns the equal element, which may be a different object, or `None` if it is absent. The order does
    /// not change. It hashes the element once.
    #[inline(always)]
    pub fn get<Q: Equivalent<T>>(&self, value: Q) -> Option<&T>
        ensures found { option_copied result ≡ find (Q.matches value) (elements_of self.now) }
        ensures distinct { IsDistinct T.eq (elements_of self.now) }
    {
        let (stored, _) = self.map.get_key_value(value)?;
        Some(stored)
    }

    /// Returns the element at the front, or `None` if the set is empty. It takes constant time and hashes
    /// nothing.
    #[inline]
    pub fn front(&self) -> Option<&T>
        ensures found { option_copied result ≡ first_of (elements_of self.now) }
        ensures none { IfNone result (elements_of self.now ≡ []) }
        ensures distinct { IsDistinct T.eq (elements_of self.now) }
    {
        let (first, _) = self.map.front()?;
        Some(first)
    }

    /// Returns the element at the back, or `None` if the set is empty. It takes constant time and hashes
    /// nothing.
    #[inline]
    pub fn back(&self) -> Option<&T>
        ensures found { option_copied result ≡ last_of (elements_of self.now) }
        ensures none { IfNone result (elements_of self.now ≡ []) }
        ensures distinct { IsDistinct T.eq (elements_of self.now) }
    {
        let (last, _) = self.map.back()?;
        Some(last)
    }
}
