//! The memory of a set. No method here changes an element.
ghost use Rattle.std.specs.Prelude.{◌≡◌, ◌+◌, ◌^◌, ◌<◌, ◌↔◌, length, Err};
ghost use Rattle.hashlink_model.specs.{Steps.{Reserves, Shrinks}, Sets.elements_of};

use super::LinkedHashSet;
use hashlink_map::TryReserveError;
use std::alloc::AllocError;
use std::hash::{BuildHasher, Hash};

impl<T: Eq + Hash, S: BuildHasher> LinkedHashSet<T, S> {
    /// Reserves room for `additional` more elements. If there is room for them already, it cannot fail and
    /// changes nothing. Otherwise the table grows, which takes linear time in the new capacity and hashes
    /// nothing.
    ///
    /// It returns `CapacityOverflow` if the set could then have more than 2^62 elements, and `AllocError` if
    /// the allocation fails or the table would need more than 2^31 buckets. After an error nothing has
    /// changed.
    pub fn reserve(&mut self, additional: usize) -> Result<(), TryReserveError>
        ensures reserves { Reserves self.old self.new additional result }
        ensures overflow { (result ≡ Err TryReserveError.CapacityOverflow) ↔
            (2 ^ 62 < length (elements_of self.old) + additional) }
    {
        self.map.reserve(additional)
    }

    /// Does the same as `reserve`.
    pub fn try_reserve(&mut self, additional: usize) -> Result<(), TryReserveError>
        ensures reserves { Reserves self.old self.new additional result }
        ensures overflow { (result ≡ Err TryReserveError.CapacityOverflow) ↔
            (2 ^ 62 < length (elements_of self.old) + additional) }
    {
        self.reserve(additional)
    }

    /// Frees the free nodes, and the room that the elements do not need. It takes linear time in the old
    /// capacity, which is at least the number of elements and free nodes.
    ///
    /// While it runs it also needs memory for the smaller table. If that allocation fails, it returns
    /// `AllocError` and keeps the room, but the free nodes are freed. With no elements it cannot fail, and
    /// the capacity is 0 afterwards.
    pub fn shrink_to_fit(&mut self) -> Result<(), AllocError>
        ensures { Shrinks self.old self.new result }
    {
        self.map.shrink_to_fit()
    }
}
