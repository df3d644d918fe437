//! The lending iterator over the values only, from both ends. A clause sees it as it sees `IterMut`.
ghost use Rattle.std.specs.{Prelude.◌≡◌, Borrow.sem};
ghost use Rattle.hashlink_model.specs.Walk.{first_of, last_of};

use crate::iter_mut::{IterMut, OfValues};
use hashlink_core::{DefaultHashBuilder, Node};
use std::hash::{BuildHasher, Hash};

/// A lending iterator over the values of a map, from front to back, with mutable references to them.
pub type ValuesMut<'a, K, V, S = DefaultHashBuilder> = IterMut<'a, K, V, S, Node, OfValues>;

impl<'a, K: Eq + Hash, V, S: BuildHasher> ValuesMut<'a, K, V, S> {
    ghost use Rattle.hashlink_map.specs.{IterMut.walk_state, WritingWalk.{HasLeft, walk_rest}};
    ghost use Rattle.hashlink_map.specs.IterMutLends.{LendsFirst, LendsLast, LentValue, values_row};

    /// Returns a mutable reference to the next value from the front, or `None` if none is left. It takes
    /// constant time.
    #[inline(always)]
    pub fn next(&mut self) -> Option<&mut V>
        ensures* lends { sem 𝓛 (LendsFirst K.row V.row S.row values_row S.Hasher.row self.entry result) }
        ensures value { LentValue (first_of (walk_rest (walk_state self.old))) result }
        ensures left { HasLeft (walk_state self.old) result }
    {
        self.next_value()
    }

    /// Returns a mutable reference to the next value from the back, or `None` if none is left. It takes
    /// constant time.
    #[inline(always)]
    pub fn next_back(&mut self) -> Option<&mut V>
        ensures* lends { sem 𝓛 (LendsLast K.row V.row S.row values_row S.Hasher.row self.entry result) }
        ensures value { LentValue (last_of (walk_rest (walk_state self.old))) result }
        ensures left { HasLeft (walk_state self.old) result }
    {
        self.next_value_back()
    }
}
