//! The lending iterator over the entries, from both ends. It lends one value at a time, mutably. A clause
//! sees it as the map's state, the index of the first place left, and the number of entries left.
ghost use Rattle.std.specs.{Prelude.{◌≡◌, Some, length, slice_get}, Borrow.sem, Map.Iter.deref_pair};
ghost use Rattle.std.specs.Option.{option_map};
ghost use Rattle.hashlink_core.specs.{Keyed.entries_of, Places.{Holds, IsPlace, place_number}};
ghost use Rattle.hashlink_model.specs.Walk.{first_of, last_of};
ghost use Rattle.hashlink_map.specs.WritingWalk.{StandsIn, StandsIn-prop};

use crate::as_node::AsNode;
use crate::map::LinkedHashMap;
use crate::places_left::PlacesLeft;
use hashlink_core::{DefaultHashBuilder, Node};
use std::hash::{BuildHasher, Hash};
use std::marker::PhantomData;

/// The mark of an iterator that lends each value with its key.
pub struct OfEntries;

/// The mark of an iterator that lends the values only.
pub struct OfValues;

/// A lending iterator over the entries of a map, from front to back, with mutable references to the values.
#[derive(Drop)]
pub struct IterMut<
    'a,
    K: Eq + Hash,
    V,
    S: BuildHasher = DefaultHashBuilder,
    N: AsNode = Node,
    L = OfEntries,
> {
    pub(crate) map: &'a mut LinkedHashMap<K, V, S>,
    pub(crate) places: PlacesLeft<N>,
    pub(crate) lends: PhantomData<L>,
    ghost stands: { StandsIn N.node map.now.nodes places } by { StandsIn-prop N.node map.now.nodes places },
}

impl<'a, K: Eq + Hash, V, S: BuildHasher> IterMut<'a, K, V, S> {
    ghost use Rattle.hashlink_map.specs.IterMutLends.{LendsAtWalkNode, LendsPairThere, LendsPairFromWalk};
    ghost use Rattle.hashlink_map.specs.{Cursor.lent_pair, IterMut.{walk_map, walk_state}};
    ghost use Rattle.hashlink_map.specs.IterMutLends.{LentFrom, TakesOff};
    ghost use Rattle.hashlink_map.specs.WritingWalk.{HasLeft, walk_rest, after_front, after_back, last_place};

    /// Returns the pair of the node.
    #[inline(always)]
    fn pair_at_node(&mut self, node: Node) -> (&K, &mut V)
        requires { Holds (walk_map self.old).now.nodes node }
        ensures* lends { sem 𝓛 (LendsAtWalkNode K.row V.row S.row S.Hasher.row self.entry node result.1) }
        ensures pair { slice_get (entries_of (walk_map self.old).now)
            (place_number (walk_map self.old).now.nodes (Some node)) ≡ Some (lent_pair result) }
    {
        self.map.pair_at_mut(node)
    }

    /// Returns the pair of the place that was taken.
    #[inline(always)]
    fn pair_at(&mut self, taken: Option<Node>) -> Option<(&K, &mut V)>
        requires { IsPlace (walk_map self.old).now.nodes taken }
        ensures* lends { sem 𝓛 (LendsPairThere K.row V.row S.row S.Hasher.row self.entry
            (place_number (walk_map self.old).now.nodes taken) result) }
        ensures pair { LentFrom (walk_map self.old).now taken result }
    {
        match taken {
            Some(node) => Some(self.pair_at_node(node)),
            None => None,
        }
    }

    /// Takes the first place off, and returns the iterator and that place.
    #[inline(always)]
    fn step_first(&mut self) -> (&mut Self, Option<Node>)
        ensures { TakesOff walk_map walk_state self.entry (walk_state self.old).at
            (after_front (walk_state self.old)) result.0 result.1 }
    {
        let taken = self.places.take_first(self.map);
        (self, taken)
    }

    /// Takes the last place off, and returns the iterator and that place.
    #[inline(always)]
    fn step_last(&mut self) -> (&mut Self, Option<Node>)
        ensures { TakesOff walk_map walk_state self.entry (last_place (walk_state self.old))
            (after_back (walk_state self.old)) result.0 result.1 }
    {
        let taken = self.places.take_last(self.map);
        (self, taken)
    }

    /// Returns the next key from the front and a mutable reference to its value, or `None` if none is left.
    /// It takes constant time.
    #[inline(always)]
    pub fn next(&mut self) -> Option<(&K, &mut V)>
        ensures* lends { sem 𝓛 (LendsPairFromWalk K.row V.row S.row S.Hasher.row self.entry
            (after_front (walk_state self.old)) (walk_state self.old).at result) }
        ensures pair { option_map lent_pair result ≡ first_of (walk_rest (walk_state self.old)) }
    {
        let (walk, taken) = self.step_first();
        walk.pair_at(taken)
    }

    /// Returns the next key from the back and a mutable reference to its value, or `None` if none is left. It
    /// takes constant time.
    #[inline(always)]
    pub fn next_back(&mut self) -> Option<(&K, &mut V)>
        ensures* lends { sem 𝓛 (LendsPairFromWalk K.row V.row S.row S.Hasher.row self.entry
            (after_back (walk_state self.old)) (last_place (walk_state self.old)) result) }
        ensures pair { option_map lent_pair result ≡ last_of (walk_rest (walk_state self.old)) }
    {
        let (walk, taken) = self.step_last();
        walk.pair_at(taken)
    }

    /// Returns the entry whose value `next` would lend, or `None` if none is left. It takes constant time,
    /// and does not move the iterator. Call it before `next_value` to know the key.
    pub fn peek(&self) -> Option<(&K, &V)>
        ensures pair { option_map deref_pair result ≡ first_of (walk_rest (walk_state self.now)) }
        ensures left { HasLeft (walk_state self.now) result }
    {
        if self.places.left == 0 {
            return None;
        }
        Some(self.map.pair_at(self.places.first))
    }
}

impl<'a, K: Eq + Hash, V, S: BuildHasher, L> IterMut<'a, K, V, S, Node, L> {
    ghost use Rattle.hashlink_map.specs.IterMut.{walk_state};
    ghost use Rattle.hashlink_map.specs.IterMutLends.{LendsFirst, LendsLast, LentValue};
    ghost use Rattle.hashlink_map.specs.WritingWalk.{HasLeft, walk_rest};

    /// Returns a mutable reference to the next value from the front, or `None` if none is left. It takes
    /// constant time. Unlike with `IterMut::next`, a caller can prove exactly what the map is afterwards.
    #[inline(always)]
    pub fn next_value(&mut self) -> Option<&mut V>
        ensures* lends { sem 𝓛 (LendsFirst K.row V.row S.row L.row S.Hasher.row self.entry result) }
        ensures value { LentValue (first_of (walk_rest (walk_state self.old))) result }
        ensures left { HasLeft (walk_state self.old) result }
    {
        let node = self.places.take_first(self.map)?;
        Some(self.map.value_at_mut(node))
    }

    /// Returns a mutable reference to the next value from the back, or `None` if none is left. It takes
    /// constant time. As with `next_value`, a caller can prove exactly what the map is afterwards.
    #[inline(always)]
    pub fn next_value_back(&mut self) -> Option<&mut V>
        ensures* lends { sem 𝓛 (LendsLast K.row V.row S.row L.row S.Hasher.row self.entry result) }
        ensures value { LentValue (last_of (walk_rest (walk_state self.old))) result }
        ensures left { HasLeft (walk_state self.old) result }
    {
        let node = self.places.take_last(self.map)?;
        Some(self.map.value_at_mut(node))
    }

    /// Returns the number of entries or values that are left. It takes constant time.
    pub fn len(&self) -> usize
        ensures { result ≡ (walk_state self.now).left }
    {
        self.places.left
    }
}
