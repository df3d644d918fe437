//! Sets that are built whole: from the items of an iterator, as a clone, and from clones of the elements that
//! an iterator over two sets yields.
ghost use Rattle.std.specs.{Prelude.{◌≡◌, List, [], Bool, Some, Ok, IfOk, OnOk, OnErr, map, ⊤}, Borrow.Bor};
ghost use Rattle.std.specs.{Iterator.{Drains, DrainsIf, IsFinite, IsFiniteIterable}, List.AllZip};
ghost use Rattle.std.specs.Map.Iter.{deref};
ghost use Rattle.hashlink_model.specs.Algebra.{union_of, intersection_of, difference_of};
ghost use Rattle.hashlink_model.specs.{Algebra.symmetric_difference_of, Many.MadeFrom};
ghost use Rattle.hashlink_model.specs.Sets.{elements_of, SetInserts};
ghost use Rattle.hashlink_map.specs.{Cloning.{IsMadeOf, StopsMaking}, Reading.{ReadsAll, ReadsSome}};
ghost use Rattle.hashlink_set.specs.Cloned.{GivesClonesOf, IsOfClones};

use crate::set::LinkedHashSet;
use std::alloc::{AllocError, Global};
use std::hash::{BuildHasher, Hash};
use std::ops::{BitAnd, BitOr, BitXor, Sub};

impl<T: Eq + Hash + Drop, S: BuildHasher + Default + Drop> LinkedHashSet<T, S> {
    /// Builds a set from the items, each inserted in turn as by `insert`. It hashes with `S::default()`. It
    /// costs an insert for each item. The iterator has to end, and its `next` has to be callable. No room is
    /// reserved in advance.
    ///
    /// If an allocation for an item fails, it returns `AllocError`. Then no further item is read, and nothing
    /// is left of the set.
    pub fn from_iter<I: IntoIterator<Item = T>>(alloc: Global, iter: I) -> Result<Self, AllocError>
        requires { IsFiniteIterable I.into_iter_gives I.IntoIter.can_next I.IntoIter.remaining iter }
        ensures made { IfOk result (λ set. (s : S) × S.is_default s
            × ReadsAll I.into_iter_gives I.IntoIter.next_gives iter
            (λ items. MadeFrom (SetInserts T.eq) items s set)) }
        ensures stopped { OnErr result ((s : S) × S.is_default s
            × ReadsSome I.into_iter_gives I.IntoIter.next_gives iter (StopsMaking (SetInserts T.eq) s)) }
    {
        let mut set = LinkedHashSet::with_hasher(alloc, S::default());
        set.extend(iter)?;
        Ok(set)
    }
}

/// `collect(alloc)` builds a set from the items, as the function `from_iter` does.
impl<T: Eq + Hash + Drop, S: BuildHasher + Default + Drop> FromIterator<T> for LinkedHashSet<T, S> {
    type Alloc = Global;

    ghost from_iter_gives = { IsMadeOf (SetInserts T.eq) S.is_default };

    fn from_iter<I: IntoIterator<Item = T>>(alloc: Global, iter: I) -> Result<Self, AllocError>
        requires { IsFiniteIterable I.into_iter_gives I.IntoIter.can_next I.IntoIter.remaining iter }
        ensures ran { IfOk result (λ set. (it : I.IntoIter) × (items : List T) × I.into_iter_gives iter it
            × DrainsIf I.IntoIter.next_gives ⊤ it items × IsMadeOf (SetInserts T.eq) S.is_default items set) }
        ensures stopped { OnErr result ((s : S) × S.is_default s
            × ReadsSome I.into_iter_gives I.IntoIter.next_gives iter (StopsMaking (SetInserts T.eq) s)) }
    {
        LinkedHashSet::from_iter(alloc, iter)
    }
}

impl<T: Eq + Hash + Clone, S: BuildHasher + Clone> LinkedHashSet<T, S> {
    /// Returns a clone: a set with a clone of the hasher and a clone of each element, inserted in turn from
    /// the front. It uses the same allocator, and has no free node. It costs a clone and an insert for each
    /// element.
    ///
    /// If an allocation for a clone or for a node fails, it returns `AllocError`, and nothing is left of the
    /// new set. The clone of an empty set fails only if the clone of its hasher does.
    pub fn clone(&self) -> Result<Self, AllocError>
        ensures made { IfOk result (IsOfClones T.eq T.is_clone (S.is_clone self.now.hasher)
            (elements_of self.now)) }
        ensures refused { OnErr result (S.is_infallible self.now.hasher → elements_of self.now ≡ [] → ⊥) }
    {
        let hash_builder = self.hasher().clone()?;
        if self.is_empty() {
            return Ok(LinkedHashSet::with_hasher(self.alloc, hash_builder));
        }
        of_clones(self.alloc, hash_builder, self.iter())
    }
}

/// A type that contains a set can be cloned with it: the function `clone` makes the clone.
impl<T: Eq + Hash + Clone, S: BuildHasher + Clone> Clone for LinkedHashSet<T, S> {
    ghost is_clone = { λ set. IsOfClones T.eq T.is_clone (S.is_clone set.hasher) (elements_of set) };

    ghost is_infallible = { λ set. S.is_infallible set.hasher × (elements_of set ≡ []) };

    fn clone(&self) -> Result<Self, AllocError> {
        LinkedHashSet::clone(self)
    }
}

/// Builds a set that hashes with `hash_builder`, from a clone of each element that `rest` yields, inserted in
/// turn. It fails only if `rest` yields an element.
fn of_clones<'a, T: Eq + Hash + Clone + 'a, S: BuildHasher + Drop, I: Iterator<Item = &'a T>>(
    alloc: Global,
    hash_builder: S,
    mut rest: I,
) -> Result<LinkedHashSet<T, S>, AllocError>
    requires may { I.can_next rest }
    requires ends { IsFinite (I.remaining rest) }
    ensures made { IfOk result (λ set. (items : List (Bor T)) × (clones : List T)
        × Drains I.next_gives rest items × AllZip T.is_clone (map deref items) clones
        × MadeFrom (SetInserts T.eq) clones hash_builder set) }
    ensures refused { OnErr result ((element : Bor T) × (after : I)
        × I.next_gives rest (Some element) after) }
{
    let mut set = LinkedHashSet::with_hasher(alloc, hash_builder);
    while let Some(element) = rest.next() {
        set.insert_clone(element)?;
    }
    Ok(set)
}

impl<T: Eq + Hash + Clone, S: BuildHasher> LinkedHashSet<T, S> {
    /// Inserts a clone of the element.
    fn insert_clone(&mut self, element: &T) -> Result<(), AllocError>
        ensures { OnOk result ((clone : T) × (new : Bool) × T.is_clone element.now clone
            × SetInserts T.eq self.old self.new clone (Ok new)) }
    {
        match self.insert(element.clone()?) {
            Ok(_) => Ok(()),
            Err(_) => Err(AllocError),
        }
    }
}

/// `&a | &b`: clones of the elements that `union` yields, allocated by the left set's allocator. It costs
/// that iterator, and a clone and an insert for each element.
///
/// If an allocation for a clone or for a node fails, it returns `AllocError`, and nothing is left of the new
/// set. It does not fail if the new set has no elements.
impl<'a, 'b, T: Eq + Hash + Clone, S: BuildHasher + Default + Drop> BitOr<&'b LinkedHashSet<T, S>>
    for &'a LinkedHashSet<T, S> {
    type Output = Result<LinkedHashSet<T, S>, AllocError>;

    ghost bitor_gives = { GivesClonesOf (union_of T.eq) T.eq T.is_clone S.is_default };

    fn bitor(self, other: &'b LinkedHashSet<T, S>) -> Result<LinkedHashSet<T, S>, AllocError> {
        of_clones(self.alloc, S::default(), self.union(other))
    }
}

/// `&a & &b`: clones of the elements that `intersection` yields, allocated by the left set's allocator. It
/// costs that iterator, and a clone and an insert for each element.
///
/// If an allocation for a clone or for a node fails, it returns `AllocError`, and nothing is left of the new
/// set. It does not fail if the new set has no elements.
impl<'a, 'b, T: Eq + Hash + Clone, S: BuildHasher + Default + Drop> BitAnd<&'b LinkedHashSet<T, S>>
    for &'a LinkedHashSet<T, S> {
    type Output = Result<LinkedHashSet<T, S>, AllocError>;

    ghost bitand_gives = { GivesClonesOf (intersection_of T.eq) T.eq T.is_clone S.is_default };

    fn bitand(self, other: &'b LinkedHashSet<T, S>) -> Result<LinkedHashSet<T, S>, AllocError> {
        of_clones(self.alloc, S::default(), self.intersection(other))
    }
}

/// `&a ^ &b`: clones of the elements that `symmetric_difference` yields, allocated by the left set's
/// allocator. It costs that iterator, and a clone and an insert for each element.
///
/// If an allocation for a clone or for a node fails, it returns `AllocError`, and nothing is left of the new
/// set. It does not fail if the new set has no elements.
impl<'a, 'b, T: Eq + Hash + Clone, S: BuildHasher + Default + Drop> BitXor<&'b LinkedHashSet<T, S>>
    for &'a LinkedHashSet<T, S> {
    type Output = Result<LinkedHashSet<T, S>, AllocError>;

    ghost bitxor_gives = { GivesClonesOf (symmetric_difference_of T.eq) T.eq T.is_clone S.is_default };

    fn bitxor(self, other: &'b LinkedHashSet<T, S>) -> Result<LinkedHashSet<T, S>, AllocError> {
        of_clones(self.alloc, S::default(), self.symmetric_difference(other))
    }
}

/// `&a - &b`: clones of the elements that `difference` yields, allocated by the left set's allocator. It
/// costs that iterator, and a clone and an insert for each element.
///
/// If an allocation for a clone or for a node fails, it returns `AllocError`, and nothing is left of the new
/// set. It does not fail if the new set has no elements.
impl<'a, 'b, T: Eq + Hash + Clone, S: BuildHasher + Default + Drop> Sub<&'b LinkedHashSet<T, S>>
    for &'a LinkedHashSet<T, S> {
    type Output = Result<LinkedHashSet<T, S>, AllocError>;

    ghost sub_gives = { GivesClonesOf (difference_of T.eq) T.eq T.is_clone S.is_default };

    fn sub(self, other: &'b LinkedHashSet<T, S>) -> Result<LinkedHashSet<T, S>, AllocError> {
        of_clones(self.alloc, S::default(), self.difference(other))
    }
}
