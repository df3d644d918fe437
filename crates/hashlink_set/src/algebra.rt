//! Set algebra, by lazy iterators and by tests. No method here allocates. A step of an iterator hashes each
//! element that it looks up in the other set, once.
ghost use Rattle.std.specs.{Prelude.◌≡◌, List.IsDistinct};
ghost use Rattle.hashlink_model.{specs.Algebra.{difference_of, intersection_of}, specs.Sets.elements_of};
ghost use Rattle.hashlink_model.specs.Algebra.{union_of, symmetric_difference_of, is_subset, is_disjoint};
ghost use Rattle.hashlink_core.specs.Keyed.{state_of};

use crate::set::LinkedHashSet;
use crate::{Difference, Intersection, SymmetricDifference, Union};
use std::hash::{BuildHasher, Hash};

impl<T: Eq + Hash, S: BuildHasher> LinkedHashSet<T, S> {
    ghost use Rattle.hashlink_set.specs.Walks.{difference_rest, intersection_rest, union_rest, union_walk};
    ghost use Rattle.hashlink_set.specs.Walks.{symmetric_difference_rest, symmetric_difference_walk};

    /// Returns an iterator over the elements that `other` lacks, in their order. It does not allocate. A step
    /// hashes each element that it looks up, once.
    pub fn difference<'a>(&'a self, other: &'a Self) -> Difference<'a, T, S>
        ensures rest { difference_rest T.eq result
            ≡ difference_of T.eq (elements_of self.now) (elements_of other.now) }
        ensures unique { IsDistinct T.eq (difference_rest T.eq result) }
        ensures left { result.iter ≡ elements_of self.now }
        ensures other { state_of result.other.now ≡ other.now }
        ensures distinct { IsDistinct T.eq (elements_of self.now) }
    {
        Difference::of(&self.map, &other.map)
    }

    /// Returns an iterator over the elements that `other` has, in the order of this set. It does not
    /// allocate. A step hashes each element that it looks up, once.
    pub fn intersection<'a>(&'a self, other: &'a Self) -> Intersection<'a, T, S>
        ensures rest { intersection_rest T.eq result
            ≡ intersection_of T.eq (elements_of self.now) (elements_of other.now) }
        ensures unique { IsDistinct T.eq (intersection_rest T.eq result) }
        ensures left { result.iter ≡ elements_of self.now }
        ensures other { state_of result.other.now ≡ other.now }
    {
        Intersection::of(&self.map, &other.map)
    }

    /// Returns an iterator over the elements of this set, and then over the elements of `other` that this set
    /// lacks. It does not allocate. A step hashes each element that it looks up, once.
    pub fn union<'a>(&'a self, other: &'a Self) -> Union<'a, T, S>
        ensures rest { union_rest T.eq result ≡ union_of T.eq (elements_of self.now) (elements_of other.now) }
        ensures unique { IsDistinct T.eq (union_rest T.eq result) }
        ensures walk { union_walk result ≡ record {
          left = elements_of self.now;
          right =
              elements_of other.now;
        } }
        ensures other { state_of result.second.other.now ≡ self.now }
    {
        Union::of(&self.map, &other.map)
    }

    /// Returns an iterator over the elements that `other` lacks, and then over the elements of `other` that
    /// this set lacks. It does not allocate. A step hashes each element that it looks up, once.
    pub fn symmetric_difference<'a>(&'a self, other: &'a Self) -> SymmetricDifference<'a, T, S>
        ensures rest { symmetric_difference_rest T.eq result
            ≡ symmetric_difference_of T.eq (elements_of self.now) (elements_of other.now) }
        ensures unique { IsDistinct T.eq (symmetric_difference_rest T.eq result) }
        ensures walk { symmetric_difference_walk result
            ≡ record { left = elements_of self.now; right = elements_of other.now } }
        ensures first { state_of result.first.other.now ≡ other.now }
        ensures second { state_of result.second.other.now ≡ self.now }
    {
        SymmetricDifference::of(&self.map, &other.map)
    }

    /// Returns whether no element of this set is in `other`. It looks up each element of this set in `other`,
    /// up to the first that is present.
    pub fn is_disjoint(&self, other: &Self) -> bool
        ensures { result ≡ is_disjoint T.eq (elements_of self.now) (elements_of other.now) }
    {
        self.intersection(other).next().is_none()
    }

    /// Returns whether each element of this set is in `other`. It looks up each element of this set in
    /// `other`, up to the first that is absent.
    pub fn is_subset(&self, other: &Self) -> bool
        ensures { result ≡ is_subset T.eq (elements_of self.now) (elements_of other.now) }
    {
        self.difference(other).next().is_none()
    }

    /// Returns whether each element of `other` is in this set. It looks up each element of `other` in this
    /// set, up to the first that is absent.
    pub fn is_superset(&self, other: &Self) -> bool
        ensures { result ≡ is_subset T.eq (elements_of other.now) (elements_of self.now) }
    {
        other.is_subset(self)
    }
}
