//! Set algebra, by lazy iterators, operators and tests.
use crate::fill::Fill::{Absent, Moved, Overlapping};
use crate::fill::Made::Once;
use crate::fill::Set;
use crate::lists::Order::{Both, Whole};
use crate::plan::{Plan, Row};
use crate::walks::sum_of;

type Sets = (Set, Set);

struct Union;

impl Row<Sets, u64> for Union {
    #[inline(always)]
    fn call(sets: &mut Sets, _place: u64, _item: &u64) -> Option<u64> {
        sum_of(sets.0.union(&sets.1))
    }
}

struct Intersection;

impl Row<Sets, u64> for Intersection {
    #[inline(always)]
    fn call(sets: &mut Sets, _place: u64, _item: &u64) -> Option<u64> {
        sum_of(sets.0.intersection(&sets.1))
    }
}

struct Difference;

impl Row<Sets, u64> for Difference {
    #[inline(always)]
    fn call(sets: &mut Sets, _place: u64, _item: &u64) -> Option<u64> {
        sum_of(sets.0.difference(&sets.1))
    }
}

struct SymmetricDifference;

impl Row<Sets, u64> for SymmetricDifference {
    #[inline(always)]
    fn call(sets: &mut Sets, _place: u64, _item: &u64) -> Option<u64> {
        sum_of(sets.0.symmetric_difference(&sets.1))
    }
}

/// The number of elements of a set, if there was memory for it.
#[inline(always)]
fn count<E: Drop>(set: Result<Set, E>) -> Option<u64> {
    Some(set.ok()?.len() as u64)
}

struct Or;

impl Row<Sets, u64> for Or {
    #[inline(always)]
    fn call(sets: &mut Sets, _place: u64, _item: &u64) -> Option<u64> {
        count(&sets.0 | &sets.1)
    }
}

struct And;

impl Row<Sets, u64> for And {
    #[inline(always)]
    fn call(sets: &mut Sets, _place: u64, _item: &u64) -> Option<u64> {
        count(&sets.0 & &sets.1)
    }
}

struct Xor;

impl Row<Sets, u64> for Xor {
    #[inline(always)]
    fn call(sets: &mut Sets, _place: u64, _item: &u64) -> Option<u64> {
        count(&sets.0 ^ &sets.1)
    }
}

struct Minus;

impl Row<Sets, u64> for Minus {
    #[inline(always)]
    fn call(sets: &mut Sets, _place: u64, _item: &u64) -> Option<u64> {
        count(&sets.0 - &sets.1)
    }
}

struct IsSubset;

impl Row<Sets, u64> for IsSubset {
    #[inline(always)]
    fn call(sets: &mut Sets, _place: u64, _item: &u64) -> Option<u64> {
        Some(u64::from(sets.0.is_subset(&sets.1)))
    }
}

struct IsSuperset;

impl Row<Sets, u64> for IsSuperset {
    #[inline(always)]
    fn call(sets: &mut Sets, _place: u64, _item: &u64) -> Option<u64> {
        Some(u64::from(sets.0.is_superset(&sets.1)))
    }
}

struct IsDisjoint;

impl Row<Sets, u64> for IsDisjoint {
    #[inline(always)]
    fn call(sets: &mut Sets, _place: u64, _item: &u64) -> Option<u64> {
        Some(u64::from(sets.0.is_disjoint(&sets.1)))
    }
}

pub(crate) fn rows(plan: &Plan<'_>) {
    plan.kind("algebra");
    plan.row::<Union, _, _>(&[("set_union", Both, Once, Overlapping)]);
    plan.row::<Intersection, _, _>(&[("set_intersection", Whole, Once, Overlapping)]);
    plan.row::<Difference, _, _>(&[("set_difference", Whole, Once, Overlapping)]);
    plan.row::<SymmetricDifference, _, _>(&[("set_symmetric_difference", Both, Once, Overlapping)]);
    plan.row::<Or, _, _>(&[("set_or", Both, Once, Overlapping)]);
    plan.row::<And, _, _>(&[("set_and", Whole, Once, Overlapping)]);
    plan.row::<Xor, _, _>(&[("set_xor", Both, Once, Overlapping)]);
    plan.row::<Minus, _, _>(&[("set_sub", Whole, Once, Overlapping)]);
    plan.row::<IsSubset, _, _>(&[("set_is_subset", Whole, Once, Moved)]);
    plan.row::<IsSuperset, _, _>(&[("set_is_superset", Whole, Once, Moved)]);
    plan.row::<IsDisjoint, _, _>(&[("set_is_disjoint", Whole, Once, Absent)]);
}
