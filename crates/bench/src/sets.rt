//! The calls of one set.
ghost use Rattle.std.specs.{Prelude.◌≡◌, Iterator.IsFinite};

use crate::fill::Fill::{Empty, Full};
use crate::fill::Made::{Anew, Once};
use crate::fill::{LoneSet, Set};
use crate::lists::Order::{Absent, AbsentAndHeld, Both, Held, Mixed, MixedByTurns, Whole};
use crate::plan::{Plan, Row, fold};
use crate::results::{len_after, lent_element, old_or, value_or};
use crate::walks::sum_of;
use crate::wholes::IsEqual;
use hashlink::LinkedHashSet;
use std::hash::{BuildHasher, Hash};

struct Contains;

impl<T: Eq + Hash> Row<LinkedHashSet<T>, T> for Contains {
    #[inline(always)]
    fn call(set: &mut LinkedHashSet<T>, _place: u64, key: &T) -> Option<u64> {
        Some(u64::from(set.contains(key)))
    }
}

struct Get;

impl Row<Set, u64> for Get {
    #[inline(always)]
    fn call(set: &mut Set, place: u64, key: &u64) -> Option<u64> {
        value_or(set.get(key), place)
    }
}

struct Insert;

impl Row<Set, u64> for Insert {
    #[inline(always)]
    fn call(set: &mut Set, place: u64, key: &u64) -> Option<u64> {
        let is_new = set.insert(*key).ok()?;
        Some(if is_new { *key } else { place })
    }
}

struct Replace;

impl Row<Set, u64> for Replace {
    #[inline(always)]
    fn call(set: &mut Set, place: u64, key: &u64) -> Option<u64> {
        old_or(set.replace(*key), place)
    }
}

struct GetOrInsert;

impl Row<Set, u64> for GetOrInsert {
    #[inline(always)]
    fn call(set: &mut Set, _place: u64, key: &u64) -> Option<u64> {
        lent_element(set.get_or_insert(*key))
    }
}

struct ToBack;

impl Row<Set, u64> for ToBack {
    #[inline(always)]
    fn call(set: &mut Set, _place: u64, key: &u64) -> Option<u64> {
        Some(u64::from(set.to_back(key)))
    }
}

struct Remove;

impl Row<Set, u64> for Remove {
    #[inline(always)]
    fn call(set: &mut Set, _place: u64, key: &u64) -> Option<u64> {
        Some(u64::from(set.remove(key)))
    }
}

struct Take;

impl Row<Set, u64> for Take {
    #[inline(always)]
    fn call(set: &mut Set, place: u64, key: &u64) -> Option<u64> {
        Some(set.take(key).unwrap_or(place))
    }
}

/// A removal of the first element and an insert of a new one, as in a queue.
struct Queue;

impl Row<Set, u64> for Queue {
    #[inline(always)]
    fn call(set: &mut Set, place: u64, key: &u64) -> Option<u64> {
        let first = set.pop_front().unwrap_or(place);
        let is_new = set.insert(*key).ok()?;
        Some(fold(first, u64::from(is_new)))
    }
}

/// Folds all elements.
#[inline(always)]
fn sum_of_owned<I: Iterator<Item = u64> + Drop>(elements: I) -> Option<u64>
    requires can { I.can_next elements }
    requires ends { IsFinite (I.remaining elements) }
{
    let mut sum: u64 = 0;
    for element in elements {
        sum = fold(sum, element);
    }
    Some(sum)
}

struct Iter;

impl Row<Set, u64> for Iter {
    #[inline(always)]
    fn call(set: &mut Set, _place: u64, _item: &u64) -> Option<u64> {
        sum_of(set.iter())
    }
}

struct IntoIter;

impl Row<Option<Set>, u64> for IntoIter {
    #[inline(always)]
    fn call(set: &mut Option<Set>, place: u64, _item: &u64) -> Option<u64> {
        match set.take() {
            Some(set) => sum_of_owned(set.into_iter()),
            None => Some(place),
        }
    }
}

struct Drain;

impl Row<Set, u64> for Drain {
    #[inline(always)]
    fn call(set: &mut Set, _place: u64, _item: &u64) -> Option<u64> {
        sum_of_owned(set.drain())
    }
}

struct Clear;

impl Row<Set, u64> for Clear {
    #[inline(always)]
    fn call(set: &mut Set, _place: u64, _item: &u64) -> Option<u64> {
        set.clear();
        Some(set.len() as u64)
    }
}

/// Keeps about half of the elements.
struct Retain;

impl Row<Set, u64> for Retain {
    #[inline(always)]
    fn call(set: &mut Set, _place: u64, _item: &u64) -> Option<u64> {
        set.retain(|element| *element % 2 == 0);
        Some(set.len() as u64)
    }
}

struct CloneAll;

impl Row<(Set, Set), u64> for CloneAll {
    #[inline(always)]
    fn call(sets: &mut (Set, Set), _place: u64, _item: &u64) -> Option<u64> {
        sets.1 = sets.0.clone().ok()?;
        Some(sets.1.len() as u64)
    }
}

struct GetOrInsertWith;

impl Row<Set, u64> for GetOrInsertWith {
    #[inline(always)]
    fn call(set: &mut Set, _place: u64, key: &u64) -> Option<u64> {
        let element = *key;
        let lent = set.get_or_insert_with(
            key,
            |_| -> u64
                ensures given { result ≡ element }
            { element },
        );
        lent_element(lent)
    }
}

struct ToFront;

impl Row<Set, u64> for ToFront {
    #[inline(always)]
    fn call(set: &mut Set, _place: u64, key: &u64) -> Option<u64> {
        Some(u64::from(set.to_front(key)))
    }
}

/// Of both, which are hashed alike as they are equal.
struct HashBoth;

impl Row<(Set, Set), u64> for HashBoth {
    #[inline(always)]
    fn call(sets: &mut (Set, Set), _place: u64, _item: &u64) -> Option<u64> {
        let hasher = sets.0.hasher();
        Some(u64::from(hasher.hash_one(&sets.0) == hasher.hash_one(&sets.1)))
    }
}

struct ExtendRef;

impl Row<(Set, Set), u64> for ExtendRef {
    #[inline(always)]
    fn call(sets: &mut (Set, Set), _place: u64, _item: &u64) -> Option<u64> {
        len_after(sets.1.extend_ref(sets.0.iter()), sets.1.len())
    }
}

pub(crate) fn rows(plan: &Plan<'_>) {
    plan.kind("sets");
    plan.row::<Contains, Set, _>(&[
        ("set_contains_hit", Mixed, Once, Full),
        ("set_contains_miss", Absent, Once, Full),
    ]);
    plan.row::<Get, _, _>(&[
        ("set_get_hit", Mixed, Once, Full),
        ("set_get_miss", Absent, Once, Full),
    ]);
    plan.row::<Insert, _, _>(&[
        ("set_insert", Held, Anew, Empty),
        ("set_update", MixedByTurns, Once, Full),
    ]);
    plan.row::<Replace, _, _>(&[
        ("set_replace_new", Held, Anew, Empty),
        ("set_replace_present", Mixed, Once, Full),
    ]);
    plan.row::<GetOrInsert, _, _>(&[
        ("set_get_or_insert_new", Held, Anew, Empty),
        ("set_get_or_insert_present", MixedByTurns, Once, Full),
    ]);
    plan.row::<ToBack, _, _>(&[("set_to_back_hit", MixedByTurns, Once, Full)]);
    plan.row::<Remove, _, _>(&[
        ("set_remove_hit", Mixed, Anew, Full),
        ("set_remove_miss", Absent, Once, Full),
    ]);
    plan.row::<Take, _, _>(&[("set_take_hit", Mixed, Anew, Full)]);
    plan.row::<Queue, _, _>(&[("set_pop_insert", AbsentAndHeld, Once, Full)]);
    plan.row::<Iter, _, _>(&[("set_iter", Whole, Once, Full)]);
    plan.row::<IntoIter, _, _>(&[("set_into_iter", Whole, Anew, Full)]);
    plan.row::<Drain, _, _>(&[("set_drain", Whole, Anew, Full)]);
    plan.row::<Clear, _, _>(&[("set_clear", Whole, Anew, Full)]);
    plan.row::<Retain, _, _>(&[("set_retain", Whole, Anew, Full)]);
    plan.row::<CloneAll, _, _>(&[("set_clone", Whole, Anew, Empty)]);
    plan.row::<IsEqual, (Set, Set), _>(&[("set_eq", Whole, Once, Full)]);
    plan.row::<GetOrInsertWith, _, _>(&[
        ("set_get_or_insert_with_new", Held, Anew, Empty),
        ("set_get_or_insert_with_present", MixedByTurns, Once, Full),
    ]);
    plan.row::<ToFront, _, _>(&[("set_to_front_hit", MixedByTurns, Once, Full)]);
    plan.row::<HashBoth, _, _>(&[("set_hash", Both, Once, Full)]);
    plan.row::<ExtendRef, _, _>(&[("set_extend_ref", Whole, Anew, Empty)]);
    plan.row_alone::<Contains, LoneSet, _>(&[
        ("set_contains_hit_from_one", Mixed, Once, Full),
        ("set_contains_miss_from_one", Absent, Once, Full),
    ]);
}
