//! Iterators over a map, some dropped in the middle, and a cursor's walk.
ghost use Rattle.std.specs.Iterator.{IsFinite};

use crate::fill::Fill::{Full, Moved};
use crate::fill::Made::{Anew, Once};
use crate::fill::Map;
use crate::lists::Order::{Mixed, Whole};
use crate::plan::{Plan, Row, fold};
use hashlink::LinkedHashMap;
use std::mem;

/// Folds all pairs.
#[inline(always)]
pub(crate) fn sum_of_pairs<'a, I: Iterator<Item = (&'a u64, &'a u64)> + Drop>(
    pairs: I,
) -> Option<u64>
    requires can { I.can_next pairs }
    requires ends { IsFinite (I.remaining pairs) }
{
    let mut sum: u64 = 0;
    for (key, value) in pairs {
        sum = fold(fold(sum, *key), *value);
    }
    Some(sum)
}

/// Folds all pairs.
#[inline(always)]
pub(crate) fn sum_of_owned<I: Iterator<Item = (u64, u64)> + Drop>(pairs: I) -> Option<u64>
    requires can { I.can_next pairs }
    requires ends { IsFinite (I.remaining pairs) }
{
    let mut sum: u64 = 0;
    for (key, value) in pairs {
        sum = fold(fold(sum, key), value);
    }
    Some(sum)
}

/// Folds all numbers.
#[inline(always)]
pub(crate) fn sum_of<'a, I: Iterator<Item = &'a u64> + Drop>(numbers: I) -> Option<u64>
    requires can { I.can_next numbers }
    requires ends { IsFinite (I.remaining numbers) }
{
    let mut sum: u64 = 0;
    for number in numbers {
        sum = fold(sum, *number);
    }
    Some(sum)
}

struct Iter;

impl Row<Map, u64> for Iter {
    #[inline(always)]
    fn call(map: &mut Map, _place: u64, _item: &u64) -> Option<u64> {
        sum_of_pairs(map.iter())
    }
}

struct IterReversed;

impl Row<Map, u64> for IterReversed {
    #[inline(always)]
    fn call(map: &mut Map, _place: u64, _item: &u64) -> Option<u64> {
        sum_of_pairs(map.iter().rev())
    }
}

struct IterHalf;

impl Row<Map, u64> for IterHalf {
    #[inline(always)]
    fn call(map: &mut Map, _place: u64, _item: &u64) -> Option<u64> {
        sum_of_pairs(map.iter().take(map.len() / 2))
    }
}

struct Keys;

impl Row<Map, u64> for Keys {
    #[inline(always)]
    fn call(map: &mut Map, _place: u64, _item: &u64) -> Option<u64> {
        sum_of(map.keys())
    }
}

struct Values;

impl Row<Map, u64> for Values {
    #[inline(always)]
    fn call(map: &mut Map, _place: u64, _item: &u64) -> Option<u64> {
        sum_of(map.values())
    }
}

/// Adds one to each value.
struct IterMut;

impl Row<Map, u64> for IterMut {
    #[inline(always)]
    fn call(map: &mut Map, _place: u64, _item: &u64) -> Option<u64> {
        let mut sum: u64 = 0;
        let mut walk = map.iter_mut();
        for _ in 0..walk.len() {
            if let Some((key, value)) = walk.next() {
                *value = value.wrapping_add(1);
                sum = fold(fold(sum, *key), *value);
            }
        }
        Some(sum)
    }
}

/// The same from the back.
struct IterMutReversed;

impl Row<Map, u64> for IterMutReversed {
    #[inline(always)]
    fn call(map: &mut Map, _place: u64, _item: &u64) -> Option<u64> {
        let mut sum: u64 = 0;
        let mut walk = map.iter_mut();
        for _ in 0..walk.len() {
            if let Some((key, value)) = walk.next_back() {
                *value = value.wrapping_add(1);
                sum = fold(fold(sum, *key), *value);
            }
        }
        Some(sum)
    }
}

/// Adds one to each value.
struct ValuesMut;

impl Row<Map, u64> for ValuesMut {
    #[inline(always)]
    fn call(map: &mut Map, _place: u64, _item: &u64) -> Option<u64> {
        let mut sum: u64 = 0;
        let mut walk = map.values_mut();
        while let Some(value) = walk.next() {
            *value = value.wrapping_add(1);
            sum = fold(sum, *value);
        }
        Some(sum)
    }
}

/// Adds one to each value in the second half, from the back.
struct ValuesMutHalf;

impl Row<Map, u64> for ValuesMutHalf {
    #[inline(always)]
    fn call(map: &mut Map, _place: u64, _item: &u64) -> Option<u64> {
        let mut sum: u64 = 0;
        let mut walk = map.values_mut();
        for _ in 0..walk.len() / 2 {
            if let Some(value) = walk.next_back() {
                *value = value.wrapping_add(1);
                sum = fold(sum, *value);
            }
        }
        Some(sum)
    }
}

/// Leaves an empty map.
#[inline(always)]
fn take_all(map: &mut Map) -> Map {
    let alloc = map.allocator();
    mem::replace(map, LinkedHashMap::new(alloc))
}

struct IntoIter;

impl Row<Map, u64> for IntoIter {
    #[inline(always)]
    fn call(map: &mut Map, _place: u64, _item: &u64) -> Option<u64> {
        sum_of_owned(take_all(map).into_iter())
    }
}

struct IntoIterReversed;

impl Row<Map, u64> for IntoIterReversed {
    #[inline(always)]
    fn call(map: &mut Map, _place: u64, _item: &u64) -> Option<u64> {
        sum_of_owned(take_all(map).into_iter().rev())
    }
}

struct IntoIterHalf;

impl Row<Map, u64> for IntoIterHalf {
    #[inline(always)]
    fn call(map: &mut Map, _place: u64, _item: &u64) -> Option<u64> {
        let half = map.len() / 2;
        sum_of_owned(take_all(map).into_iter().take(half))
    }
}

struct Drain;

impl Row<Map, u64> for Drain {
    #[inline(always)]
    fn call(map: &mut Map, _place: u64, _item: &u64) -> Option<u64> {
        sum_of_owned(map.drain())
    }
}

struct DrainHalf;

impl Row<Map, u64> for DrainHalf {
    #[inline(always)]
    fn call(map: &mut Map, _place: u64, _item: &u64) -> Option<u64> {
        let half = map.len() / 2;
        sum_of_owned(map.drain().take(half))
    }
}

/// A cursor from the front to the back.
struct CursorWalk;

impl Row<Map, u64> for CursorWalk {
    #[inline(always)]
    fn call(map: &mut Map, _place: u64, _item: &u64) -> Option<u64> {
        let mut sum: u64 = 0;
        let count = map.len();
        let mut cursor = map.cursor_front_mut();
        for _ in 0..count {
            if let Some((key, value)) = cursor.current() {
                sum = fold(fold(sum, *key), *value);
            }
            cursor.move_next();
        }
        Some(sum)
    }
}

/// Reads four entries, from that of the key on.
struct IterFrom;

impl Row<Map, u64> for IterFrom {
    #[inline(always)]
    fn call(map: &mut Map, _place: u64, key: &u64) -> Option<u64> {
        sum_of_pairs(map.iter_from(key).take(4))
    }
}

struct KeysReversed;

impl Row<Map, u64> for KeysReversed {
    #[inline(always)]
    fn call(map: &mut Map, _place: u64, _item: &u64) -> Option<u64> {
        sum_of(map.keys().rev())
    }
}

struct ValuesReversed;

impl Row<Map, u64> for ValuesReversed {
    #[inline(always)]
    fn call(map: &mut Map, _place: u64, _item: &u64) -> Option<u64> {
        sum_of(map.values().rev())
    }
}

struct DrainReversed;

impl Row<Map, u64> for DrainReversed {
    #[inline(always)]
    fn call(map: &mut Map, _place: u64, _item: &u64) -> Option<u64> {
        sum_of_owned(map.drain().rev())
    }
}

pub(crate) fn rows(plan: &Plan<'_>) {
    plan.kind("walks");
    plan.row::<Iter, _, _>(&[
        ("iter", Whole, Once, Full),
        ("iter_moved", Whole, Once, Moved),
    ]);
    plan.row::<IterReversed, _, _>(&[("iter_reversed", Whole, Once, Full)]);
    plan.row::<IterHalf, _, _>(&[("iter_half", Whole, Once, Full)]);
    plan.row::<IterFrom, _, _>(&[("iter_from", Mixed, Once, Full)]);
    plan.row::<Keys, _, _>(&[("keys", Whole, Once, Full)]);
    plan.row::<Values, _, _>(&[("values", Whole, Once, Full)]);
    plan.row::<IterMut, _, _>(&[("iter_mut", Whole, Once, Full)]);
    plan.row::<IterMutReversed, _, _>(&[("iter_mut_reversed", Whole, Once, Full)]);
    plan.row::<ValuesMut, _, _>(&[("values_mut", Whole, Once, Full)]);
    plan.row::<ValuesMutHalf, _, _>(&[("values_mut_half", Whole, Once, Full)]);
    plan.row::<CursorWalk, _, _>(&[("cursor_walk", Whole, Once, Full)]);
    plan.row::<IntoIter, _, _>(&[
        ("into_iter", Whole, Anew, Full),
        ("into_iter_moved", Whole, Anew, Moved),
    ]);
    plan.row::<IntoIterReversed, _, _>(&[("into_iter_reversed", Whole, Anew, Full)]);
    plan.row::<IntoIterHalf, _, _>(&[("into_iter_half", Whole, Anew, Full)]);
    plan.row::<Drain, _, _>(&[("drain", Whole, Anew, Full)]);
    plan.row::<DrainHalf, _, _>(&[("drain_half", Whole, Anew, Full)]);
    plan.row::<KeysReversed, _, _>(&[("keys_reversed", Whole, Once, Full)]);
    plan.row::<ValuesReversed, _, _>(&[("values_reversed", Whole, Once, Full)]);
    plan.row::<DrainReversed, _, _>(&[("drain_reversed", Whole, Anew, Full)]);
}
