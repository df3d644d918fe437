//! Calls that go over all entries of a map, or of two.
use crate::fill::Fill::{Empty, Full, Thinned};
use crate::fill::Made::{Anew, Once};
use crate::fill::{Fill, Filled, Map};
use crate::keys::Keys;
use crate::lists::Order::{Both, Whole};
use crate::lists::items;
use crate::plan::{Plan, Row};
use crate::results::{is_even, len_after};
use hashlink::LinkedHashMap;
use std::hash::BuildHasher;

struct Clear;

impl Row<Map, u64> for Clear {
    #[inline(always)]
    fn call(map: &mut Map, _place: u64, _item: &u64) -> Option<u64> {
        map.clear();
        Some(map.len() as u64)
    }
}

/// The end of a map: its drop.
struct End;

impl Row<Map, u64> for End {
    #[inline(always)]
    fn call(map: &mut Map, _place: u64, _item: &u64) -> Option<u64> {
        *map = LinkedHashMap::new(map.allocator());
        Some(map.len() as u64)
    }
}

/// Keeps about half of the entries.
struct Retain;

impl Row<Map, u64> for Retain {
    #[inline(always)]
    fn call(map: &mut Map, _place: u64, _item: &u64) -> Option<u64> {
        map.retain(is_even);
        Some(map.len() as u64)
    }
}

struct Reserve;

impl Row<Map, u64> for Reserve {
    #[inline(always)]
    fn call(map: &mut Map, _place: u64, _item: &u64) -> Option<u64> {
        len_after(map.reserve(map.len()), map.len())
    }
}

/// Frees the room that no entry needs, and the free nodes.
struct Shrink;

impl Row<Map, u64> for Shrink {
    #[inline(always)]
    fn call(map: &mut Map, _place: u64, _item: &u64) -> Option<u64> {
        len_after(map.shrink_to_fit(), map.len())
    }
}

struct CloneAll;

impl Row<(Map, Map), u64> for CloneAll {
    #[inline(always)]
    fn call(maps: &mut (Map, Map), _place: u64, _item: &u64) -> Option<u64> {
        maps.1 = maps.0.clone().ok()?;
        Some(maps.1.len() as u64)
    }
}

struct ExtendRef;

impl Row<(Map, Map), u64> for ExtendRef {
    #[inline(always)]
    fn call(maps: &mut (Map, Map), _place: u64, _item: &u64) -> Option<u64> {
        len_after(maps.1.extend_ref(maps.0.iter()), maps.1.len())
    }
}

/// Of two maps or two sets.
pub(crate) struct IsEqual;

impl<C: PartialEq> Row<(C, C), u64> for IsEqual {
    #[inline(always)]
    fn call(both: &mut (C, C), _place: u64, _item: &u64) -> Option<u64> {
        Some(u64::from(both.0 == both.1))
    }
}

struct IsAtMost;

impl Row<(Map, Map), u64> for IsAtMost {
    #[inline(always)]
    fn call(maps: &mut (Map, Map), _place: u64, _item: &u64) -> Option<u64> {
        Some(u64::from(maps.0 <= maps.1))
    }
}

/// Hashes both maps. The hashes are equal because the maps are.
struct HashBoth;

impl Row<(Map, Map), u64> for HashBoth {
    #[inline(always)]
    fn call(maps: &mut (Map, Map), _place: u64, _item: &u64) -> Option<u64> {
        let hasher = maps.0.hasher();
        Some(u64::from(hasher.hash_one(&maps.0) == hasher.hash_one(&maps.1)))
    }
}

/// Pairs, and a map for them.
type Pairs = (Vec<(u64, u64)>, Map);

/// The held keys, each with another as its value, and an empty map.
impl Filled for Pairs {
    fn filled(keys: &Keys, _fill: Fill) -> Option<Pairs> {
        let pairs = items(keys.alloc, &keys.held, &keys.absent).ok()?;
        Some((pairs, LinkedHashMap::new(keys.alloc)))
    }
}

struct Build;

impl Row<Pairs, u64> for Build {
    #[inline(always)]
    fn call(pairs: &mut Pairs, _place: u64, _item: &u64) -> Option<u64> {
        let alloc = pairs.1.allocator();
        pairs.1 = LinkedHashMap::from_iter(alloc, pairs.0.iter().copied()).ok()?;
        Some(pairs.1.len() as u64)
    }
}

struct Extend;

impl Row<Pairs, u64> for Extend {
    #[inline(always)]
    fn call(pairs: &mut Pairs, _place: u64, _item: &u64) -> Option<u64> {
        len_after(pairs.1.extend(pairs.0.iter().copied()), pairs.1.len())
    }
}

/// By an iterator that is kept.
struct ExtendFrom;

impl Row<Pairs, u64> for ExtendFrom {
    #[inline(always)]
    fn call(pairs: &mut Pairs, _place: u64, _item: &u64) -> Option<u64> {
        let mut items = pairs.0.iter().copied();
        len_after(pairs.1.extend_from(&mut items), pairs.1.len())
    }
}

/// By a function that is kept.
struct RetainFrom;

impl Row<Map, u64> for RetainFrom {
    #[inline(always)]
    fn call(map: &mut Map, _place: u64, _item: &u64) -> Option<u64> {
        map.retain_from(&mut is_even);
        Some(map.len() as u64)
    }
}

pub(crate) fn rows(plan: &Plan<'_>) {
    plan.kind("wholes");
    plan.row::<Clear, _, _>(&[("clear", Whole, Anew, Full)]);
    plan.row::<End, _, _>(&[("drop", Whole, Anew, Full)]);
    plan.row::<Retain, _, _>(&[("retain", Whole, Anew, Full)]);
    plan.row::<Reserve, _, _>(&[("reserve", Whole, Anew, Full)]);
    plan.row::<Shrink, _, _>(&[("shrink_to_fit", Whole, Anew, Thinned)]);
    plan.row::<Build, _, _>(&[("from_iter", Whole, Anew, Empty)]);
    plan.row::<Extend, _, _>(&[("extend", Whole, Anew, Empty)]);
    plan.row::<CloneAll, _, _>(&[("clone", Whole, Anew, Empty)]);
    plan.row::<ExtendRef, _, _>(&[("extend_ref", Whole, Anew, Empty)]);
    plan.row::<IsEqual, (Map, Map), _>(&[("eq", Whole, Once, Full)]);
    plan.row::<IsAtMost, _, _>(&[("le", Whole, Once, Full)]);
    plan.row::<HashBoth, _, _>(&[("hash", Both, Once, Full)]);
    plan.row::<ExtendFrom, _, _>(&[("extend_from", Whole, Anew, Empty)]);
    plan.row::<RetainFrom, _, _>(&[("retain_from", Whole, Anew, Full)]);
}
