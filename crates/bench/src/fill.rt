//! The contents of containers before the calls of a row.
use crate::keys::Keys;
use crate::lists::items;
use crate::plan::{Row, call_each};
use crate::{caches, inserts};
use hashlink::{LinkedHashMap, LinkedHashSet, LruCache};

/// The contents of a container before the calls of a row.
#[derive(Clone, Copy, PartialEq, Eq)]
pub(crate) enum Fill {
    Empty,
    /// Nothing, but there is room for the keys.
    Roomy,
    /// The held keys. Into a cache of numbers they are inserted from the last one on.
    Full,
    /// The held keys, in another order than that in memory.
    Moved,
    /// The held keys, inserted from the last one on.
    Backwards,
    /// The held keys without about a quarter of them.
    Thinned,
    /// Half of the keys, and there is room for no more.
    Half,
    /// About half of the held keys, and as many absent keys as held keys are left out.
    Overlapping,
    /// The absent keys, which are as many.
    Absent,
}

/// When a container is made.
#[derive(Clone, Copy, PartialEq, Eq)]
pub(crate) enum Made {
    /// Once, for all passes.
    Once,
    /// Anew, for each pass.
    Anew,
}

/// What the calls of a row are made on: a container, or two of them, of which the first is full and the
/// second is filled as the row states.
pub(crate) trait Filled: Drop {
    /// Makes the container, or returns `None` if memory runs out.
    fn filled(keys: &Keys, fill: Fill) -> Option<Self>;
}

pub(crate) type Map = LinkedHashMap<u64, u64>;

/// A map of a type of its own, whose calls are functions that no other rows call.
pub(crate) type LoneMap = LinkedHashMap<u64, u32>;

pub(crate) type Set = LinkedHashSet<u64>;

/// Like `LoneMap`.
pub(crate) type LoneSet = LinkedHashSet<(u64, ())>;

pub(crate) type Cache = LruCache<u64, u64>;

/// Like `LoneMap`.
pub(crate) type LoneCache = LruCache<u64, u32>;

/// Makes the call with each item and its index, and returns what it was made on, or `None` if memory runs
/// out.
pub(crate) fn filled_by<W: Row<S, T>, S: Drop, T>(state: S, items: &[T]) -> Option<S> {
    let mut state = state;
    let sum = call_each::<10, W, S, T>(&mut state, items, 0);
    sum.is_some().then_some(state)
}

/// The index of a key is its value.
impl Filled for Map {
    fn filled(keys: &Keys, fill: Fill) -> Option<Map> {
        match fill {
            Fill::Empty => Some(LinkedHashMap::new(keys.alloc)),
            Fill::Roomy => LinkedHashMap::with_capacity(keys.alloc, keys.size()).ok(),
            Fill::Moved => filled_by::<inserts::Insert, _, _>(full(keys)?, &keys.mixed),
            Fill::Thinned => thinned(keys),
            _ => full(keys),
        }
    }
}

fn full(keys: &Keys) -> Option<Map> {
    filled_by::<inserts::Insert, _, _>(LinkedHashMap::new(keys.alloc), &keys.held)
}

fn thinned(keys: &Keys) -> Option<Map> {
    let mut map = full(keys)?;
    map.retain(|key, _| *key % 4 != 0);
    Some(map)
}

impl Filled for Set {
    fn filled(keys: &Keys, fill: Fill) -> Option<Set> {
        let (even, odd) = match fill {
            Fill::Empty => return Some(LinkedHashSet::new(keys.alloc)),
            Fill::Moved => (&keys.mixed, &keys.mixed),
            Fill::Overlapping => (&keys.mixed, &keys.absent),
            Fill::Absent => (&keys.absent, &keys.absent),
            _ => (&keys.held, &keys.held),
        };
        let pairs: Vec<(u64, u64)> = items(keys.alloc, even, odd).ok()?;
        filled_by::<InsertEven, _, _>(LinkedHashSet::new(keys.alloc), &pairs)
    }
}

/// Inserts the first key if it is even, else the second one.
struct InsertEven;

impl Row<Set, (u64, u64)> for InsertEven {
    fn call(set: &mut Set, place: u64, item: &(u64, u64)) -> Option<u64> {
        let (even, odd) = *item;
        let is_new = set.insert(if even % 2 == 0 { even } else { odd });
        is_new.is_ok().then_some(place)
    }
}

impl Filled for Cache {
    fn filled(keys: &Keys, fill: Fill) -> Option<Cache> {
        let capacity = if fill == Fill::Half {
            keys.half()
        } else {
            keys.size()
        };
        filled_by::<caches::Insert, _, _>(LruCache::new(keys.alloc, capacity), &keys.backwards)
    }
}

/// Inserts a key into a container of a type of its own.
struct InsertLone;

impl Row<LoneMap, u64> for InsertLone {
    fn call(map: &mut LoneMap, place: u64, key: &u64) -> Option<u64> {
        let value = u32::try_from(place).unwrap_or(u32::MAX);
        map.insert(*key, value).is_ok().then_some(place)
    }
}

impl Row<LoneSet, u64> for InsertLone {
    fn call(set: &mut LoneSet, place: u64, key: &u64) -> Option<u64> {
        set.insert((*key, ())).is_ok().then_some(place)
    }
}

impl Row<LoneCache, u64> for InsertLone {
    fn call(cache: &mut LoneCache, place: u64, key: &u64) -> Option<u64> {
        let value = u32::try_from(place).unwrap_or(u32::MAX);
        cache.insert(*key, value).is_ok().then_some(place)
    }
}

impl Filled for LoneMap {
    fn filled(keys: &Keys, _fill: Fill) -> Option<LoneMap> {
        filled_by::<InsertLone, _, _>(LinkedHashMap::new(keys.alloc), &keys.held)
    }
}

impl Filled for LoneSet {
    fn filled(keys: &Keys, _fill: Fill) -> Option<LoneSet> {
        filled_by::<InsertLone, _, _>(LinkedHashSet::new(keys.alloc), &keys.held)
    }
}

impl Filled for LoneCache {
    fn filled(keys: &Keys, _fill: Fill) -> Option<LoneCache> {
        filled_by::<InsertLone, _, _>(LruCache::new(keys.alloc, keys.size()), &keys.held)
    }
}

impl<C: Filled> Filled for (C, C) {
    fn filled(keys: &Keys, fill: Fill) -> Option<(C, C)> {
        Some((C::filled(keys, Fill::Full)?, C::filled(keys, fill)?))
    }
}

/// A container that a call takes by value.
impl<C: Filled> Filled for Option<C> {
    fn filled(keys: &Keys, fill: Fill) -> Option<Option<C>> {
        Some(Some(C::filled(keys, fill)?))
    }
}
