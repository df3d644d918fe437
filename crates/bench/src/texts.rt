//! The calls of maps and caches whose keys are texts, which are queried by `&str`. An insert takes a copy of
//! the text that it gets.
use crate::fill::Fill::{Backwards, Empty, Full, Half};
use crate::fill::Made::{Anew, Once};
use crate::fill::{Fill, Filled, filled_by};
use crate::keys::Keys;
use crate::lists::Order::{
    Absent, AbsentAndHeld, Exchanges, Held, Mixed, MixedByTurns, ZipfPlaces,
};
use crate::lists::{Listed, items};
use crate::plan::{Plan, Row, fold};
use crate::results::{old_or, value_or};
use hashlink::{LinkedHashMap, LruCache};
use std::alloc::{AllocError, Global};

type Map = LinkedHashMap<String, u64>;

type Cache = LruCache<String, u64>;

/// Only the key, in 20 bytes.
impl Listed for String {
    fn of(alloc: Global, key: u64, _other: u64) -> Result<String, AllocError> {
        format!(in alloc; "{key:020}")
    }
}

impl Listed for (String, String) {
    fn of(alloc: Global, key: u64, other: u64) -> Result<(String, String), AllocError> {
        Ok((
            String::of(alloc, key, other)?,
            String::of(alloc, other, key)?,
        ))
    }
}

/// Texts that are inserted into a map, the last one first. They are made before the timing.
type Coming = (Vec<String>, Map);

impl Filled for Coming {
    fn filled(keys: &Keys, _fill: Fill) -> Option<Coming> {
        let texts = items(keys.alloc, &keys.held, &keys.held).ok()?;
        Some((texts, LinkedHashMap::new(keys.alloc)))
    }
}

struct Insert;

impl Row<Coming, u64> for Insert {
    #[inline(always)]
    fn call(coming: &mut Coming, place: u64, key: &u64) -> Option<u64> {
        let Some(text) = coming.0.pop() else {
            return Some(place);
        };
        old_or(coming.1.insert(text, place), *key)
    }
}

impl Filled for Map {
    fn filled(keys: &Keys, fill: Fill) -> Option<Map> {
        if fill == Fill::Backwards {
            backwards(keys)
        } else {
            in_order(keys)
        }
    }
}

fn backwards(keys: &Keys) -> Option<Map> {
    let coming = filled_by::<Insert, _, _>(Coming::filled(keys, Fill::Empty)?, &keys.held)?;
    Some(coming.1)
}

fn in_order(keys: &Keys) -> Option<Map> {
    let texts: Vec<String> = items(keys.alloc, &keys.held, &keys.held).ok()?;
    filled_by::<Update, _, _>(LinkedHashMap::new(keys.alloc), &texts)
}

struct Get;

impl Row<Map, String> for Get {
    #[inline(always)]
    fn call(map: &mut Map, place: u64, text: &String) -> Option<u64> {
        value_or(map.get(text.as_str()), place)
    }
}

struct ContainsKey;

impl Row<Map, String> for ContainsKey {
    #[inline(always)]
    fn call(map: &mut Map, _place: u64, text: &String) -> Option<u64> {
        Some(u64::from(map.contains_key(text.as_str())))
    }
}

/// An insert, of a text that may be present.
struct Update;

impl Row<Map, String> for Update {
    #[inline(always)]
    fn call(map: &mut Map, place: u64, text: &String) -> Option<u64> {
        let copy = text.clone().ok()?;
        old_or(map.insert(copy, place), place)
    }
}

struct Remove;

impl Row<Map, String> for Remove {
    #[inline(always)]
    fn call(map: &mut Map, place: u64, text: &String) -> Option<u64> {
        Some(map.remove(text.as_str()).unwrap_or(place))
    }
}

/// A removal of a present text and an insert of an absent one.
struct Exchange;

impl Row<Map, (String, String)> for Exchange {
    #[inline(always)]
    fn call(map: &mut Map, place: u64, item: &(String, String)) -> Option<u64> {
        let left = map.remove(item.0.as_str()).unwrap_or(u64::MAX);
        Some(fold(left, Update::call(map, place, &item.1)?))
    }
}

/// A removal of the first entry and an insert of a text, as in a queue.
struct Queue;

impl Row<Map, String> for Queue {
    #[inline(always)]
    fn call(map: &mut Map, place: u64, text: &String) -> Option<u64> {
        let first = match map.pop_front() {
            Some((text, value)) => fold(last_byte(&text), value),
            None => place,
        };
        Some(fold(first, Update::call(map, place, text)?))
    }
}

#[inline(always)]
fn last_byte(text: &str) -> u64 {
    match text.as_bytes().last() {
        Some(byte) => u64::from(*byte),
        None => 0,
    }
}

impl Filled for Cache {
    fn filled(keys: &Keys, _fill: Fill) -> Option<Cache> {
        let texts: Vec<String> = items(keys.alloc, &keys.held, &keys.held).ok()?;
        filled_by::<CacheInsert, _, _>(LruCache::new(keys.alloc, keys.size()), &texts)
    }
}

struct CachePeek;

impl Row<Cache, String> for CachePeek {
    #[inline(always)]
    fn call(cache: &mut Cache, place: u64, text: &String) -> Option<u64> {
        value_or(cache.peek(text.as_str()), place)
    }
}

struct CacheGet;

impl Row<Cache, String> for CacheGet {
    #[inline(always)]
    fn call(cache: &mut Cache, place: u64, text: &String) -> Option<u64> {
        value_or(cache.get(text.as_str()), place)
    }
}

struct CacheInsert;

impl Row<Cache, String> for CacheInsert {
    #[inline(always)]
    fn call(cache: &mut Cache, place: u64, text: &String) -> Option<u64> {
        let copy = text.clone().ok()?;
        old_or(cache.insert(copy, place), place)
    }
}

struct CacheRemove;

impl Row<Cache, String> for CacheRemove {
    #[inline(always)]
    fn call(cache: &mut Cache, place: u64, text: &String) -> Option<u64> {
        Some(cache.remove(text.as_str()).unwrap_or(place))
    }
}

/// Texts, and a cache for some of them.
type Uses = (Vec<String>, Cache);

impl Filled for Uses {
    fn filled(keys: &Keys, fill: Fill) -> Option<Uses> {
        if fill == Fill::Half {
            tokens(keys)
        } else {
            statements(keys)
        }
    }
}

/// A look-up of the text at an index, and an insert of a copy of it if it is absent.
struct UseText;

impl Row<Uses, u64> for UseText {
    #[inline(always)]
    fn call(uses: &mut Uses, place: u64, at: &u64) -> Option<u64> {
        let Some(text) = uses.0.get(*at as usize) else {
            return Some(place);
        };
        if let Some(value) = uses.1.get(text.as_str()) {
            return Some(*value);
        }
        let copy = text.clone().ok()?;
        old_or(uses.1.insert(copy, place), *at)
    }
}

/// A token of 32 bytes.
fn token(alloc: Global, key: u64) -> Result<String, AllocError> {
    let rest = !key;
    format!(in alloc; "{key:016x}{rest:016x}")
}

/// A database statement of 77 bytes, which begins and ends like all others.
fn statement(alloc: Global, key: u64) -> Result<String, AllocError> {
    format!(in alloc; "SELECT name, price FROM articles WHERE shop = {key:020} AND id = ?")
}

/// A token or a statement for each held key.
fn texts_of(keys: &Keys, are_tokens: bool) -> Result<Vec<String>, AllocError> {
    let mut texts = Vec::new(keys.alloc);
    for key in &keys.held {
        let text = if are_tokens {
            token(keys.alloc, *key)?
        } else {
            statement(keys.alloc, *key)?
        };
        texts.push(text)?;
    }
    Ok(texts)
}

/// Uses each text, the first one last.
fn use_each(uses: &mut Uses, keys: &Keys) -> Option<()> {
    for place in keys.places.iter().rev() {
        UseText::call(uses, *place, place)?;
    }
    Some(())
}

/// Tokens, and a cache for half of them that is full.
fn tokens(keys: &Keys) -> Option<Uses> {
    let texts = texts_of(keys, true).ok()?;
    let mut uses = (texts, LruCache::new(keys.alloc, keys.half()));
    use_each(&mut uses, keys).is_some().then_some(uses)
}

/// Statements, and an empty cache for all of them.
fn statements(keys: &Keys) -> Option<Uses> {
    let texts = texts_of(keys, false).ok()?;
    Some((texts, LruCache::new(keys.alloc, keys.size())))
}

pub(crate) fn rows(plan: &Plan<'_>) {
    plan.kind("texts");
    plan.row::<Insert, _, _>(&[("text_insert", Held, Anew, Empty)]);
    plan.row::<Update, _, _>(&[("text_update", MixedByTurns, Once, Backwards)]);
    plan.row::<Get, _, _>(&[
        ("text_get_hit", Mixed, Once, Backwards),
        ("text_get_miss", Absent, Once, Backwards),
    ]);
    plan.row::<ContainsKey, _, _>(&[
        ("text_contains_key_hit", Mixed, Once, Backwards),
        ("text_contains_key_miss", Absent, Once, Backwards),
    ]);
    plan.row::<Remove, _, _>(&[("text_remove_hit", Mixed, Anew, Backwards)]);
    plan.row::<Exchange, _, _>(&[("text_churn", Exchanges, Once, Full)]);
    plan.row::<Queue, _, _>(&[("text_pop_insert", AbsentAndHeld, Once, Full)]);
    plan.row::<CachePeek, _, _>(&[
        ("lru_text_peek_hit", Mixed, Once, Full),
        ("lru_text_peek_miss", Absent, Once, Full),
    ]);
    plan.row::<CacheGet, _, _>(&[
        ("lru_text_get_hit", MixedByTurns, Once, Full),
        ("lru_text_get_miss", Absent, Once, Full),
    ]);
    plan.row::<CacheInsert, _, _>(&[("lru_text_insert_new", AbsentAndHeld, Once, Full)]);
    plan.row::<CacheRemove, _, _>(&[("lru_text_remove_hit", Mixed, Anew, Full)]);
    plan.row::<UseText, _, _>(&[
        ("lru_text", ZipfPlaces, Once, Half),
        ("statement_get", ZipfPlaces, Once, Empty),
    ]);
}
