//! Lines that call a cache about many pairs, or by its map, an iterator or an entry.
use crate::calls::cache_calls::{Cache, call_of_key};
use crate::calls::entries::call_entry;
use crate::calls::extended::{TakesMany, extended, put_rest};
use crate::calls::map_calls::call_map;
use crate::calls::raw_entries::{call_found, put_found};
use crate::items::{
    Answer, Exact, Item, Line, RawCall, Shown, Stop, Word, is_even, is_raised, walk_and_clone,
    walk_and_forget, walk_whole,
};
use hashlink_lru::LruCache;
use std::alloc::Global;
use std::mem;
use std::vec::IntoIter;

/// Makes the call of this name, if it is one of these.
pub fn call_many(cache: &mut Cache, name: &str, line: &mut Line<'_>) -> Result<(), Stop> {
    match_word!(name,
        "retain" | "retain_from" => retain(cache, name, line),
        "inside" => call_map(cache.map_mut(), line),
        "entry" => call_entry(cache.entry(line.item()?), line),
        "raw" => call_raw(cache, line),
        "raw_read" => read_raw(cache, line),
        "iter" => walk_and_clone(cache.iter(), line),
        "keys" => walk_and_clone(cache.keys(), line),
        "values" => walk_and_clone(cache.values(), line),
        "iter_mut" => walk_whole(cache.iter_mut(), line),
        "drain" => walk_whole(cache.drain(), line),
        "forgotten_drain" => walk_and_forget(cache.drain(), 2, line),
        "into_iter" => walk_whole(Exact(take(cache, line.home.alloc).into_iter()), line),
        "extend" | "extend_from" | "extend_kept" | "extend_by_trait" => put_rest(cache, name, line),
        _ => call_of_key(cache, name, line),
    )
}

impl TakesMany<(Item, Item)> for Cache {
    fn extend_by(&mut self, is_from: bool, pairs: &mut IntoIter<(Item, Item)>) -> Answer {
        extended(if is_from {
            self.extend_from(&mut *pairs)
        } else {
            self.extend(&mut *pairs)
        })
    }
}

/// Whether a retain keeps `even` values, or else `odd` keys.
const IS_EVEN: [(&str, bool); 2] = [("even", true), ("odd", false)];

/// Keeps what the next word names, by the call of this name.
fn retain(cache: &mut Cache, name: &str, line: &mut Line<'_>) -> Result<(), Stop> {
    match (name == "retain", line.words.named(&IS_EVEN)?) {
        (true, true) => cache.retain(is_even),
        (true, false) => cache.retain(is_raised),
        (false, true) => cache.retain_from(&mut is_even),
        (false, false) => cache.retain_from(&mut is_raised),
    }
    line.say(Word::Done)
}

/// Takes the cache, and leaves an empty one in its place.
fn take(cache: &mut Cache, alloc: Global) -> Cache {
    let empty = LruCache::with_hasher(alloc, cache.capacity(), *cache.hasher());
    mem::replace(cache, empty)
}

/// Makes the call that the words name on a raw entry.
fn call_raw(cache: &mut Cache, line: &mut Line<'_>) -> Result<(), Stop> {
    let _way = line.words.word();
    let key = line.item()?;
    match RawCall::read(&mut line.words)? {
        RawCall::Make(call) => {
            let (value, new) = line.lent_item()?;
            line.give(put_found(cache.raw_entry_mut(), call, key, value, new))
        }
        call => call_found(cache.raw_entry_mut().from_key(&key), call, line),
    }
}

/// Reads the pair of a key.
fn read_raw(cache: &Cache, line: &mut Line<'_>) -> Result<(), Stop> {
    let _way = line.words.word();
    let key = line.item()?;
    line.say(cache.raw_entry().from_key(&key).shown())
}
