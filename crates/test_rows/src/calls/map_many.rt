//! Lines that call a map about many pairs, or by an iterator, a cursor or an entry.
use crate::calls::entries::{call_entry, steps_of};
use crate::calls::extended::{TakesMany, extended, make_of_kept, make_of_rest, put_rest};
use crate::calls::map_calls::{Map, call_of_key};
use crate::calls::map_cursors::call_cursor;
use crate::calls::raw_entries::{call_end, call_raw, read_raw};
use crate::hashers::Hashing;
use crate::items::{
    Answer, Exact, Item, Keep, Line, Shown, Stop, Word, made, read_keep, walk_and_clone,
    walk_and_forget, walk_whole,
};
use hashlink_map::{IterFrom, LinkedHashMap};
use std::alloc::Global;
use std::mem;
use std::vec::IntoIter;

/// Makes the call of this name, if it is one of these.
pub fn call_many(map: &mut Map, name: &str, line: &mut Line<'_>) -> Result<(), Stop> {
    match_word!(name,
        "from_iter" => make_of_rest(map, line),
        "from_iter_kept" => make_of_kept(map, line),
        "collect" => line.say(collect(map, line.home.alloc)),
        "retain" | "retain_with_order" | "retain_from" => retain(map, name, line),
        "cursor" => call_cursor(map, line),
        "cursor_of" => steps_of(map.entry(line.item()?), line),
        "entry" => call_entry(map.entry(line.item()?), line),
        "raw" => call_raw(map, line),
        "raw_read" => read_raw(map, line),
        "front_entry" | "back_entry" => call_end(map, name == "front_entry", line),
        _ => walk_map(map, name, line),
    )
}

/// Takes the steps of the iterator of this name, if there is one. Else it makes the call of this name.
fn walk_map(map: &mut Map, name: &str, line: &mut Line<'_>) -> Result<(), Stop> {
    match_word!(name,
        "iter" => walk_and_clone(map.iter(), line),
        "keys" => walk_and_clone(map.keys(), line),
        "values" => walk_and_clone(map.values(), line),
        "iter_mut" => walk_whole(map.iter_mut(), line),
        "values_mut" => walk_whole(map.values_mut(), line),
        "drain" => walk_whole(map.drain(), line),
        "forgotten_drain" => walk_and_forget(map.drain(), 2, line),
        "into_iter" => walk_whole(Exact(take(map, line.home.alloc).into_iter()), line),
        "iter_from" => walk_from(map, line),
        "extend" | "extend_from" | "extend_kept" | "extend_by_trait" => put_rest(map, name, line),
        _ => call_of_key(map, name, line),
    )
}

impl TakesMany<(Item, Item)> for Map {
    fn extend_by(&mut self, is_from: bool, pairs: &mut IntoIter<(Item, Item)>) -> Answer {
        extended(if is_from {
            self.extend_from(&mut *pairs)
        } else {
            self.extend(&mut *pairs)
        })
    }
}

/// Keeps what the next word names, by the call of this name.
fn retain(map: &mut Map, name: &str, line: &mut Line<'_>) -> Result<(), Stop> {
    let keep = read_keep(map.len(), line)?;
    keep_some(map, name, keep, &mut line.answers.words);
    line.say(Word::Done)
}

fn keep_some(map: &mut Map, name: &str, keep: Keep, met: &mut Vec<Word>) {
    let mut keep = |key: &Item, value: &mut Item| keep.keeps(key, value, met);
    match name {
        "retain" => map.retain(keep),
        "retain_with_order" => map.retain_with_order(keep),
        _ => map.retain_from(&mut keep),
    }
}

/// Records the pairs from the entry of a key on, and then that no more follow. The hint is at most the length
/// of the map.
fn walk_from(map: &Map, line: &mut Line<'_>) -> Result<(), Stop> {
    let key = line.item()?;
    let pairs = map.iter_from(&key);
    let (_, most) = pairs.size_hint();
    if most.is_none_or(|most| most > map.len()) {
        return line.say(Word::Wrong);
    }
    say_all(pairs, line)
}

fn say_all(pairs: IterFrom<'_, Item, Item, Hashing>, line: &mut Line<'_>) -> Result<(), Stop> {
    for pair in pairs {
        line.say(pair.shown())?;
    }
    line.say(Word::Nothing)
}

/// Makes the map anew from its own pairs.
fn collect(map: &mut Map, alloc: Global) -> Word {
    let own = take(map, alloc);
    made(LinkedHashMap::from_iter(alloc, own), map)
}

/// Takes the map, and leaves an empty one in its place.
fn take(map: &mut Map, alloc: Global) -> Map {
    let empty = LinkedHashMap::with_hasher(alloc, *map.hasher());
    mem::replace(map, empty)
}
