//! Lines that call a map and need at most one of its entries. The others are in `map_many`.
use crate::calls::map_many::call_many;
use crate::hashers::Hashing;
use crate::items::{
    Answer, Item, Line, Name, Shown, Stop, Word, has_room, made, no_memory, put, write, write_item,
};
use hashlink_map::LinkedHashMap;
use std::alloc::AllocError;
use std::mem;

pub type Map = LinkedHashMap<Item, Item, Hashing>;

/// Makes the call that a line names.
pub fn call_map(map: &mut Map, line: &mut Line<'_>) -> Result<(), Stop> {
    let name = line.words.word();
    let word = match_word!(name,
        "front" => map.front().shown(),
        "back" => map.back().shown(),
        "len" => Word::count(map.len()),
        "is_empty" => Word::Is(map.is_empty()),
        "pop_front" => map.pop_front().shown(),
        "pop_back" => map.pop_back().shown(),
        "clear" => map.clear().shown(),
        "shrink" => map.shrink_to_fit().shown(),
        "clone" => made(map.clone(), map),
        "try_take" => taken(mem::try_take(map)),
        "new" => Word::count(LinkedHashMap::<Name, Name>::new(line.home.alloc).capacity()),
        "back_value_mut" => write(map.back_value_mut(), line.words.optional()),
        "reserve" => map.reserve(line.words.size()).shown(),
        "try_reserve" => map.try_reserve(line.words.size()).shown(),
        "room" => has_room(map.capacity(), map.len(), line.words.size()),
        "capacity" => Word::Is(map.capacity() == line.words.size()),
        "under" => Word::Is(map.capacity() < line.words.size()),
        "with_capacity" => made(
            LinkedHashMap::with_capacity_and_hasher(line.home.alloc, line.words.size(), *map.hasher()),
            map,
        ),
        _ => return call_many(map, name, line),
    );
    line.say(word)
}

/// How many entries the map had that was taken out.
fn taken(taken: Result<Map, AllocError>) -> Word {
    match taken {
        Ok(map) => Word::count(map.len()),
        Err(AllocError) => Word::Memory,
    }
}

/// Makes the call of this name, if it takes the key that the next word names. What is lent for writing is
/// written, if a name follows.
pub fn call_of_key(map: &mut Map, name: &str, line: &mut Line<'_>) -> Result<(), Stop> {
    let key = line.item()?;
    let word = match_word!(name,
        "get" => map.get(&key).shown(),
        "contains_key" => Word::Is(map.contains_key(&key)),
        "get_key_value" => map.get_key_value(&key).shown(),
        "index" => index(map, &key),
        "remove" => map.remove(&key).shown(),
        "remove_entry" => map.remove_entry(&key).shown(),
        "get_mut" => write(map.get_mut(&key), line.words.optional()),
        "to_front" => write(map.to_front(&key), line.words.optional()),
        "to_back" => write(map.to_back(&key), line.words.optional()),
        "index_mut" => index_mut(map, &key, line.words.optional()),
        _ => return put_pair(map, name, key, line),
    );
    line.say(word)
}

fn index(map: &Map, key: &Item) -> Word {
    if map.contains_key(key) {
        return Word::item(map[key].name());
    }
    Word::Nothing
}

fn index_mut(map: &mut Map, key: &Item, new: Option<Name>) -> Word {
    if map.contains_key(key) {
        return write_item(&mut map[key], new);
    }
    Word::Nothing
}

/// Makes the call of this name, if it takes a key, and the value that the next word names.
fn put_pair(map: &mut Map, name: &str, key: Item, line: &mut Line<'_>) -> Result<(), Stop> {
    let value = line.item()?;
    let answer = match_word!(name,
        "insert" => put(map.insert(key, value)),
        "insert_front" => put(map.insert_front(key, value)),
        "replace" => put(map.replace(key, value)),
        "get_or_insert_with" => match map.get_or_insert_with(key, || value) {
            Ok(lent) => Answer::Word(write_item(lent, line.words.optional())),
            Err(pair) => no_memory(pair),
        },
        _ => return Err(Stop::Unread),
    );
    line.give(answer)
}
