//! Lines that call a cache and need at most one of its entries. The others are in `cache_many`.
use crate::calls::cache_many::call_many;
use crate::calls::entries::not_made;
use crate::hashers::Hashing;
use crate::items::{
    Answer, Item, Line, Name, Shown, Stop, Word, made, no_memory, put, write, write_item,
};
use crate::spoken::Spoken;
use hashlink_lru::LruCache;
use std::alloc::{AllocError, Global};
use std::mem;

pub type Cache = LruCache<Item, Item, Hashing>;

impl Spoken for Cache {
    fn count_items(&self) -> usize {
        self.len().saturating_mul(2)
    }

    fn call(&mut self, _other: &Cache, line: &mut Line<'_>) -> Result<(), Stop> {
        let name = line.words.word();
        let word = match_word!(name,
            "len" => Word::count(self.len()),
            "is_empty" => Word::Is(self.is_empty()),
            "capacity" => Word::count(self.capacity()),
            "peek_lru" => self.peek_lru().shown(),
            "back" => self.back().shown(),
            "make_room" => self.make_room().shown(),
            "remove_lru" => self.remove_lru().shown(),
            "clear" => self.clear().shown(),
            "clone" => made(self.clone(), self),
            "try_take" => taken(mem::try_take(self)),
            "new" => Word::count(new(line.home.alloc, self.capacity()).capacity()),
            "set_capacity" => self.set_capacity(line.words.size()).shown(),
            _ => return call_many(self, name, line),
        );
        line.say(word)
    }
}

/// How many entries the cache had that was taken out.
fn taken(taken: Result<Cache, AllocError>) -> Word {
    match taken {
        Ok(cache) => Word::count(cache.len()),
        Err(AllocError) => Word::Memory,
    }
}

/// A cache of this capacity with the default hasher.
fn new(alloc: Global, capacity: usize) -> LruCache<Name, Name> {
    LruCache::new(alloc, capacity)
}

/// Makes the call of this name, if it takes the key that the next word names. What is lent for writing is
/// written, if a name follows.
pub fn call_of_key(cache: &mut Cache, name: &str, line: &mut Line<'_>) -> Result<(), Stop> {
    let key = line.item()?;
    let word = match_word!(name,
        "get" => cache.get(&key).shown(),
        "peek" => cache.peek(&key).shown(),
        "contains_key" => Word::Is(cache.contains_key(&key)),
        "evicted_by" => cache.evicted_by(&key).shown(),
        "remove" => cache.remove(&key).shown(),
        "remove_entry" => cache.remove_entry(&key).shown(),
        "get_mut" => write(cache.get_mut(&key), line.words.optional()),
        "peek_mut" => write(cache.peek_mut(&key), line.words.optional()),
        "get_or_try_insert_with" => return put_tried(cache, key, line),
        _ => return put_pair(cache, name, key, line),
    );
    line.say(word)
}

/// Makes the call of this name, if it takes a key, and the value that the next word names.
fn put_pair(cache: &mut Cache, name: &str, key: Item, line: &mut Line<'_>) -> Result<(), Stop> {
    let value = line.item()?;
    let answer = match_word!(name,
        "insert" => put(cache.insert(key, value)),
        "push" => put(cache.push(key, value)),
        "get_or_insert_with" => match cache.get_or_insert_with(key, || value) {
            Ok(lent) => Answer::Word(write_item(lent, line.words.optional())),
            Err(pair) => no_memory(pair),
        },
        _ => return Err(Stop::Unread),
    );
    line.give(answer)
}

fn put_tried(cache: &mut Cache, key: Item, line: &mut Line<'_>) -> Result<(), Stop> {
    let (made, new) = line.tried()?;
    let answer = match cache.get_or_try_insert_with(key, || made) {
        Ok(lent) => Answer::Word(write_item(lent, new)),
        Err(error) => not_made(error),
    };
    line.give(answer)
}
