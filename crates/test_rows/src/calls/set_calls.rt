//! Lines that call a set and need at most one of its elements. The others are in `set_many`.
use crate::calls::set_many::call_many;
use crate::hashers::Hashing;
use crate::items::{Answer, Item, Line, Name, Shown, Stop, Word, has_room, made, no_memory, put};
use hashlink_set::LinkedHashSet;
use std::alloc::AllocError;
use std::mem;

pub type Set = LinkedHashSet<Item, Hashing>;

/// Makes the call that a line names.
pub fn call_set(set: &mut Set, line: &mut Line<'_>) -> Result<(), Stop> {
    let name = line.words.word();
    let word = match_word!(name,
        "front" => set.front().shown(),
        "back" => set.back().shown(),
        "len" => Word::count(set.len()),
        "is_empty" => Word::Is(set.is_empty()),
        "pop_front" => set.pop_front().shown(),
        "pop_back" => set.pop_back().shown(),
        "clear" => set.clear().shown(),
        "shrink" => set.shrink_to_fit().shown(),
        "clone" => made(set.clone(), set),
        "try_take" => taken(mem::try_take(set)),
        "new" => Word::count(LinkedHashSet::<Name>::new(line.home.alloc).capacity()),
        "reserve" => set.reserve(line.words.size()).shown(),
        "try_reserve" => set.try_reserve(line.words.size()).shown(),
        "room" => has_room(set.capacity(), set.len(), line.words.size()),
        "capacity" => Word::Is(set.capacity() == line.words.size()),
        "under" => Word::Is(set.capacity() < line.words.size()),
        "with_capacity" => made(
            LinkedHashSet::with_capacity_and_hasher(line.home.alloc, line.words.size(), *set.hasher()),
            set,
        ),
        _ => return call_many(set, name, line),
    );
    line.say(word)
}

/// How many elements the set had that was taken out.
fn taken(taken: Result<Set, AllocError>) -> Word {
    match taken {
        Ok(set) => Word::count(set.len()),
        Err(AllocError) => Word::Memory,
    }
}

/// Makes the call of this name, if it takes the element that the next word names.
pub fn call_of_element(set: &mut Set, name: &str, line: &mut Line<'_>) -> Result<(), Stop> {
    let element = line.item()?;
    let word = match_word!(name,
        "contains" => Word::Is(set.contains(&element)),
        "get" => set.get(&element).shown(),
        "to_front" => Word::Is(set.to_front(&element)),
        "to_back" => Word::Is(set.to_back(&element)),
        "remove" => Word::Is(set.remove(&element)),
        "take" => set.take(&element).shown(),
        _ => return put_in(set, name, element, line),
    );
    line.say(word)
}

/// Makes the call of this name, if it puts the element in.
fn put_in(set: &mut Set, name: &str, element: Item, line: &mut Line<'_>) -> Result<(), Stop> {
    let answer = match_word!(name,
        "insert" => match set.insert(element) {
            Ok(is_new) => Answer::Word(Word::Is(is_new)),
            Err(element) => no_memory(element),
        },
        "replace" => put(set.replace(element)),
        "get_or_insert" => put(set.get_or_insert(element)),
        _ => return Err(Stop::Unread),
    );
    line.give(answer)
}
