//! Lines that call raw entries.
use crate::calls::map_calls::Map;
use crate::calls::map_cursors::take_all_steps;
use crate::hashers::Hashing;
use crate::items::{
    Answer, By, Item, Line, Make, Name, RawAsk, RawCall, Shown, Stop, Word, no_memory, set,
    write_item, write_pair,
};
use hashlink_map::{RawEntryBuilderMut, RawEntryMut};
use std::hash::BuildHasher;

type Raw<'m> = RawEntryMut<'m, Item, Item, Hashing>;

type Entries<'m> = RawEntryBuilderMut<'m, Item, Item, Hashing>;

/// A way to look a key up.
#[derive(Clone, Copy)]
enum Way {
    Key,
    Hash,
    Test,
    OfKey,
    OfHash,
    OfTest,
}

const WAYS: [(&str, Way); 6] = [
    ("key", Way::Key),
    ("hash", Way::Hash),
    ("test", Way::Test),
    ("of_key", Way::OfKey),
    ("of_hash", Way::OfHash),
    ("of_test", Way::OfTest),
];

/// Reads the pair of a key in the way that the words name.
pub fn read_raw(map: &Map, line: &mut Line<'_>) -> Result<(), Stop> {
    let way = line.words.named(&WAYS)?;
    let key = line.item()?;
    line.say(read_at(map, way, &key))
}

/// The pair of a key. If the way takes the hash, it is computed first.
fn read_at(map: &Map, way: Way, key: &Item) -> Word {
    match way {
        Way::Key | Way::OfKey => map.raw_entry().from_key(key).shown(),
        Way::Hash | Way::OfHash => {
            let hash = map.hasher().hash_one(key);
            map.raw_entry().from_key_hashed_nocheck(hash, key).shown()
        }
        Way::Test | Way::OfTest => {
            let hash = map.hasher().hash_one(key);
            map.raw_entry()
                .from_hash(hash, |stored| *stored == *key)
                .shown()
        }
    }
}

/// The raw entry of a key. If the way takes the hash, it is computed first.
fn raw_of<'m>(map: &'m mut Map, way: Way, key: &Item) -> Raw<'m> {
    match way {
        Way::Key => map.raw_entry_mut().from_key(key),
        Way::OfKey => map.raw_entry_of(key),
        Way::Hash | Way::OfHash => raw_of_hash(map, way, key),
        Way::Test | Way::OfTest => raw_of_test(map, way, key),
    }
}

fn raw_of_hash<'m>(map: &'m mut Map, way: Way, key: &Item) -> Raw<'m> {
    let hash = map.hasher().hash_one(key);
    match way {
        Way::Hash => map.raw_entry_mut().from_key_hashed_nocheck(hash, key),
        _ => map.raw_entry_hashed_nocheck(hash, key),
    }
}

fn raw_of_test<'m>(map: &'m mut Map, way: Way, key: &Item) -> Raw<'m> {
    let hash = map.hasher().hash_one(key);
    let is_equal = |stored: &Item| *stored == *key;
    match way {
        Way::Test => map.raw_entry_mut().from_hash(hash, is_equal),
        _ => map.raw_entry_from_hash(hash, is_equal),
    }
}

/// Makes the call of a raw entry of a map that the words name: the way, the key and the call. A call that
/// inserts an absent key has another name than one that needs an entry.
pub fn call_raw(map: &mut Map, line: &mut Line<'_>) -> Result<(), Stop> {
    let way = line.words.named(&WAYS)?;
    let key = line.item()?;
    match RawCall::read(&mut line.words)? {
        RawCall::ReplaceKey => line.say(replace_key(map, key)),
        RawCall::Make(call) => {
            let (value, new) = line.lent_item()?;
            line.give(put_found(map.raw_entry_mut(), call, key, value, new))
        }
        RawCall::Lend(by) => {
            let (value, new) = line.lent_item()?;
            line.give(put_lent(map, by, key, value, new))
        }
        RawCall::Enter(by) => {
            let (value, new) = line.lent_item()?;
            line.give(put_entry(map, by, key, value, new))
        }
        call => call_found(raw_of(map, way, &key), call, line),
    }
}

/// Makes a call of a raw entry that has to be occupied.
pub fn call_found(entry: Raw<'_>, call: RawCall, line: &mut Line<'_>) -> Result<(), Stop> {
    match call {
        RawCall::Modify => {
            let new = line.words.optional();
            line.say(modify(entry, new))
        }
        RawCall::Ask(call) => {
            let new = line.words.optional();
            line.say(ask(entry, call, new))
        }
        RawCall::ReplaceValue => {
            let value = line.item()?;
            line.say(replace_at(entry, value))
        }
        RawCall::Cursor => steps_at(entry, line),
        RawCall::ReplaceKey | RawCall::Make(_) | RawCall::Lend(_) | RawCall::Enter(_) => {
            Err(Stop::Unread)
        }
    }
}

fn ask(entry: Raw<'_>, call: RawAsk, new: Option<Name>) -> Word {
    match entry {
        RawEntryMut::Occupied(mut entry) => match call {
            RawAsk::Get => (entry.key(), entry.get()).shown(),
            RawAsk::GetKeyValue => entry.get_key_value().shown(),
            RawAsk::ToFront => {
                entry.to_front();
                entry.get_key_value().shown()
            }
            RawAsk::ToBack => {
                entry.to_back();
                entry.get_key_value().shown()
            }
            RawAsk::IntoKey => entry.into_key().shown(),
            RawAsk::Remove => entry.remove().shown(),
            RawAsk::RemoveEntry => entry.remove_entry().shown(),
            RawAsk::GetMut => write_item(entry.get_mut(), new),
            RawAsk::GetKeyValueMut => write_item(entry.get_key_value_mut().1, new),
            RawAsk::IntoMut => write_item(entry.into_mut(), new),
            RawAsk::IntoKeyValue => write_item(entry.into_key_value().1, new),
        },
        RawEntryMut::Vacant(_vacant) => Word::Nothing,
    }
}

/// Writes the value if the key is present.
fn modify(entry: Raw<'_>, new: Option<Name>) -> Word {
    match entry.and_modify(|_, lent| set(lent, new)) {
        RawEntryMut::Occupied(entry) => entry.get_key_value().shown(),
        RawEntryMut::Vacant(_vacant) => Word::Nothing,
    }
}

/// Makes a call that inserts a pair if its key is absent, and lends the pair that is then present.
pub fn put_found(
    entries: Entries<'_>,
    call: Make,
    key: Item,
    value: Item,
    new: Option<Name>,
) -> Answer {
    let entry = entries.from_key(&key);
    let lent = match call {
        Make::OrInsert => entry.or_insert(key, value),
        Make::OrInsertWith => entry.or_insert_with(|| (key, value)),
    };
    match lent {
        Ok(pair) => Answer::Word(write_pair(Some(pair), new)),
        Err(pair) => no_memory(pair),
    }
}

fn replace_at(entry: Raw<'_>, value: Item) -> Word {
    match entry {
        RawEntryMut::Occupied(mut entry) => entry.replace_value(value).shown(),
        RawEntryMut::Vacant(_vacant) => Word::Nothing,
    }
}

fn steps_at(entry: Raw<'_>, line: &mut Line<'_>) -> Result<(), Stop> {
    match entry {
        RawEntryMut::Occupied(entry) => { take_all_steps(&mut entry.cursor_mut(), line) }
        RawEntryMut::Vacant(_vacant) => line.say(Word::Nothing),
    }
}

/// Makes a call of the entry at an end.
pub fn call_end(map: &mut Map, is_front: bool, line: &mut Line<'_>) -> Result<(), Stop> {
    let call = RawCall::read(&mut line.words)?;
    let entry = if is_front {
        map.front_entry()
    } else {
        map.back_entry()
    };
    match entry {
        Some(entry) => call_found(RawEntryMut::Occupied(entry), call, line),
        None => line.say(Word::Nothing),
    }
}

/// Makes a call that inserts a pair whose key is absent. Records the pair that is lent, and writes to it.
fn put_lent(map: &mut Map, by: By, key: Item, value: Item, new: Option<Name>) -> Answer {
    let builder = *map.hasher();
    let hash = builder.hash_one(&key);
    let RawEntryMut::Vacant(entry) = map.raw_entry_hashed_nocheck(hash, &key) else {
        return Answer::Word(Word::Nothing);
    };
    let lent = match by {
        By::Itself => entry.insert(key, value),
        By::Hash => entry.insert_hashed_nocheck(hash, key, value),
        By::Hasher => {
            entry.insert_with_hasher(hash, key, value, |stored| builder.hash_one(stored))
        }
    };
    match lent {
        Ok(pair) => Answer::Word(write_pair(Some(pair), new)),
        Err(pair) => no_memory(pair),
    }
}

/// The same for a call that makes the pair an entry, which is written and then recorded.
fn put_entry(map: &mut Map, by: By, key: Item, value: Item, new: Option<Name>) -> Answer {
    let builder = *map.hasher();
    let hash = builder.hash_one(&key);
    let RawEntryMut::Vacant(entry) = map.raw_entry_hashed_nocheck(hash, &key) else {
        return Answer::Word(Word::Nothing);
    };
    let made = match by {
        By::Itself => entry.insert_entry(key, value),
        By::Hash => entry.insert_entry_hashed_nocheck(hash, key, value),
        By::Hasher => {
            entry.insert_entry_with_hasher(hash, key, value, |stored| builder.hash_one(stored))
        }
    };
    match made {
        Ok(mut entry) => {
            set(entry.get_mut(), new);
            Answer::Word(entry.get_key_value().shown())
        }
        Err(pair) => no_memory(pair),
    }
}

/// Replaces the stored key, and returns the old key and its value, if the entry found has the line's key.
fn replace_key(map: &mut Map, key: Item) -> Word {
    match map.raw_entry_mut().from_key(&key) {
        RawEntryMut::Occupied(mut entry) if key == *entry.key() => {
            let old = entry.replace_key(key);
            (&old, entry.get()).shown()
        }
        _ => Word::Nothing,
    }
}
