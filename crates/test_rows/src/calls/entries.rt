//! Calls of the entry of a given key, for a map and for a cache.
use crate::calls::map_cursors::take_all_steps;
use crate::hashers::Hashing;
use crate::items::{
    Add, Answer, Ask, EntryCall, Item, Line, Make, Name, Put, Shown, Stop, Vacant, Word, no_memory,
    set, write_item,
};
use hashlink_map::{Entry, TryInsertError};

type InHand<'m> = Entry<'m, Item, Item, Hashing>;

/// Makes the call of an entry that the words name, which may be followed by steps of a cursor. A call of an
/// occupied entry returns nothing if the key is absent, and a call of a vacant entry if it is present.
pub fn call_entry(entry: InHand<'_>, line: &mut Line<'_>) -> Result<(), Stop> {
    match EntryCall::read(&mut line.words)? {
        EntryCall::Key => line.say(entry.key().shown()),
        EntryCall::Modify => {
            let new = line.words.optional();
            line.say(modify(entry, new))
        }
        EntryCall::Ask(call) => {
            let new = line.words.optional();
            line.say(ask(entry, call, new))
        }
        EntryCall::Make(call) => {
            let (value, new) = line.lent_item()?;
            line.give(make_at(entry, call, value, new))
        }
        EntryCall::TryMake => {
            let (made, new) = line.tried()?;
            line.give(try_make_at(entry, made, new))
        }
        EntryCall::Put(call) => {
            let value = line.item()?;
            line.say(put_at(entry, call, value))
        }
        EntryCall::Vacant(call) => line.say(ask_vacant(entry, call)),
        EntryCall::Add(call) => {
            let (value, new) = line.lent_item()?;
            line.give(add(entry, call, value, new))
        }
        EntryCall::Cursor => steps_of(entry, line),
    }
}

fn ask(entry: InHand<'_>, call: Ask, new: Option<Name>) -> Word {
    match entry {
        Entry::Occupied(mut entry) => match call {
            Ask::Get => (entry.key(), entry.get()).shown(),
            Ask::ToFront => {
                entry.to_front();
                entry.get().shown()
            }
            Ask::ToBack => {
                entry.to_back();
                entry.get().shown()
            }
            Ask::ReplaceKey => entry.replace_key().shown(),
            Ask::IntoKey => entry.into_key().shown(),
            Ask::Remove => entry.remove().shown(),
            Ask::RemoveEntry => entry.remove_entry().shown(),
            Ask::GetMut => write_item(entry.get_mut(), new),
            Ask::IntoMut => write_item(entry.into_mut(), new),
        },
        Entry::Vacant(_vacant) => Word::Nothing,
    }
}

fn ask_vacant(entry: InHand<'_>, call: Vacant) -> Word {
    match entry {
        Entry::Occupied(_occupied) => Word::Nothing,
        Entry::Vacant(entry) => match call {
            Vacant::Key => entry.key().shown(),
            Vacant::IntoKey => entry.into_key().shown(),
            Vacant::Raw => {
                let _raw = entry.raw_entry_mut();
                Word::Done
            }
        },
    }
}

/// Writes the value if the key is present.
fn modify(entry: InHand<'_>, new: Option<Name>) -> Word {
    match entry.and_modify(|lent| set(lent, new)) {
        Entry::Occupied(entry) => entry.get().shown(),
        Entry::Vacant(_vacant) => Word::Nothing,
    }
}

fn make_at(entry: InHand<'_>, call: Make, value: Item, new: Option<Name>) -> Answer {
    let lent = match call {
        Make::OrInsert => entry.or_insert(value),
        Make::OrInsertWith => entry.or_insert_with(|| value),
    };
    match lent {
        Ok(lent) => Answer::Word(write_item(lent, new)),
        Err(pair) => no_memory(pair),
    }
}

fn try_make_at(entry: InHand<'_>, made: Result<Item, Item>, new: Option<Name>) -> Answer {
    match entry.or_try_insert_with(|| made) {
        Ok(lent) => Answer::Word(write_item(lent, new)),
        Err(error) => not_made(error),
    }
}

/// The key and the reason why no value was made, or the pair that is returned.
pub fn not_made(error: TryInsertError<Item, Item, Item>) -> Answer {
    match error {
        TryInsertError::Make(key, why) => Answer::Back(Word::Nothing, (key, why).shown()),
        TryInsertError::Memory(pair) => no_memory(pair),
    }
}

fn put_at(entry: InHand<'_>, call: Put, value: Item) -> Word {
    match entry {
        Entry::Occupied(mut entry) => match call {
            Put::Insert => entry.insert(value).shown(),
            Put::RawReplaceValue => entry.raw_entry_mut().replace_value(value).shown(),
            Put::InsertEntry => entry.insert_entry(value).shown(),
            Put::ReplaceEntry => entry.replace_entry(value).shown(),
        },
        Entry::Vacant(_vacant) => Word::Nothing,
    }
}

fn add(entry: InHand<'_>, call: Add, value: Item, new: Option<Name>) -> Answer {
    match entry {
        Entry::Occupied(_occupied) => Answer::Word(Word::Nothing),
        Entry::Vacant(entry) => match call {
            Add::Insert => match entry.insert(value) {
                Ok(lent) => Answer::Word(write_item(lent, new)),
                Err(pair) => no_memory(pair),
            },
            Add::InsertEntry => match entry.insert_entry(value) {
                Ok(entry) => Answer::Word((entry.key(), entry.get()).shown()),
                Err(pair) => no_memory(pair),
            },
            Add::Take => match entry.insert_entry(value) {
                Ok(entry) => Answer::Word(entry.remove_entry().shown()),
                Err(pair) => no_memory(pair),
            },
        },
    }
}

/// Steps of a cursor that starts at the entry.
pub fn steps_of(entry: InHand<'_>, line: &mut Line<'_>) -> Result<(), Stop> {
    match entry {
        Entry::Occupied(entry) => take_all_steps(&mut entry.cursor_mut(), line),
        Entry::Vacant(_vacant) => line.say(Word::Nothing),
    }
}
