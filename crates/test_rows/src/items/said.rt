//! The words for keys and values that a container returns or lends.
use crate::items::Item;
use crate::items::answers::{Answer, Name, Named, Word};
use hashlink_table::TryReserveError;
use std::alloc::AllocError;

/// What a container returns or lends.
pub trait Shown {
    /// The word for it.
    fn shown(self) -> Word;
}

impl<T: Named> Shown for &T {
    fn shown(self) -> Word {
        Word::item(self.name())
    }
}

impl Shown for Item {
    fn shown(self) -> Word {
        Word::item(self.name())
    }
}

impl<K: Named + Drop, V: Named + Drop> Shown for (K, V) {
    fn shown(self) -> Word {
        Word::pair((self.0.name(), self.1.name()))
    }
}

impl<T: Shown> Shown for Option<T> {
    fn shown(self) -> Word {
        match self {
            Some(it) => it.shown(),
            None => Word::Nothing,
        }
    }
}

impl Shown for () {
    fn shown(self) -> Word {
        Word::Done
    }
}

impl Shown for AllocError {
    fn shown(self) -> Word {
        Word::Memory
    }
}

impl Shown for TryReserveError {
    fn shown(self) -> Word {
        match self {
            TryReserveError::AllocError => Word::Memory,
            TryReserveError::CapacityOverflow => Word::Overflow,
        }
    }
}

impl<T: Shown, E: Shown> Shown for Result<T, E> {
    fn shown(self) -> Word {
        match self {
            Ok(it) => it.shown(),
            Err(refused) => refused.shown(),
        }
    }
}

/// The word for a value that is lent for writing, which is then written.
pub fn write(value: Option<&mut Item>, new: Option<Name>) -> Word {
    match value {
        Some(value) => write_item(value, new),
        None => Word::Nothing,
    }
}

pub fn write_item(value: &mut Item, new: Option<Name>) -> Word {
    let old = Word::item(value.name());
    set(value, new);
    old
}

/// Writes the group of the name, if there is one.
pub fn set(value: &mut Item, new: Option<Name>) {
    if let Some(new) = new {
        value.group = new.group;
    }
}

/// The same for a pair.
pub fn write_pair(pair: Option<(&Item, &mut Item)>, new: Option<Name>) -> Word {
    let Some(pair) = pair else {
        return Word::Nothing;
    };
    write_value(pair.0, pair.1, new)
}

fn write_value(key: &Item, value: &mut Item, new: Option<Name>) -> Word {
    let old = Word::pair((key.name(), value.name()));
    set(value, new);
    old
}

/// What an insert returns, or what it returns because an allocation failed.
pub fn put<T: Shown, E: Shown>(answer: Result<T, E>) -> Answer {
    match answer {
        Ok(old) => Answer::Word(old.shown()),
        Err(refused) => no_memory(refused),
    }
}

/// What is returned because an allocation failed.
pub fn no_memory<T: Shown>(refused: T) -> Answer {
    Answer::Back(Word::Memory, refused.shown())
}

/// The row continues with the container that was made.
pub fn made<C: Drop, E: Shown>(made: Result<C, E>, container: &mut C) -> Word {
    match made {
        Ok(new) => {
            *container = new;
            Word::Done
        }
        Err(refused) => refused.shown(),
    }
}
