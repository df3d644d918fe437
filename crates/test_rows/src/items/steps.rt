//! Steps of an iterator.
use crate::items::answers::{Name, Word, find, number};
use crate::items::words::Words;

/// The call of a step.
#[derive(Clone, Copy)]
pub enum Goes {
    Next,
    Back,
    /// `next_value`, for iterators that lend pairs for writing.
    Value,
    /// `next_value_back`, for the same iterators.
    ValueBack,
    /// `peek`, for the same iterators.
    Peek,
    /// No call: the number of items left is recorded.
    Left,
}

/// A step of an iterator.
#[derive(Clone, Copy)]
pub struct Step {
    pub goes: Goes,
    /// The name to write if the value is lent for writing.
    pub written: Option<Name>,
}

const STEPS: [(&str, Goes); 6] = [
    ("next", Goes::Next),
    ("back", Goes::Back),
    ("value", Goes::Value),
    ("value_back", Goes::ValueBack),
    ("peek", Goes::Peek),
    ("left", Goes::Left),
];

impl Step {
    /// The step that the word names, with the number after it, if there is one.
    pub fn read(word: &str, words: &mut Words<'_>) -> Step {
        let found = find(&STEPS, word);
        words.is_unread = words.is_unread | found.is_none();
        Step {
            goes: found.unwrap_or(Goes::Next),
            written: read_number(words),
        }
    }

    /// The word for the step: what it returned, or how many items are left, which the hint has to equal.
    pub fn said(self, came: Word, left: usize, hint: (usize, Option<usize>)) -> Word {
        if hint.0 != left || hint.1 != Some(left) {
            return Word::Wrong;
        }
        match self.goes {
            Goes::Left => Word::count(left),
            _ => came,
        }
    }
}

/// The next word, if it is a number.
fn read_number(words: &mut Words<'_>) -> Option<Name> {
    let mut rest = *words;
    let written = number(rest.word())?;
    *words = rest;
    Some(Name::of(written))
}
