//! The tests of retains, and the questions about room.
use crate::items::Item;
use crate::items::answers::{Stop, Word};
use crate::items::line::Line;

/// The test of a retain, by its word.
#[derive(Clone, Copy)]
pub enum Keep {
    /// `even` values.
    Even,
    /// `odd` keys, whose values grow tenfold.
    Odd,
    /// `others` than the odd keys. Each key on which the test is called is recorded, in order.
    Others,
    /// The same by `without_odd`, for which each odd key is recorded, in order.
    WithoutOdd,
}

const KEEPS: [(&str, Keep); 4] = [
    ("even", Keep::Even),
    ("odd", Keep::Odd),
    ("others", Keep::Others),
    ("without_odd", Keep::WithoutOdd),
];

impl Keep {
    /// Whether it keeps the entry.
    pub fn keeps(self, key: &Item, value: &mut Item, met: &mut Vec<Word>) -> bool {
        match self {
            Keep::Even => is_even(key, value),
            Keep::Odd => is_raised(key, value),
            Keep::Others => is_other(key, met),
            Keep::WithoutOdd => key.group % 2 == 0 || is_other(key, met),
        }
    }
}

/// Whether the value is even.
pub fn is_even(_key: &Item, value: &mut Item) -> bool {
    value.group % 2 == 0
}

/// Whether the key is odd. Then its value grows tenfold.
pub fn is_raised(key: &Item, value: &mut Item) -> bool {
    value.group = value.group.wrapping_mul(10);
    key.group % 2 == 1
}

/// Whether the key, which is recorded, is even.
pub fn is_other(key: &Item, met: &mut Vec<Word>) -> bool {
    let _ = met.push(Word::item(key.name()));
    key.group % 2 == 0
}

/// The test that the next word names, of so many entries. There is then room to record each of them.
pub fn read_keep(len: usize, line: &mut Line<'_>) -> Result<Keep, Stop> {
    line.answers.words.reserve(len)?;
    line.words.named(&KEEPS)
}

/// Whether a container of this capacity and length has room for so many more.
pub fn has_room(capacity: usize, len: usize, more: usize) -> Word {
    Word::Is(capacity.saturating_sub(len) >= more)
}
