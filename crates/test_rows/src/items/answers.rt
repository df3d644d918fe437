//! The answer to a call, word by word.
use crate::items::line::push;
use std::alloc::{AllocError, Global};
use std::fmt;

/// The number that the digits spell.
pub fn number(word: &str) -> Option<u64> {
    word.parse::<u64>().ok()
}

/// An item as it is written: its group and, after a dot, its number, if it has one. As a key it is compared
/// and hashed only by its group.
#[derive(Clone, Copy)]
#[derive_where(PartialEq, Eq, Hash)]
pub struct Name {
    pub group: u64,
    #[derive_where(skip(EqHashOrd))]
    pub number: u64,
}

impl Name {
    pub fn of(group: u64) -> Name {
        Name { group, number: 0 }
    }

    /// The item that the word spells. The word `n` spells the one of this group.
    pub fn read(word: &str, n: u64) -> Option<Name> {
        if word == "n" {
            return Some(Name::of(n));
        }
        let (group, number_word) = word.split_once('.').unwrap_or((word, "0"));
        let (group, number) = (number(group)?, number(number_word)?);
        Some(Name { group, number })
    }
}

/// A value that is written as an item is.
pub trait Named {
    fn name(&self) -> Name;
}

impl Named for Name {
    fn name(&self) -> Name {
        *self
    }
}

impl Named for u64 {
    fn name(&self) -> Name {
        Name::of(*self)
    }
}

impl<T: Named> Named for &T {
    fn name(&self) -> Name {
        (**self).name()
    }
}

/// A key and its value.
pub type Pair = (Name, Name);

/// A word of an answer.
#[derive(Clone, Copy, PartialEq)]
pub enum Word {
    /// `-`.
    Nothing,
    /// `ok`.
    Done,
    /// `yes` or `no`.
    Is(bool),
    /// An item or a number.
    Item(u64, u64),
    /// A key and its value with a colon between them.
    Pair((u64, u64), (u64, u64)),
    /// `memory`: an allocation failed. The next word is what was returned.
    Memory,
    /// `overflow`: more room than there can be.
    Overflow,
    /// `heavy`: heavier than the budget.
    Heavy,
    /// `wrong`: the container does not agree with itself.
    Wrong,
}

/// The words without a number.
const PLAIN: [(&str, Word); 7] = [
    ("-", Word::Nothing),
    ("ok", Word::Done),
    ("yes", Word::Is(true)),
    ("no", Word::Is(false)),
    ("memory", Word::Memory),
    ("overflow", Word::Overflow),
    ("heavy", Word::Heavy),
];

/// What the table has for the name.
pub fn find<T: Copy>(table: &[(&str, T)], name: &str) -> Option<T> {
    for (text, meant) in table {
        if name == *text {
            return Some(*meant);
        }
    }
    None
}

impl Word {
    pub fn read(word: &str, n: u64) -> Option<Word> {
        match find(&PLAIN, word) {
            None => Word::read_items(word, n),
            plain => plain,
        }
    }

    fn read_items(word: &str, n: u64) -> Option<Word> {
        match word.split_once(':') {
            None => Some(Word::item(Name::read(word, n)?)),
            Some((key, value)) => Some(Word::pair((Name::read(key, n)?, Name::read(value, n)?))),
        }
    }

    pub fn item(name: Name) -> Word {
        Word::Item(name.group, name.number)
    }

    pub fn pair((key, value): Pair) -> Word {
        Word::Pair((key.group, key.number), (value.group, value.number))
    }

    pub fn count(count: usize) -> Word {
        Word::Item(count as u64, 0)
    }

    /// The text of a word without a number.
    fn text(self) -> &'static str {
        for (text, word) in PLAIN {
            if word == self {
                return text;
            }
        }
        "wrong"
    }
}

fn write_item<W: fmt::Write>(
    f: &mut fmt::Formatter<W>,
    (group, number): (u64, u64),
) -> fmt::Result {
    match number {
        0 => write!(f, "{group}"),
        _ => write!(f, "{group}.{number}"),
    }
}

impl fmt::Display for Word {
    fn fmt<W: fmt::Write>(&self, f: &mut fmt::Formatter<W>) -> fmt::Result {
        match *self {
            Word::Item(group, number) => write_item(f, (group, number)),
            Word::Pair(key, value) => {
                write_item(f, key)?;
                write!(f, ":")?;
                write_item(f, value)
            }
            word => f.write_str(word.text()),
        }
    }
}

/// The answer to a call.
#[derive(Clone, Copy)]
pub enum Answer {
    Word(Word),
    /// Why it returns something, and what.
    Back(Word, Word),
    /// An allocation failed: it returns this, after this many were inserted.
    BackAfter(Word, u64),
    /// The pairs around a cursor.
    Around([Word; 3]),
    /// Nothing is recorded.
    Silent,
}

/// Why a row stopped.
#[derive(Clone, Copy)]
pub enum Stop {
    /// There was no memory for what the row itself needs.
    Memory,
    /// It is not a line of this kind of row.
    Unread,
    /// The answer, which is in `Answers`, is not the one that is written.
    Answer,
    /// A reply of a run, or the answer to a text, is not the one that is written.
    Reply,
    /// The number of live items is not the number that the containers hold.
    Living,
}

impl Stop {
    /// Stops for this reason, unless all is right.
    pub fn unless(self, is_right: bool) -> Result<(), Stop> {
        if is_right { Ok(()) } else { Err(self) }
    }
}

impl From<AllocError> for Stop {
    fn from(_error: AllocError) -> Stop {
        Stop::Memory
    }
}

/// The numbers of rows, of answers that were refusals, and of rows for which there was no memory.
#[derive(Clone, Copy, Default)]
pub struct Tally {
    pub rows: usize,
    pub refused: usize,
    pub left_out: usize,
}

/// The answer to a line, and the counts so far.
#[derive(Drop)]
pub struct Answers {
    pub words: Vec<Word>,
    pub tally: Tally,
}

impl Answers {
    pub fn new(alloc: Global, tally: Tally) -> Result<Answers, AllocError> {
        Ok(Answers {
            words: Vec::with_capacity(alloc, 64)?,
            tally,
        })
    }

    pub fn say_all(&mut self, words: &[Word]) -> Result<(), Stop> {
        Ok(self.words.extend_from_slice(words)?)
    }

    pub fn give(&mut self, answer: Answer) -> Result<(), Stop> {
        match answer {
            Answer::Word(word) => push(&mut self.words, word),
            Answer::Back(why, back) => self.say_all(&[why, back]),
            Answer::BackAfter(back, taken) => {
                self.say_all(&[Word::Memory, back, Word::Item(taken, 0)])
            }
            Answer::Around(words) => self.say_all(&words),
            Answer::Silent => Ok(()),
        }
    }

    /// Counts the refusals that were recorded, and returns whether there was one.
    pub fn count_refused(&mut self) -> bool {
        let before = self.tally.refused;
        for word in self.words.iter() {
            if *word == Word::Memory {
                self.tally.refused = self.tally.refused.saturating_add(1);
            }
        }
        self.tally.refused > before
    }
}

/// Whether the words are the written ones, of which the word `n` spells this number.
pub fn are_written(words: &[Word], written: &str, n: u64) -> bool {
    if written.is_empty() {
        return words.is_empty();
    }
    let mut written = written.split(' ');
    for word in words {
        if Word::read(written.next().unwrap_or(""), n) != Some(*word) {
            return false;
        }
    }
    written.next().is_none()
}
