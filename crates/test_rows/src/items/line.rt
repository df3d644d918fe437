//! A line that is being run, and what is read from its words.
use crate::items::answers::{Answer, Answers, Name, Stop, Word};
use crate::items::words::Words;
use crate::items::{Home, Item};
use crate::spoken::Voice;

/// A line that is being run.
#[derive(Drop)]
pub struct Line<'l> {
    /// What the items that it names are made from.
    pub home: Home<'l>,
    /// Where answers and contents are printed.
    pub voice: Voice<'l>,
    /// Whether an answer need not be written.
    pub is_open: bool,
    /// Its number and its text, or those of the row's first line.
    pub place: (usize, &'l str),
    /// The words that have not been read yet.
    pub words: Words<'l>,
    /// Its answer, and the counts of the lines before it.
    pub answers: Answers,
}

impl Line<'_> {
    /// The item that the next word names.
    pub fn item(&mut self) -> Result<Item, Stop> {
        Ok(Item::new(self.home, self.words.name())?)
    }

    /// The item that the next word names, and the name after it, if there is one.
    pub fn lent_item(&mut self) -> Result<(Item, Option<Name>), Stop> {
        let item = self.words.name();
        let new = self.words.optional();
        Ok((Item::new(self.home, item)?, new))
    }

    /// The value that the next word names as made, and the name after it, if there is one; or, after `fail`,
    /// the reason why none is made.
    pub fn tried(&mut self) -> Result<(Result<Item, Item>, Option<Name>), Stop> {
        let is_made = !self.words.has("fail");
        let (item, new) = self.lent_item()?;
        Ok((if is_made { Ok(item) } else { Err(item) }, new))
    }

    /// The pair that the next two words name.
    pub fn pair(&mut self) -> Result<(Item, Item), Stop> {
        <(Item, Item)>::read(self)
    }

    pub fn say(&mut self, word: Word) -> Result<(), Stop> {
        push(&mut self.answers.words, word)
    }

    pub fn say_all(&mut self, words: &[Word]) -> Result<(), Stop> {
        self.answers.say_all(words)
    }

    pub fn give(&mut self, answer: Answer) -> Result<(), Stop> {
        self.answers.give(answer)
    }

    /// Counts and prints that an allocation for a whole run failed.
    pub fn refuse(&mut self) {
        self.answers.tally.refused = self.answers.tally.refused.saturating_add(1);
        if let Some(rt) = self.voice {
            let _ = println!(rt; "refused");
        }
    }
}

/// A value that is read from the next words of a line.
pub trait Read: Sized {
    fn read(line: &mut Line<'_>) -> Result<Self, Stop>;
}

impl Read for Item {
    fn read(line: &mut Line<'_>) -> Result<Item, Stop> {
        line.item()
    }
}

impl Read for Name {
    fn read(line: &mut Line<'_>) -> Result<Name, Stop> {
        Ok(line.words.name())
    }
}

impl<K: Read + Drop, V: Read + Drop> Read for (K, V) {
    fn read(line: &mut Line<'_>) -> Result<(K, V), Stop> {
        let key = K::read(line)?;
        Ok((key, V::read(line)?))
    }
}

/// All that the rest of the line names.
pub fn rest_of<T: Read + Drop>(line: &mut Line<'_>) -> Result<Vec<T>, Stop> {
    let mut named = Vec::with_capacity(line.home.alloc, 16)?;
    for _ in 0..64 {
        if line.words.rest.is_empty() {
            break;
        }
        push(&mut named, T::read(line)?)?;
    }
    Ok(named)
}

/// Pushes an item that the row itself needs.
pub fn push<T: Drop>(items: &mut Vec<T>, item: T) -> Result<(), Stop> {
    match items.push(item) {
        Ok(()) => Ok(()),
        Err(_item) => Err(Stop::Memory),
    }
}
