//! The words of a line.
use crate::items::answers::{Name, Stop, find, number};

/// The words of a line that have not been read yet.
#[derive(Clone, Copy)]
pub struct Words<'l> {
    pub rest: &'l str,
    /// The value of the word `n`.
    pub n: u64,
    /// Whether a word was read that is missing, or that is not of the expected kind.
    pub is_unread: bool,
}

impl<'l> Words<'l> {
    pub fn new(line: &'l str) -> Words<'l> {
        Words {
            rest: line,
            n: 0,
            is_unread: false,
        }
    }

    /// The next word, if there is one.
    pub fn next(&mut self) -> Option<&'l str> {
        if self.rest.is_empty() {
            return None;
        }
        let (word, rest) = self.rest.split_once(' ').unwrap_or((self.rest, ""));
        self.rest = rest;
        Some(word)
    }

    /// The next word, or an empty one.
    pub fn word(&mut self) -> &'l str {
        self.next().unwrap_or("")
    }

    /// What the table has for the next word.
    pub fn named<T: Copy>(&mut self, table: &[(&str, T)]) -> Result<T, Stop> {
        find(table, self.word()).ok_or(Stop::Unread)
    }

    /// The same, if the table has the next word. Only then the word is read.
    pub fn known<T: Copy>(&mut self, table: &[(&str, T)]) -> Option<T> {
        let mut rest = *self;
        let found = find(table, rest.word())?;
        *self = rest;
        Some(found)
    }

    pub fn name(&mut self) -> Name {
        let name = Name::read(self.word(), self.n);
        self.is_unread = self.is_unread | name.is_none();
        name.unwrap_or(Name::of(0))
    }

    /// The next word as a name, if there is one.
    pub fn optional(&mut self) -> Option<Name> {
        if self.rest.is_empty() {
            return None;
        }
        Some(self.name())
    }

    pub fn number(&mut self) -> u64 {
        let word = self.word();
        self.number_of(word)
    }

    fn number_of(&mut self, word: &str) -> u64 {
        let number = if word == "n" {
            Some(self.n)
        } else {
            number(word)
        };
        self.is_unread = self.is_unread | number.is_none();
        number.unwrap_or(0)
    }

    /// A number, or `max`.
    pub fn size(&mut self) -> usize {
        let word = self.word();
        if word == "max" {
            return usize::MAX;
        }
        self.number_of(word) as usize
    }

    /// The next word as a number or `max`, or 0 if there is none.
    pub fn capacity(&mut self) -> usize {
        let mut rest = *self;
        let size = rest.size();
        if rest.is_unread {
            return 0;
        }
        *self = rest;
        size
    }

    /// Whether the next word is this one. If so, it is read.
    pub fn has(&mut self, word: &str) -> bool {
        let mut rest = *self;
        let is_next = rest.next() == Some(word);
        if is_next {
            *self = rest;
        }
        is_next
    }
}
