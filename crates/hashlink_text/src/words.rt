ghost use Rattle.std.specs.{Prelude.◌≡◌, Iterator.{YieldsFirstRef, item_count}, Str.bytes_eq};
ghost use Rattle.hashlink_text.specs.{Cuts.parts_left, Lines.words_of};

use crate::cuts::cut;

// Returns whether the two words are the same.
pub(crate) fn is(name: &[u8], word: &[u8]) -> bool
    ensures { result ≡ bytes_eq name.now word.now }
{
    name == word
}

// The words of a line that have not been read yet: the text after the last space read. After the last word
// there is none.
#[derive(Drop)]
pub(crate) struct Words<'a> {
    rest: Option<&'a [u8]>,
}

impl<'a> Words<'a> {
    pub(crate) fn new(line: &'a [u8]) -> Words<'a>
        ensures { parts_left 32 result.rest ≡ words_of line.now }
    {
        Words { rest: Some(line) }
    }
}

impl<'a> Iterator for Words<'a> {
    type Item = &'a [u8];

    ghost next_gives = { YieldsFirstRef (λ s. parts_left 32 s.rest) };

    ghost remaining = { item_count (λ s. parts_left 32 s.rest) };

    fn next(&mut self) -> Option<&'a [u8]> {
        let (word, rest) = cut(self.rest?, b' ');
        self.rest = rest;
        Some(word)
    }
}
