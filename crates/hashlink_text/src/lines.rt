ghost use Rattle.std.specs.{Prelude.◌≡◌, Iterator.{YieldsFirstRef, item_count}};
ghost use Rattle.hashlink_text.specs.Lines.{lines_of};

use crate::cuts::cut;

// The lines of a text that have not been read yet.
#[derive(Drop)]
pub struct Lines<'a> {
    rest: &'a [u8],
}

impl<'a> Lines<'a> {
    pub fn new(text: &'a [u8]) -> Lines<'a>
        ensures { lines_of result.rest.now ≡ lines_of text.now }
    {
        Lines { rest: text }
    }
}

impl<'a> Iterator for Lines<'a> {
    type Item = &'a [u8];

    ghost next_gives = { YieldsFirstRef (λ s. lines_of s.rest.now) };

    ghost remaining = { item_count (λ s. lines_of s.rest.now) };

    fn next(&mut self) -> Option<&'a [u8]> {
        if self.rest.is_empty() {
            return None;
        }
        let (line, rest) = cut(self.rest, b'\n');
        self.rest = rest.unwrap_or(&[]);
        Some(line)
    }
}
