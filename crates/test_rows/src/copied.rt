//! Maps and sets of items that can be copied, which accept items by reference.
use crate::calls::say_kept;
use crate::hashers::Hashing;
use crate::items::{Answer, Line, Name, Pair, Read, Shown, Stop, Word, rest_of};
use crate::spoken::Spoken;
use hashlink::linked_hash_map::ExtendError;
use hashlink::{LinkedHashMap, LinkedHashSet};

impl Spoken for LinkedHashMap<Name, Name, Hashing> {
    fn count_items(&self) -> usize {
        0
    }

    fn call(
        &mut self,
        _other: &LinkedHashMap<Name, Name, Hashing>,
        line: &mut Line<'_>,
    ) -> Result<(), Stop> {
        extend(self, line)
    }
}

impl Spoken for LinkedHashSet<Name, Hashing> {
    fn count_items(&self) -> usize {
        0
    }

    fn call(
        &mut self,
        _other: &LinkedHashSet<Name, Hashing>,
        line: &mut Line<'_>,
    ) -> Result<(), Stop> {
        extend(self, line)
    }
}

/// A container into which items are copied.
trait Copies<T> {
    /// The result of an extension, by std's `Extend` or not, and the number of items that it has not read.
    fn extend_by(&mut self, is_by_trait: bool, items: &[T]) -> (Answer, usize);
}

/// Makes the call that the next word names, with what the rest of the line names.
fn extend<T: Read + Drop, C: Copies<T>>(
    container: &mut C,
    line: &mut Line<'_>,
) -> Result<(), Stop> {
    let is_by_trait = match line.words.word() {
        "extend_ref" => false,
        "extend_by_trait" => true,
        _ => return Err(Stop::Unread),
    };
    let items = rest_of(line)?;
    let (answer, left) = container.extend_by(is_by_trait, &items);
    say_kept(answer, left, line)
}

impl Copies<Pair> for LinkedHashMap<Name, Name, Hashing> {
    fn extend_by(&mut self, is_by_trait: bool, pairs: &[Pair]) -> (Answer, usize) {
        let mut lent = pairs.iter().map(lend_pair);
        let answer = if is_by_trait {
            Answer::Word(Extend::extend(self, &mut lent).shown())
        } else {
            match self.extend_ref(&mut lent) {
                Ok(()) => Answer::Word(Word::Done),
                Err(ExtendError { taken, pair }) => Answer::BackAfter(Word::pair(pair), taken),
            }
        };
        (answer, lent.len())
    }
}

impl Copies<Name> for LinkedHashSet<Name, Hashing> {
    fn extend_by(&mut self, is_by_trait: bool, elements: &[Name]) -> (Answer, usize) {
        let mut lent = elements.iter();
        let answer = if is_by_trait {
            Answer::Word(Extend::extend(self, &mut lent).shown())
        } else {
            match self.extend_ref(&mut lent) {
                Ok(()) => Answer::Word(Word::Done),
                Err(ExtendError { taken, pair }) => Answer::BackAfter(Word::item(pair.0), taken),
            }
        };
        (answer, lent.len())
    }
}

fn lend_pair((key, value): &Pair) -> (&Name, &Name) {
    (key, value)
}
