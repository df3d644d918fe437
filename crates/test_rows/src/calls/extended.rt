//! Results of extensions of containers, including std's `Extend`.
ghost use Rattle.std.specs.Prelude.{List};

use crate::items::{Answer, Item, Line, Read, Shown, Stop, Word, made, rest_of};
use hashlink_map::ExtendError;
use std::alloc::Global;
use std::vec::IntoIter;

/// A container into which many items are put.
pub trait TakesMany<T> {
    /// The result of `extend` or, if `is_from`, of `extend_from`.
    fn extend_by(&mut self, is_from: bool, items: &mut IntoIter<T>) -> Answer;
}

/// Inserts what the rest of the line names, by the call of this name.
pub fn put_rest<T: Read + Drop, C: TakesMany<T> + Extend<T>>(
    container: &mut C,
    name: &str,
    line: &mut Line<'_>,
) -> Result<(), Stop>
    requires { (c : C) → (items : List T) → C.Extend.can_extend c items }
{
    let items = &mut rest_of(line)?.into_iter();
    let answer = match_word!(name,
        "extend" => return line.give(container.extend_by(false, items)),
        "extend_kept" => container.extend_by(false, items),
        "extend_from" => container.extend_by(true, items),
        "extend_by_trait" => Answer::Word(container.extend(&mut *items).shown()),
        _ => return Err(Stop::Unread),
    );
    say_kept(answer, items.len(), line)
}

/// Makes the container anew from what the rest of the line names.
pub fn make_of_rest<T: Read + Drop, C: FromIterator<T, Alloc = Global> + Drop>(
    container: &mut C,
    line: &mut Line<'_>,
) -> Result<(), Stop>
    requires { (items : List T) → C.can_from_iter items }
{
    let items: Vec<T> = rest_of(line)?;
    line.say(made(C::from_iter(line.home.alloc, items), container))
}

/// The same by an iterator that is kept, followed by the number of items that it has left.
pub fn make_of_kept<T: Read + Drop, C: FromIterator<T, Alloc = Global> + Drop>(
    container: &mut C,
    line: &mut Line<'_>,
) -> Result<(), Stop>
    requires { (items : List T) → C.can_from_iter items }
{
    let items = &mut rest_of(line)?.into_iter();
    let new = C::from_iter(line.home.alloc, &mut *items);
    let left = items.len();
    say_kept(Answer::Word(made(new, container)), left, line)
}

/// Done if all pairs were inserted, else how many were, and the pair that is returned.
pub fn extended(answer: Result<(), ExtendError<Item, Item>>) -> Answer {
    match answer {
        Ok(()) => Answer::Word(Word::Done),
        Err(refused) => Answer::BackAfter(refused.pair.shown(), refused.taken),
    }
}

/// Records the result of an extension, and the number of items that its iterator, which was kept, has left.
pub fn say_kept(answer: Answer, left: usize, line: &mut Line<'_>) -> Result<(), Stop> {
    line.give(answer)?;
    line.say(Word::count(left))
}
