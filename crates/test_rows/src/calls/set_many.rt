//! Lines that call a set about many elements, by an iterator, or about an element that the call makes.
ghost use Rattle.std.specs.Prelude.{◌≡◌};

use crate::calls::extended::{TakesMany, make_of_kept, make_of_rest, put_rest};
use crate::calls::set_calls::{Set, call_of_element};
use crate::items::{
    Answer, Exact, Item, Keep, Line, Shown, Stop, Word, is_other, put, read_keep, walk_and_clone,
    walk_and_forget, walk_whole,
};
use hashlink_set::{ExtendError, LinkedHashSet};
use std::alloc::Global;
use std::mem;
use std::vec::IntoIter;

/// Makes the call of this name, if it is one of these.
pub fn call_many(set: &mut Set, name: &str, line: &mut Line<'_>) -> Result<(), Stop> {
    match_word!(name,
        "get_or_insert_with" => put_made(set, line),
        "from_iter" => make_of_rest(set, line),
        "from_iter_kept" => make_of_kept(set, line),
        "retain" | "retain_with_order" | "retain_from" => retain(set, name, line),
        "iter" => walk_and_clone(set.iter(), line),
        "drain" => walk_whole(set.drain(), line),
        "forgotten_drain" => walk_and_forget(set.drain(), 1, line),
        "into_iter" => walk_whole(Exact(take(set, line.home.alloc).into_iter()), line),
        "extend" | "extend_from" | "extend_kept" | "extend_by_trait" => put_rest(set, name, line),
        _ => call_of_element(set, name, line),
    )
}

fn put_made(set: &mut Set, line: &mut Line<'_>) -> Result<(), Stop> {
    let name = line.words.name();
    let element = Item::new(line.home, name)?;
    let made = Item::new(line.home, name)?;
    line.give(put(get_or_make(set, &element, made)))
}

/// Lends the element. If it is absent, the made element, which is equal to it, is inserted and lent.
fn get_or_make<'s>(set: &'s mut Set, element: &Item, made: Item) -> Result<&'s Item, Item>
    requires { made.group ≡ element.now.group }
{
    set.get_or_insert_with(
        element,
        |_| -> Item
            ensures given { result ≡ made }
        { made },
    )
}

impl TakesMany<Item> for Set {
    fn extend_by(&mut self, is_from: bool, elements: &mut IntoIter<Item>) -> Answer {
        extended(if is_from {
            self.extend_from(&mut *elements)
        } else {
            self.extend(&mut *elements)
        })
    }
}

fn extended(answer: Result<(), ExtendError<Item, ()>>) -> Answer {
    match answer {
        Ok(()) => Answer::Word(Word::Done),
        Err(refused) => Answer::BackAfter(refused.pair.0.shown(), refused.taken),
    }
}

/// Keeps what the next word names, by the call of this name. A set has no values that could be even.
fn retain(set: &mut Set, name: &str, line: &mut Line<'_>) -> Result<(), Stop> {
    let keep = read_keep(set.len(), line)?;
    if matches!(keep, Keep::Even | Keep::WithoutOdd) {
        return Err(Stop::Unread);
    }
    keep_some(set, name, keep, &mut line.answers.words);
    line.say(Word::Done)
}

fn keep_some(set: &mut Set, name: &str, keep: Keep, met: &mut Vec<Word>) {
    let mut keep = |element: &Item| is_kept(element, keep, met);
    match name {
        "retain" => set.retain(keep),
        "retain_with_order" => set.retain_with_order(keep),
        _ => set.retain_from(&mut keep),
    }
}

/// Whether the element is odd or, for `others`, even.
fn is_kept(element: &Item, keep: Keep, met: &mut Vec<Word>) -> bool {
    match keep {
        Keep::Others => is_other(element, met),
        _ => element.group % 2 == 1,
    }
}

/// Takes the set, and leaves an empty one in its place.
fn take(set: &mut Set, alloc: Global) -> Set {
    let empty = LinkedHashSet::with_hasher(alloc, *set.hasher());
    mem::replace(set, empty)
}
