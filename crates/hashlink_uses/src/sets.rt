//! Calls of a set, and what the caller knows about it afterwards.
ghost use Rattle.std.specs.Prelude.{◌≡◌, [], List, IfErr, IfOk, OnErr, OnOk};
ghost use Rattle.hashlink.specs.{Many.{AcceptsAll, StopsAt}, SetAnswers.as_value, Steps.{Drains, Moves}};
ghost use Rattle.hashlink.specs.Sets.{SetInserts, elements_of};

use hashlink::LinkedHashSet;
use hashlink::linked_hash_map::ExtendError;
use std::alloc::AllocError;
use std::hash::{BuildHasher, Hash};

/// Moves a word to the front, and returns whether it is present.
pub fn promote<T: Eq + Hash, S: BuildHasher>(words: &mut LinkedHashSet<T, S>, word: &T) -> bool
    ensures { Moves T.eq words.old words.new word.now 0 (as_value result) }
{
    words.to_front(word)
}

/// Empties a set, and keeps its nodes.
pub fn empty_out<T: Eq + Hash + Drop, S: BuildHasher>(words: &mut LinkedHashSet<T, S>)
    ensures { Drains words.old words.new }
{
    let _rest = words.drain();
}

/// Moves another set's words to the back of this one. If an insert fails, the words before it stay inserted.
pub fn append<T: Eq + Hash + Drop, S: BuildHasher + Drop>(
    words: &mut LinkedHashSet<T, S>,
    other: LinkedHashSet<T, S>,
) -> Result<(), ExtendError<T, ()>>
    ensures all { OnOk result (AcceptsAll (SetInserts T.eq) words.old (elements_of other) words.new) }
    ensures stopped { IfErr result (λ e. (left : List T)
        × StopsAt (SetInserts T.eq) words.old (elements_of other) words.new e.taken e.pair.0 left) }
{
    words.extend(other)
}

/// Returns a set of the same numbers.
pub fn copy_of<S: BuildHasher + Clone>(
    numbers: &LinkedHashSet<u64, S>,
) -> Result<LinkedHashSet<u64, S>, AllocError>
    ensures same { IfOk result (λ copy. elements_of copy ≡ elements_of numbers.now) }
    ensures refused { OnErr result (S.is_infallible numbers.now.hasher → elements_of numbers.now ≡ [] → ⊥) }
{
    numbers.clone()
}
