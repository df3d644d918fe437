//! Lines that call two sets.
use crate::calls::alike::say_steps;
use crate::calls::compared::{equal, hashed_alike};
use crate::calls::set_calls::Set;
use crate::items::{Line, Stop, Word, made};

/// Makes the call of two sets that the words name. What an operator makes is the first set from then on.
pub fn call_sets(set: &mut Set, other: &Set, line: &mut Line<'_>) -> Result<(), Stop> {
    let name = line.words.word();
    let word = match_word!(name,
        "eq" => equal(set, other),
        "hash" => hashed_alike(set, other),
        "is_disjoint" => Word::Is(set.is_disjoint(other)),
        "is_subset" => Word::Is(set.is_subset(other)),
        "is_superset" => Word::Is(set.is_superset(other)),
        "|" => made(&*set | other, set),
        "&" => made(&*set & other, set),
        "^" => made(&*set ^ other, set),
        "-" => made(&*set - other, set),
        _ => return iterate(set, other, name, line),
    );
    line.say(word)
}

/// Takes the steps of the iterator of this name, if there is one.
fn iterate(set: &Set, other: &Set, name: &str, line: &mut Line<'_>) -> Result<(), Stop> {
    let steps = line.words.optional();
    match_word!(name,
        "union" => say_steps(set.union(other), steps, line),
        "intersection" => say_steps(set.intersection(other), steps, line),
        "difference" => say_steps(set.difference(other), steps, line),
        "symmetric_difference" => say_steps(set.symmetric_difference(other), steps, line),
        _ => Err(Stop::Unread),
    )
}
