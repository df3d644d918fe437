//! Comparisons of two containers.
use crate::items::{Line, Stop, Word};
use hashlink_map::DefaultHashBuilder;
use std::cmp::Ordering;
use std::hash::{BuildHasher, Hash};

/// Compares two containers by `eq`, `cmp` or `partial_cmp`, in both directions, or records whether they feed
/// a hasher the same bytes.
pub fn compare<C: Ord + Hash>(one: &C, other: &C, line: &mut Line<'_>) -> Result<(), Stop> {
    match_word!(line.words.word(),
        "eq" => line.say(equal(one, other)),
        "less" => line.say(less(one, other)),
        "cmp" => line.say_all(&ordered(one, other)),
        "hash" => line.say(hashed_alike(one, other)),
        _ => Err(Stop::Unread),
    )
}

/// Whether the two are equal, if both directions agree.
pub fn equal<C: PartialEq>(one: &C, other: &C) -> Word {
    let is_equal = one == other;
    if (other == one) != is_equal || (one != other) == is_equal {
        return Word::Wrong;
    }
    Word::Is(is_equal)
}

fn less<C: PartialOrd>(one: &C, other: &C) -> Word {
    let is_less = one < other;
    if (one >= other) == is_less {
        return Word::Wrong;
    }
    Word::Is(is_less)
}

fn ordered<C: Ord>(one: &C, other: &C) -> [Word; 3] {
    let order = one.cmp(other);
    if other.cmp(one) != order.reverse() || one.partial_cmp(other) != Some(order) {
        return [Word::Wrong; 3];
    }
    [
        Word::Is(order == Ordering::Less),
        Word::Is(order == Ordering::Equal),
        Word::Is(order == Ordering::Greater),
    ]
}

/// Whether the two feed a hasher the same bytes.
pub fn hashed_alike<C: Hash>(one: &C, other: &C) -> Word {
    Word::Is(DefaultHashBuilder.hash_one(one) == DefaultHashBuilder.hash_one(other))
}
