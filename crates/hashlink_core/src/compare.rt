//! Comparisons of iterators, pair by pair, key before value.
ghost use Rattle.std.specs.{Prelude.{◌≡◌, ◌&&◌}, Ordering.{ordering_then, partial_ordering_then}};
ghost use Rattle.hashlink_model.specs.Compare.{entries_eq, entries_cmp, entries_partial_cmp};

use crate::iter::Iter;
use std::cmp::Ordering;

/// Returns whether the iterators have the same number of entries left, and at each place equal keys and equal
/// values. It takes linear time, up to the first entry that differs, and constant time if the numbers differ.
pub fn iter_eq<K: PartialEq, V: PartialEq>(
    mut left: Iter<'_, K, V>,
    mut right: Iter<'_, K, V>,
) -> bool
    ensures { result ≡ entries_eq K.eq V.eq left.entry right.entry }
{
    if left.len() != right.len() {
        return false;
    }
    while let Some(pair) = left.next() {
        let other = right.next().unwrap();
        if pair != other {
            return false;
        }
    }
    true
}

/// Compares the iterators at the first place at which their entries do not compare as equal, key before
/// value. An iterator whose entries are the beginning of the other's is less.
pub fn iter_partial_cmp<K: PartialOrd, V: PartialOrd>(
    mut left: Iter<'_, K, V>,
    mut right: Iter<'_, K, V>,
) -> Option<Ordering>
    ensures { result ≡ entries_partial_cmp K.partial_cmp V.partial_cmp left.entry right.entry }
{
    while let Some(pair) = left.next() {
        let Some(other) = right.next() else {
            return Some(Ordering::Greater);
        };
        match pair.partial_cmp(&other) {
            Some(Ordering::Equal) => {}
            unequal => return unequal,
        }
    }
    match right.next() {
        Some(_) => Some(Ordering::Less),
        None => Some(Ordering::Equal),
    }
}

/// Does the same as `iter_partial_cmp` for keys and values that always compare.
pub fn iter_cmp<K: Ord, V: Ord>(mut left: Iter<'_, K, V>, mut right: Iter<'_, K, V>) -> Ordering
    ensures { result ≡ entries_cmp K.cmp V.cmp left.entry right.entry }
{
    while let Some(pair) = left.next() {
        let Some(other) = right.next() else {
            return Ordering::Greater;
        };
        let order = pair.cmp(&other);
        match order {
            Ordering::Equal => {}
            unequal => return unequal,
        }
    }
    match right.next() {
        Some(_) => Ordering::Less,
        None => Ordering::Equal,
    }
}
