//! Results of calls as numbers.
use crate::plan::fold;

/// The value, or else the given number.
#[inline(always)]
pub(crate) fn value_or(value: Option<&u64>, other: u64) -> Option<u64> {
    match value {
        Some(value) => Some(*value),
        None => Some(other),
    }
}

/// The pair, folded, or else the given number.
#[inline(always)]
pub(crate) fn pair_or(pair: Option<(&u64, &u64)>, other: u64) -> Option<u64> {
    match pair {
        Some((key, value)) => Some(fold(*key, *value)),
        None => Some(other),
    }
}

/// The same of a pair that was removed.
#[inline(always)]
pub(crate) fn removed_or(pair: Option<(u64, u64)>, other: u64) -> Option<u64> {
    match pair {
        Some((key, value)) => Some(fold(key, value)),
        None => Some(other),
    }
}

/// Adds one to the value. Returns it, or else the given number.
#[inline(always)]
pub(crate) fn next_or(value: Option<&mut u64>, other: u64) -> Option<u64> {
    match value {
        Some(value) => {
            *value = value.wrapping_add(1);
            Some(*value)
        }
        None => Some(other),
    }
}

/// The value that an insert replaced, or the given number if it replaced none.
#[inline(always)]
pub(crate) fn old_or<E: Drop>(old: Result<Option<u64>, E>, other: u64) -> Option<u64> {
    match old {
        Ok(Some(old)) => Some(old),
        Ok(None) => Some(other),
        Err(_) => None,
    }
}

/// The length of a container after a call that may fail.
#[inline(always)]
pub(crate) fn len_after<E: Drop>(outcome: Result<(), E>, len: usize) -> Option<u64> {
    match outcome {
        Ok(()) => Some(len as u64),
        Err(_) => None,
    }
}

/// The element that is lent.
#[inline(always)]
pub(crate) fn lent_element<E: Drop>(element: Result<&u64, E>) -> Option<u64> {
    match element {
        Ok(element) => Some(*element),
        Err(_) => None,
    }
}

/// Whether the key is even, as that of about half of the entries.
#[inline(always)]
pub(crate) fn is_even(key: &u64, _value: &mut u64) -> bool {
    *key % 2 == 0
}
