//! The keys of all rows at one size.
use crate::random::Xorshift;
use std::alloc::{AllocError, Global};

/// Lists of keys that look random. No key is in both `held` and `absent`.
#[derive(Drop)]
pub(crate) struct Keys {
    pub(crate) alloc: Global,
    /// The keys of a full container, in the order in which they are inserted.
    pub(crate) held: Vec<u64>,
    /// The held keys, the last one first.
    pub(crate) backwards: Vec<u64>,
    /// As many other keys.
    pub(crate) absent: Vec<u64>,
    /// The held keys, in two other orders.
    pub(crate) mixed: Vec<u64>,
    pub(crate) mixed_again: Vec<u64>,
    /// The absent keys in another order.
    pub(crate) absent_mixed: Vec<u64>,
    /// The numbers below the size.
    pub(crate) places: Vec<u64>,
    /// The number 0.
    pub(crate) zero: Vec<u64>,
}

impl Keys {
    pub(crate) fn new(alloc: Global, size: usize) -> Result<Self, AllocError> {
        let mut random = Xorshift::new();
        let held = random.numbers(alloc, size)?;
        let backwards = held.iter().rev().copied().collect(alloc)?;
        let absent = random.numbers(alloc, size)?;
        let mixed = random.shuffle(alloc, &held)?;
        let mixed_again = random.shuffle(alloc, &held)?;
        let absent_mixed = random.shuffle(alloc, &absent)?;
        Ok(Keys {
            alloc,
            held,
            backwards,
            absent,
            mixed,
            mixed_again,
            absent_mixed,
            places: (0..size as u64).collect(alloc)?,
            zero: vec![in alloc; 0]?,
        })
    }

    pub(crate) fn size(&self) -> usize {
        self.held.len()
    }

    /// Half of the size, and at least one.
    pub(crate) fn half(&self) -> usize {
        (self.held.len() / 2).max(1)
    }
}
