//! The items of the calls of a pass.
use crate::keys::Keys;
use crate::random::Xorshift;
use std::alloc::{AllocError, Global};

/// Which keys the calls get, and in which order.
#[derive(Clone, Copy, PartialEq, Eq)]
pub(crate) enum Order {
    /// The held keys, in the order in which they were inserted.
    Held,
    /// The absent keys.
    Absent,
    /// The held keys, mixed.
    Mixed,
    /// The held keys, mixed, in two orders by turns, so that a key has other neighbours in the next pass.
    MixedByTurns,
    /// The absent and the held keys, by turns.
    AbsentAndHeld,
    /// The held keys, mixed, each with an absent key that replaces it, and back in the next pass.
    Exchanges,
    /// Held keys, chosen at random in each pass, the first ones most often, about as by Zipf's law.
    Zipf,
    /// Indexes into the list of held keys, chosen in the same way.
    ZipfPlaces,
    /// Held keys, chosen at random in each pass, each equally often.
    Uniform,
    /// A single call, counted once for each entry of a container.
    Whole,
    /// A single call, counted once for each entry of two containers.
    Both,
}

impl Order {
    /// The number of operations of a pass.
    pub(crate) fn operations(self, size: usize) -> usize {
        if self == Order::Both {
            size.saturating_mul(2)
        } else {
            size
        }
    }
}

/// The item of a call.
pub(crate) trait Listed: Drop {
    /// Makes the item from a key and from the key that replaces it.
    fn of(alloc: Global, key: u64, other: u64) -> Result<Self, AllocError>;
}

impl Listed for u64 {
    fn of(_alloc: Global, key: u64, _other: u64) -> Result<u64, AllocError> {
        Ok(key)
    }
}

/// An element of a set whose calls are made at one place of the program only.
impl Listed for (u64, ()) {
    fn of(_alloc: Global, key: u64, _other: u64) -> Result<(u64, ()), AllocError> {
        Ok((key, ()))
    }
}

impl Listed for (u64, u64) {
    fn of(_alloc: Global, key: u64, other: u64) -> Result<(u64, u64), AllocError> {
        Ok((key, other))
    }
}

/// The items of each pass.
#[derive(Drop)]
pub(crate) struct Lists {
    order: Order,
    random: Xorshift,
    passes: u64,
}

impl Lists {
    pub(crate) fn new(order: Order) -> Self {
        let random = Xorshift::new();
        Lists {
            order,
            random,
            passes: 0,
        }
    }

    /// The number of passes that had a list.
    pub(crate) fn passes(&self) -> u64 {
        self.passes
    }

    /// The items of the next pass.
    pub(crate) fn next<T: Listed>(&mut self, keys: &Keys) -> Result<Vec<T>, AllocError> {
        let is_back = self.passes % 2 == 1;
        self.passes = self.passes.wrapping_add(1);
        let parts = u64::from((keys.size() as u64).max(1).ilog2()) + 1;
        match self.order {
            Order::Zipf => self.chosen(keys.alloc, &keys.held, parts),
            Order::ZipfPlaces => self.chosen(keys.alloc, &keys.places, parts),
            Order::Uniform => self.chosen(keys.alloc, &keys.held, 1),
            order => items_of(keys, order, is_back),
        }
    }

    fn chosen<T: Listed>(
        &mut self,
        alloc: Global,
        keys: &[u64],
        parts: u64,
    ) -> Result<Vec<T>, AllocError> {
        let chosen = self.random.choose(alloc, keys, parts)?;
        items(alloc, &chosen, &chosen)
    }
}

/// The items of a pass whose keys are not chosen at random.
fn items_of<T: Listed>(keys: &Keys, order: Order, is_back: bool) -> Result<Vec<T>, AllocError> {
    let (now, other) = match order {
        Order::Absent => (&keys.absent, &keys.absent),
        Order::Mixed => (&keys.mixed, &keys.mixed),
        Order::MixedByTurns if is_back => (&keys.mixed_again, &keys.mixed),
        Order::MixedByTurns => (&keys.mixed, &keys.mixed_again),
        Order::AbsentAndHeld if !is_back => (&keys.absent, &keys.held),
        Order::Exchanges if is_back => (&keys.absent_mixed, &keys.held),
        Order::Exchanges => (&keys.mixed, &keys.absent),
        Order::Whole | Order::Both => (&keys.zero, &keys.zero),
        _ => (&keys.held, &keys.absent),
    };
    items(keys.alloc, now, other)
}

/// The items of keys and of the keys that replace them.
pub(crate) fn items<T: Listed>(
    alloc: Global,
    keys: &[u64],
    others: &[u64],
) -> Result<Vec<T>, AllocError> {
    let mut items = Vec::new(alloc);
    for (key, other) in keys.iter().zip(others) {
        items.push(T::of(alloc, *key, *other)?)?;
    }
    Ok(items)
}
