//! How often items are hashed, compared and cloned, and how many are forgotten.
use std::cell::Cell;

/// Counts that items share.
#[derive(Drop)]
pub struct Counts {
    /// How often an item was hashed.
    pub hashes: Cell<u64>,
    /// How often two items were compared.
    pub comparisons: Cell<u64>,
    /// How often an item was cloned.
    pub clones: Cell<u64>,
    /// How many items are never dropped.
    pub forgotten: Cell<u64>,
    /// How many entries a forgotten drain has not given.
    pub lost: Cell<u64>,
}

impl Counts {
    pub fn new() -> Counts {
        Counts {
            hashes: Cell::new(0),
            comparisons: Cell::new(0),
            clones: Cell::new(0),
            forgotten: Cell::new(0),
            lost: Cell::new(0),
        }
    }
}

/// Adds to a count.
pub fn add(count: &Cell<u64>, more: u64) {
    count.set(count.get().wrapping_add(more));
}
