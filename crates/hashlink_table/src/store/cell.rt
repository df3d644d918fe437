use crate::hashed::Hashed;

/// The link after the last guest of a chain. No table has so many slots.
pub const END: usize = u32::MAX as usize;

/// A slot as contracts see it: a place for one node.
#[derive(Clone, Copy)]
pub struct Cell<N> {
    pub kept: Option<Hashed<N>>,
    // Whether the node is a guest: its group was full.
    pub guest: bool,
    // Of a guest: the next one of its group, or `END`.
    pub next: usize,
}
