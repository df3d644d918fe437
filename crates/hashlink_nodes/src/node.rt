//! Nodes.
use std::marker::{Send, Sync};
use std::mem::size_of;
use std::ptr;

/// A node of a ring: the address of its block. It owns nothing, and only the ring that made it can use it.
#[derive(Clone, Copy)]
pub struct Node {
    pub(crate) at: *mut u8,
}

const _: () = prove!(size_of::<Node>() == 8);

// A node is an address. Nothing is read or written through it without the arena that owns the block, so
// another thread can do nothing with it alone.
unsafe impl Send for Node {}

// The same: a reference to a node gives its address and nothing else.
unsafe impl Sync for Node {}

impl Node {
    /// Returns a node that no ring has.
    pub fn nowhere() -> Node {
        Node {
            at: ptr::null_mut(),
        }
    }
}
