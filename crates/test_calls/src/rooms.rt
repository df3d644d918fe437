//! Containers that are made with room and without a hasher.
use crate::few::passes;
use hashlink::{LinkedHashMap, LinkedHashSet};
use std::alloc::Global;
use std::process::ExitCode;

/// Whether a map that is made with room for ten has it.
fn is_map_made(alloc: Global) -> bool {
    match LinkedHashMap::<u64, u64>::with_capacity(alloc, 10) {
        Ok(map) => map.capacity() >= 10,
        Err(_) => false,
    }
}

/// The same for a set.
fn is_set_made(alloc: Global) -> bool {
    match LinkedHashSet::<u64>::with_capacity(alloc, 10) {
        Ok(set) => set.capacity() >= 10,
        Err(_) => false,
    }
}

#[test]
fn a_map_and_a_set_are_made_with_room(rt: HostRuntime) -> ExitCode {
    passes(is_map_made(rt.alloc()) & is_set_made(rt.alloc()))
}
