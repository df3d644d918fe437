//! Calls of a map that may allocate.
use crate::few::{Map, map_of, passes};
use hashlink_uses::maps::cursors::put_after;
use hashlink_uses::maps::entries::put_new;
use std::process::ExitCode;
use test_refused::put_number;

/// Whether a map with the key 1 accepts a pair by a cursor, by an entry and by a raw entry.
fn takes_each(map: &mut Map) -> bool {
    (put_after(map, 1, 2, 20) == Some(Ok(None)))
        & (put_new(map, 3, 30) == Ok(true))
        & (put_number(map, 4, 40) == Ok(true))
}

#[test]
fn a_map_takes_a_pair_in_each_way(rt: HostRuntime) -> ExitCode {
    passes(takes_each(&mut map_of(rt.alloc(), &[(1, 10)])))
}
