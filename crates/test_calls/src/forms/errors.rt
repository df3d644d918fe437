//! `?` if an allocation fails.
use crate::few::{Map, map_of, passes};
use std::alloc::{AllocError, AllocFailed, Global};
use std::io;
use std::process::ExitCode;

/// Reserves room. If an insert fails, `?` drops its pair.
fn put(map: &mut Map, room: usize) -> Result<(), AllocError> {
    map.reserve(room)?;
    map.insert(1, 10).map_err(|_| AllocError)?;
    Ok(())
}

/// Whether a pair is inserted exactly if room can be reserved.
fn is_room_refused(map: &mut Map) -> bool {
    put(map, 4).is_ok() & put(map, 1 << 61).is_err()
}

/// Inserts a pair, which is dropped if memory runs out. The line is the same for each error type.
fn put_or_io_error(map: &mut Map) -> io::Result<()> {
    map.insert(1, 11).map_err(|_| AllocError)?;
    Ok(())
}

fn put_or_any_error(map: &mut Map) -> anyhow::Result<()> {
    map.insert(1, 12).map_err(|_| AllocError)?;
    Ok(())
}

/// Inserts a pair, which is in the error if memory runs out. `?` drops it and turns the error into the
/// caller's.
fn put_or_hand_back(
    map: &mut Map,
    pair: (u64, u64),
) -> Result<Option<u64>, AllocFailed<(u64, u64)>> {
    map.insert(pair.0, pair.1)
        .map_err(|value| AllocFailed { value })
}

fn put_and_pass_on(map: &mut Map) -> Result<Option<u64>, AllocError> {
    Ok(put_or_hand_back(map, (1, 13))?)
}

fn put_and_pass_on_to_io(map: &mut Map) -> io::Result<Option<u64>> {
    Ok(put_or_hand_back(map, (1, 14))?)
}

fn put_and_pass_on_to_any(map: &mut Map) -> anyhow::Result<Option<u64>> {
    Ok(put_or_hand_back(map, (1, 15))?)
}

/// Whether each of them inserts.
fn is_put_each_time(map: &mut Map) -> bool {
    put_or_io_error(map).is_ok()
        & put_or_any_error(map).is_ok()
        & (put_and_pass_on(map) == Ok(Some(12)))
        & (put_and_pass_on_to_io(map).ok() == Some(Some(13)))
        & (put_and_pass_on_to_any(map).ok() == Some(Some(14)))
}

#[test]
fn a_refusal_is_passed_on(rt: HostRuntime) -> ExitCode {
    let map = &mut map_of(rt.alloc(), &[]);
    passes(is_room_refused(map) & is_put_each_time(map))
}
