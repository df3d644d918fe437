//! The default hasher hashes as std's does; and what containers feed a hasher.
use crate::few::{map_of, passes, set_of};
use hashlink::{DefaultHashBuilder, DefaultHasher};
use std::hash::{BuildHasher, FoldHasher, Hash, Hasher};
use std::process::ExitCode;

/// The hash of bytes, and of a number of each type.
fn hash_of_each<H: Hasher>(state: &mut H) -> u64 {
    state.write("more than eight bytes".as_bytes());
    state.write("short".as_bytes());
    state.write_u8(200);
    state.write_u16(60_000);
    state.write_u32(4_000_000_000);
    state.write_u64(u64::MAX);
    state.write_u128(u128::MAX);
    state.write_usize(12_345_678_901);
    state.write_i8(-100);
    state.write_i16(-30_000);
    state.write_i32(-2_000_000_000);
    state.write_i64(i64::MIN);
    state.write_i128(-5);
    state.write_isize(-12_345_678_901);
    state.finish()
}

#[test]
fn the_default_hasher_hashes_as_that_of_std(rt: HostRuntime) -> ExitCode {
    let own = hash_of_each(&mut DefaultHashBuilder::default().build_hasher());
    passes(own == hash_of_each(&mut FoldHasher::default()))
}

/// Whether a clone of a hasher that was fed is the same.
fn is_cloned(hasher: &mut DefaultHasher) -> bool {
    let hash = hash_of_each(hasher);
    match hasher.clone() {
        Ok(clone) => clone.finish() == hash,
        Err(_) => false,
    }
}

#[test]
fn hashers_and_their_builders_are_cloned(rt: HostRuntime) -> ExitCode {
    passes(match DefaultHashBuilder::default().clone() {
        Ok(builder) => is_cloned(&mut builder.build_hasher()),
        Err(_) => false,
    })
}

/// The hash of the values that a type feeds a hasher. It takes the value, so that a test has none to drop.
fn fed<T: Hash + Drop>(value: T) -> u64 {
    let mut state = FoldHasher::default();
    value.hash(&mut state);
    state.finish()
}

#[test]
fn a_hasher_is_fed_what_stands_in_order_and_no_length(rt: HostRuntime) -> ExitCode {
    let map = fed(map_of(rt.alloc(), &[(2, 20), (1, 10)]));
    let set = fed(set_of(rt.alloc(), &[2, 1]));
    passes((map == fed((2u64, 20u64, 1u64, 10u64))) & (set == fed((2u64, 1u64))))
}
