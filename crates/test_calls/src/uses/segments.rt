//! A cache of two segments.
use crate::few::passes;
use hashlink_uses::segments::SegmentedCache;
use std::process::ExitCode;

/// Whether a key that is used again outlives those that are used once.
fn outlives(cache: &mut SegmentedCache<u32, u32>) -> bool {
    let inserted = [cache.insert(1, 10), cache.insert(2, 20)];
    let promoted = cache.get(&1);
    let pushed_out = [
        cache.insert(3, 30),
        cache.insert(4, 40),
        cache.insert(1, 11),
    ];
    let demoted = [cache.get(&4), cache.get(&3), cache.get(&1), cache.get(&9)];
    let again = cache.insert(5, 50);
    (inserted == [Ok(None), Ok(None)])
        & (promoted == Ok(Some(10)))
        & (pushed_out == [Ok(None), Ok(Some((2, 20))), Ok(Some((1, 10)))])
        & (demoted == [Ok(Some(40)), Ok(Some(30)), Ok(Some(11)), Ok(None)])
        & (again == Ok(Some((4, 40))))
        & (cache.get(&3) == Ok(Some(30)))
}

#[test]
fn what_is_used_again_is_protected(rt: HostRuntime) -> ExitCode {
    passes(outlives(&mut SegmentedCache::new(rt.alloc(), 2, 1)))
}

#[test]
fn nothing_is_protected_without_room(rt: HostRuntime) -> ExitCode {
    let mut cache = SegmentedCache::<u32, u32>::new(rt.alloc(), 2, 0);
    let inserted = [cache.insert(1, 10), cache.insert(2, 20)];
    let found = cache.get(&1);
    passes(
        (inserted == [Ok(None), Ok(None)])
            & (found == Ok(Some(10)))
            & (cache.insert(3, 30) == Ok(Some((2, 20)))),
    )
}
