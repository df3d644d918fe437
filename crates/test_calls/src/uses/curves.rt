//! A miss curve that is computed by hand.
use crate::few::passes;
use hashlink::miss_curve::MissCurve;
use hashlink_uses::curves::misses_of;
use std::process::ExitCode;

#[test]
fn a_curve_of_three_keys_in_turn_falls_once(rt: HostRuntime) -> ExitCode {
    passes(
        (misses_of(rt.alloc(), b"abcabc", 2) == Ok(6))
            & (misses_of(rt.alloc(), b"abcabc", 3) == Ok(3)),
    )
}

#[test]
fn a_curve_has_memory_for_more_uses_of_its_keys(rt: HostRuntime) -> ExitCode {
    let mut curve: MissCurve<u8> = MissCurve::new(rt.alloc());
    let at_first = curve.reserved();
    let is_first = curve.record(1) == Ok(None);
    let before = curve.reserved();
    let is_again = curve.record(1) == Ok(Some(0));
    passes((at_first == 0) & is_first & is_again & (0 < before) & (curve.reserved() < before))
}
