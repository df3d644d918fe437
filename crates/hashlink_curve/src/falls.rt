//! The capacities at which a miss curve falls.
ghost use Rattle.std.specs.{Prelude.{◌≡◌, ◌-◌, ◌^◌, ◌≤◌, ◌<◌, length, sum}, Iterator.{at_most, YieldsFirst}};
ghost use Rattle.hashlink_curve.specs.Curve.{falls_from};

use std::marker::Model;

/// An iterator over the capacities at which a curve falls, in rising order, each with the misses there.
/// Contracts see it as the list of the items not yet returned.
#[derive(Drop)]
pub struct Falls<'a> {
    reuses: &'a [u64],
    capacity: usize,
    misses: u64,
}

impl<'a> Model for Falls<'a> {
    ghost use Rattle.std.specs.Prelude.{ℕ, ◌-◌, List, sum};
    ghost use Rattle.hashlink_curve.specs.Curve.{Falling, falls_from};

    ghost Value = { List (ℕ × ℕ) };

    ghost view = { λ f. falls_from (f.misses - sum f.reuses.now) f.capacity f.reuses.now };

    ghost invariant = { λ f. Falling f.reuses.now f.capacity f.misses };
}

impl<'a> Falls<'a> {
    /// Starts at capacity 0, at which all uses are misses.
    pub(crate) fn new(accesses: u64, reuses: &'a [u64]) -> Self
        requires counted { sum reuses.now ≤ accesses }
        requires fits { length reuses.now < 2 ^ 63 }
        ensures { result ≡ falls_from (accesses - sum reuses.now) 0 reuses.now }
    {
        Falls {
            reuses,
            capacity: 0,
            misses: accesses,
        }
    }
}

impl<'a> Iterator for Falls<'a> {
    type Item = (usize, u64);

    ghost next_gives = { YieldsFirst (λ s. s) };

    ghost remaining = { λ s. at_most (length s) };

    fn next(&mut self) -> Option<(usize, u64)> {
        while let Some((count, others)) = self.reuses.split_first() {
            self.reuses = others;
            self.capacity += 1;
            self.misses -= *count;
            if *count > 0 {
                return Some((self.capacity, self.misses));
            }
        }
        None
    }
}
