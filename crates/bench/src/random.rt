//! Numbers that look random, the same in each run.
use std::alloc::{AllocError, Global};

/// Marsaglia's xorshift of 64 bits. Its numbers differ from each other over the whole period.
#[derive(Drop)]
pub(crate) struct Xorshift {
    state: u64,
}

impl Xorshift {
    pub(crate) fn new() -> Self {
        Xorshift {
            state: 0x9e37_79b9_7f4a_7c15,
        }
    }

    fn next(&mut self) -> u64 {
        self.state ^= self.state << 13;
        self.state ^= self.state >> 7;
        self.state ^= self.state << 17;
        self.state
    }

    /// This many numbers.
    pub(crate) fn numbers(&mut self, alloc: Global, count: usize) -> Result<Vec<u64>, AllocError> {
        let mut numbers = Vec::new(alloc);
        for _ in 0..count {
            numbers.push(self.next())?;
        }
        Ok(numbers)
    }

    /// The same keys in another order.
    pub(crate) fn shuffle(&mut self, alloc: Global, keys: &[u64]) -> Result<Vec<u64>, AllocError> {
        let mut keys = keys.to_vec(alloc)?;
        for at in (1..keys.len()).rev() {
            let other = (self.next() % (at as u64 + 1)) as usize;
            keys.swap(at, other);
        }
        Ok(keys)
    }

    /// Chooses keys from a list, as many as the list has.
    ///
    /// Each is one of the first n, n/2, n/4 and so on, for the given number of parts, each part equally
    /// often.
    pub(crate) fn choose(
        &mut self,
        alloc: Global,
        keys: &[u64],
        parts: u64,
    ) -> Result<Vec<u64>, AllocError> {
        let mut chosen = Vec::new(alloc);
        for _ in keys {
            let mut part = keys.len() as u64;
            for _ in 0..self.next() % parts.max(1) {
                part /= 2;
            }
            let rank = (self.next() >> 11) % part.max(1);
            if let Some(key) = keys.get(rank as usize) {
                chosen.push(*key)?;
            }
        }
        Ok(chosen)
    }
}
