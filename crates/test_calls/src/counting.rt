//! How often a map compares keys whose hashes are all different.
ghost use Rattle.std.{specs.Prelude.◌==◌, proofs.Common.rules, specs.Cmp.Rules.{comparing, hashing}};
ghost use Rattle.std.specs.Hash as fed;
ghost use Rattle.test_calls.specs.OwnNumber.{number_of};

use crate::few::{is_value, passes};
use hashlink::LinkedHashMap;
use std::alloc::{AllocError, Global};
use std::cell::Cell;
use std::hash::{BuildHasher, Hash, Hasher};
use std::process::ExitCode;
use std::rc::Rc;

/// Gives a number below 65,536 itself as its hash.
#[derive(Clone, Copy, Default)]
struct OwnNumber {
    hash: u64,
}

impl Hasher for OwnNumber {
    ghost write = { λ _ bytes. record { hash = number_of bytes } };

    ghost finish = { λ s. s.hash };

    fn finish(&self) -> u64 {
        self.hash
    }

    fn write(&mut self, bytes: &[u8]) {
        self.hash = match bytes {
            [low, high, ..] => *low as u64 + 256 * *high as u64,
            _ => 0,
        };
    }
}

impl BuildHasher for OwnNumber {
    type Hasher = OwnNumber;

    ghost build_hasher = { λ s. s };

    fn build_hasher(&self) -> OwnNumber {
        *self
    }
}

/// A number that counts how often it is compared with another.
#[derive(Drop)]
struct Counted {
    number: u64,
    comparisons: Rc<Cell<u64>>,
}

impl PartialEq for Counted {
    ghost eq = { λ a b. a.number == b.number };

    ghost laws = { Prim.search (comparing, rules) };

    fn eq(&self, other: &Counted) -> bool {
        self.comparisons.set(self.comparisons.get().wrapping_add(1));
        self.number == other.number
    }
}

impl Eq for Counted {
    ghost laws = { Prim.search (comparing, rules) };
}

impl Hash for Counted {
    ghost hash_input = { λ a. fed.u64 a.number };

    ghost respects_eq = { Prim.search (hashing, rules) };

    fn hash<H: Hasher>(&self, state: &mut H) {
        self.number.hash(state);
    }
}

/// A number whose comparisons `comparisons` counts.
fn number_with_count(number: u64, comparisons: &Rc<Cell<u64>>) -> Result<Counted, AllocError> {
    Ok(Counted {
        number,
        comparisons: comparisons.clone()?,
    })
}

/// A map of numbers, each under itself.
type Numbers = LinkedHashMap<Counted, u64, OwnNumber>;

/// Whether a number is inserted and was new.
fn inserts(map: &mut Numbers, number: u64, comparisons: &Rc<Cell<u64>>) -> bool {
    match number_with_count(number, comparisons) {
        Ok(key) => map.insert(key, number) == Ok(None),
        Err(_) => false,
    }
}

/// Whether the number is found.
fn gets(map: &Numbers, number: u64, comparisons: &Rc<Cell<u64>>) -> bool {
    match number_with_count(number, comparisons) {
        Ok(key) => is_value(map.get(&key), number),
        Err(_) => false,
    }
}

/// Whether a map accepts the numbers from 1 to 500, and then finds each of them.
fn takes_and_finds(map: &mut Numbers, comparisons: &Rc<Cell<u64>>) -> bool {
    let mut all = true;
    for number in 1..501u64 {
        all &= inserts(map, number, comparisons);
    }
    for number in 1..501u64 {
        all &= gets(map, number, comparisons);
    }
    all
}

/// Whether an empty map needs at most 4,000 comparisons for this.
fn compares_few(alloc: Global, comparisons: &Rc<Cell<u64>>) -> bool {
    let map = &mut LinkedHashMap::with_hasher(alloc, OwnNumber::default());
    takes_and_finds(map, comparisons) & (comparisons.get() <= 4_000)
}

#[test]
fn inserts_and_gets_of_500_keys_compare_at_most_4000_times(rt: HostRuntime) -> ExitCode {
    passes(match Rc::new(rt.alloc(), Cell::new(0u64)) {
        Ok(comparisons) => compares_few(rt.alloc(), &comparisons),
        Err(_) => false,
    })
}
