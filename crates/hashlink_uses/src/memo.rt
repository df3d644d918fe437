//! Memos. A type states that each of its entries is right. So a caller that locks a memo, and knows only what
//! its type states, knows what the memo returns.
ghost use Rattle.std.specs.Prelude.{◌≡◌, ◌≤◌, ◌<◌, ◌^◌, ◌*◌, ◌↔◌, All, Err, IfOk, IfSome, Ok, OnErr, Some};
ghost use Rattle.std.specs.{Map.lookup, Prelude.nat_eq};
ghost use Rattle.hashlink.specs.Cached.{entries_of, state_of};
ghost use Rattle.hashlink_uses.specs.declared.memo.CubeError.TheVariants.{Memory, TooLarge};

use hashlink::LruCache;
use hashlink::linked_hash_map::TryInsertError;
use std::alloc::Global;
use std::sync::Mutex;

/// Squares of the numbers that were asked for last.
#[derive(Drop)]
pub struct Squares {
    cache: LruCache<u32, u64>,
    ghost right: { All (λ e. e.1 ≡ e.0 * e.0) (entries_of cache) },
}

impl Squares {
    /// Creates a memo of up to so many squares.
    pub fn new(alloc: Global, capacity: usize) -> Self {
        Squares {
            cache: LruCache::new(alloc, capacity),
        }
    }

    /// Returns the square of a number, which is computed only if it is not remembered. If memory runs out, it
    /// is not remembered.
    pub fn get(&mut self, number: u32) -> u64
        ensures { result ≡ number * number }
    {
        let square = || u64::from(number) * u64::from(number);
        match self.cache.get_or_insert_with(number, square) {
            Ok(square) => *square,
            Err((_, square)) => square,
        }
    }
}

/// Returns the square of a number from a memo behind a lock. If another holds the lock, it computes the
/// square.
pub fn shared_square(memo: &Mutex<Squares>, number: u32) -> u64
    ensures { result ≡ number * number }
{
    match memo.try_lock() {
        Some(mut squares) => squares.get(number),
        None => u64::from(number) * u64::from(number),
    }
}

/// Why there is no cube: it has more than 64 bits, or there is no memory to remember it.
#[derive(Clone, Copy, Debug, PartialEq, Eq, Drop)]
pub enum CubeError {
    TooLarge,
    Memory,
}

/// Cubes of the numbers that were asked for last.
#[derive(Drop)]
pub struct Cubes {
    cache: LruCache<u64, u64>,
    ghost right: { All (λ e. (e.1 ≡ e.0 ^ 3) × (e.1 < 2 ^ 64)) (entries_of cache) },
}

impl Cubes {
    /// Creates a memo of up to so many cubes.
    pub fn new(alloc: Global, capacity: usize) -> Self {
        Cubes {
            cache: LruCache::new(alloc, capacity),
        }
    }

    /// Returns the cube of a number, which is computed only if it is not remembered, and is remembered from
    /// then on. It returns `Memory` only if a cube that is not remembered needs a new node.
    pub fn get(&mut self, number: u64) -> Result<u64, CubeError>
        ensures right { IfOk result (λ cube. cube ≡ number ^ 3) }
        ensures too_large { (result ≡ Err TooLarge) ↔ (2 ^ 64 ≤ number ^ 3) }
        ensures known { IfSome (lookup (nat_eq number) (entries_of self.old.cache))
            (λ cube. result ≡ Ok cube) }
        ensures memory { result ≡ Err Memory → (state_of self.old.cache).map.spare ≡ 0 }
        ensures remembered { IfOk result
            (λ cube. lookup (nat_eq number) (entries_of self.new.cache) ≡ Some cube) }
        ensures unchanged { OnErr result (entries_of self.new.cache ≡ entries_of self.old.cache) }
    {
        let made = self
            .cache
            .get_or_try_insert_with(number, || number.checked_pow(3).ok_or(()));
        match made {
            Ok(cube) => Ok(*cube),
            Err(TryInsertError::Make(_, ())) => Err(CubeError::TooLarge),
            Err(TryInsertError::Memory(_)) => Err(CubeError::Memory),
        }
    }
}

/// Returns the cube of a number from a memo behind a lock. If another holds the lock, or there is no memory
/// to remember the cube, it computes the cube.
pub fn shared_cube(memo: &Mutex<Cubes>, number: u64) -> Result<u64, CubeError>
    ensures right { IfOk result (λ cube. cube ≡ number ^ 3) }
    ensures too_large { (result ≡ Err TooLarge) ↔ (2 ^ 64 ≤ number ^ 3) }
    ensures fits { number ^ 3 < 2 ^ 64 → result ≡ Ok (number ^ 3) }
{
    if let Some(mut cubes) = memo.try_lock() {
        if let Ok(cube) = cubes.get(number) {
            return Ok(cube);
        }
    }
    number.checked_pow(3).ok_or(CubeError::TooLarge)
}
