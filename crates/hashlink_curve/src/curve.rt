//! The miss curve.
ghost use Rattle.std.specs.Prelude.{◌≡◌, ◌≤◌, ◌<◌, ◌+◌, ◌-◌, ◌^◌, ℕ, List, [], length, drop, sum, Ok, IfOk};
ghost use Rattle.std.specs.{Prelude.{IfErr, IsOk, OnErr, OnOk, IsTrue, vec_capacity}, List.list_any};
ghost use Rattle.std.specs.Set.{distinct_count, is_member};
ghost use Rattle.hashlink_history.specs.History.{cache_misses};
ghost use Rattle.hashlink_curve.specs.Curve.{Counted, Counts, CanMakeMatch, misses_at, falls_from};
ghost use Rattle.hashlink_curve.specs.Curve.{ListsFalls, CanCount, KeepsCounts, tallied};

use crate::falls::Falls;
use crate::recency::Recency;
use hashlink_map::{DefaultHashBuilder, Equivalent};
use std::alloc::{AllocError, Global};
use std::hash::{BuildHasher, Hash};
use std::marker::Model;

/// How often an LRU cache of each capacity misses if it is given the recorded keys.
///
/// Its memory grows with the number of distinct keys, and not with the number of keys recorded.
#[derive(Drop)]
pub struct MissCurve<K: Eq + Hash, S: BuildHasher = DefaultHashBuilder> {
    recency: Recency<K, S>,
    reuses: Vec<u64>,
    accesses: u64,
}

impl<K: Eq + Hash, S: BuildHasher> Model for MissCurve<K, S> {
    ghost use Rattle.hashlink_curve.specs.Curve.{CurveState, IsTallied, reserved_uses};

    ghost Value = { CurveState K };

    ghost view = { λ c. record {
      keys = c.recency.keys;
      reuses = c.reuses.items;
      reserved = reserved_uses c.reuses c.recency.free;
    } };

    ghost invariant = { λ c. IsTallied c.recency.keys c.reuses.items c.accesses };
}

impl<K: Eq + Hash> MissCurve<K, DefaultHashBuilder> {
    /// Creates the curve of an empty history, whose keys are hashed with `DefaultHasher`. It does not
    /// allocate.
    pub fn new(alloc: Global) -> Self
        ensures { Counted K.eq [] result }
    {
        MissCurve::with_hasher(alloc, DefaultHashBuilder)
    }
}

impl<K: Eq + Hash, S: BuildHasher> MissCurve<K, S> {
    /// Creates the curve of an empty history, whose keys are hashed with `hash_builder`. It does not
    /// allocate. No result depends on the hasher.
    pub fn with_hasher(alloc: Global, hash_builder: S) -> Self
        ensures { Counted K.eq [] result }
    {
        MissCurve {
            recency: Recency::with_hasher(alloc, hash_builder),
            reuses: Vec::new(alloc),
            accesses: 0,
        }
    }

    /// Records a use of the key. Returns how many other keys were used since its last use, or `None` at its
    /// first use.
    ///
    /// It takes logarithmic time on average. If memory runs out, or after 2 to the power of 64 less 1 uses,
    /// it returns the key in `Err` and no count changes. A key that is recorded already needs no memory if
    /// `reserved` is not 0.
    pub fn record(&mut self, key: K) -> Result<Option<usize>, K>
    where
        K: Drop,
        ensures counted { IfOk result (λ distance. (used : List K)
            → Counts K.eq used self.old self.new key distance) }
        ensures there { OnOk result (IsTrue (is_member K.eq self.new.keys key)) }
        ensures again { IsTrue (is_member K.eq self.old.keys key) → 0 < self.old.reserved
            → misses_at self.old 0 < 2 ^ 64 - 1 → IsOk result }
        ensures reserved { IsTrue (is_member K.eq self.old.keys key)
            → self.old.reserved ≤ self.new.reserved + 1 }
        ensures handed_back { IfErr result (λ k. k ≡ key) }
        ensures unchanged { OnErr result (KeepsCounts self.old self.new) }
    {
        if self.accesses == u64::MAX {
            return Err(key);
        }
        let Ok(()) = self.reuses.reserve(1) else {
            return Err(key);
        };
        let distance = self.recency.touch(key)?;
        count_use(&mut self.reuses, distance);
        self.accesses += 1;
        Ok(distance)
    }

    /// Does the same as `record` for a key that the query matches. If no such key is recorded yet, `make` has
    /// to be callable, and is called once. The key that it returns has to match the query, and is recorded.
    ///
    /// It takes as long as `record`, and hashes the query once. If memory runs out, if `make` fails, or after
    /// 2 to the power of 64 less 1 uses, it returns `AllocError` and no count changes. A key that is recorded
    /// already needs no memory if `reserved` is not 0.
    pub fn record_with<Q: Equivalent<K>, F: FnOnce() -> Result<K, AllocError>>(
        &mut self,
        query: Q,
        make: F,
    ) -> Result<Option<usize>, AllocError>
    where
        K: Drop,
        F: Drop,
        requires { CanMakeMatch (Q.matches query) (F.pre make) (λ k. F.post make (Ok k)) self.old.keys }
        ensures counted { IfOk result (λ distance. (used : List K) (key : K) → IsTrue (Q.matches query key)
            → Counts K.eq used self.old self.new key distance) }
        ensures there { OnOk result (IsTrue (list_any (Q.matches query) self.new.keys)) }
        ensures again { IsTrue (list_any (Q.matches query) self.old.keys) → 0 < self.old.reserved
            → misses_at self.old 0 < 2 ^ 64 - 1 → IsOk result }
        ensures reserved { IsTrue (list_any (Q.matches query) self.old.keys)
            → self.old.reserved ≤ self.new.reserved + 1 }
        ensures unchanged { OnErr result (KeepsCounts self.old self.new) }
    {
        if self.accesses == u64::MAX {
            return Err(AllocError);
        }
        let Ok(()) = self.reuses.reserve(1) else {
            return Err(AllocError);
        };
        let distance = self.recency.touch_with(query, make)?;
        count_use(&mut self.reuses, distance);
        self.accesses += 1;
        Ok(distance)
    }

    /// Returns the number of further uses of recorded keys for which memory is reserved. Until the number of
    /// uses reaches 2 to the power of 64 less 1, they cannot fail. It takes constant time.
    pub fn reserved(&self) -> usize
        ensures { result ≡ self.now.reserved }
    {
        if self.reuses.len() < self.reuses.capacity() {
            self.recency.free()
        } else {
            0
        }
    }

    /// Returns how many of the recorded uses miss in a cache of this capacity that is empty at first. It
    /// takes a step for each distinct key beyond `capacity`, and does not allocate.
    pub fn misses(&self, capacity: usize) -> u64
        // The same as the misses of the model's cache, and so of any cache whose contract names it.
        ensures counted { (used : List K) → Counted K.eq used self.now → result
            ≡ cache_misses K.eq capacity used }
        ensures exact { result ≡ misses_at self.now capacity }

        // A larger capacity has no more misses. From the number of distinct keys on, the misses are that
        // number.
        ensures falls { (c : ℕ) → c ≤ capacity → result ≤ misses_at self.now c }
        ensures floor { length self.now.keys ≤ capacity → result ≡ length self.now.keys }
    {
        self.recency.len() as u64 + sum_from(&self.reuses, capacity)
    }

    /// Returns the number of uses recorded. It takes constant time.
    pub fn accesses(&self) -> u64
        ensures counted { (used : List K) → Counted K.eq used self.now → result ≡ length used }
        ensures all { result ≡ misses_at self.now 0 }
    {
        self.accesses
    }

    /// Returns the number of distinct keys recorded. It takes constant time.
    pub fn distinct(&self) -> usize
        ensures counted { (used : List K) → Counted K.eq used self.now → result ≡ distinct_count K.eq used }
        ensures all { result ≡ length self.now.keys }
    {
        self.recency.len()
    }

    /// Returns an iterator over the capacities at which the curve falls, in rising order, each with the
    /// misses there. It takes constant time and does not allocate. The iterator takes a step for each
    /// distinct key in all.
    pub fn falls(&self) -> Falls<'_>
        ensures falls { ListsFalls self.now result }
        ensures exact { result ≡ falls_from (length self.now.keys) 0 self.now.reuses }
    {
        Falls::new(self.accesses, &self.reuses)
    }
}

/// Returns the curve of the given keys, used in order. It costs a `record` for each key. If memory runs out,
/// it returns `AllocError`, and nothing is left of the curve.
pub fn miss_curve<K: Eq + Hash + Copy>(
    alloc: Global,
    keys: &[K],
) -> Result<MissCurve<K>, AllocError>
    ensures counted { IfOk result (Counted K.eq keys.now) }
    ensures nothing { length keys.now ≡ 0 → IsOk result }
{
    let mut curve = MissCurve::new(alloc);
    for key in keys {
        let Ok(_) = curve.record(*key) else {
            return Err(AllocError);
        };
    }
    Ok(curve)
}

/// Counts a use at this distance. A new key has no distance, and adds a count for one more distance.
fn count_use(reuses: &mut Vec<u64>, distance: Option<usize>)
    requires countable { CanCount distance reuses.old }
    ensures counts { reuses.new.items ≡ tallied distance reuses.old.items }
    ensures capacity { vec_capacity reuses.new ≡ vec_capacity reuses.old }
{
    match distance {
        Some(others) => reuses[others] += 1,
        None => reuses.push_reserved(0),
    }
}

/// Returns the sum of the counts from this index on.
fn sum_from(counts: &[u64], place: usize) -> u64
    requires { sum (drop place counts.now) < 2 ^ 64 }
    ensures { result ≡ sum (drop place counts.now) }
{
    if place >= counts.len() {
        return 0;
    }
    counts[place..].iter().sum()
}
