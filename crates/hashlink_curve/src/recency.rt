//! Keys in the order of their last uses.
ghost use Rattle.std.specs.Prelude.{◌≡◌, ◌+◌, ◌-◌, ◌<◌, ◌≤◌, [], length, Ok, IfOk, IfErr, IsOk, OnOk, OnErr};
ghost use Rattle.std.specs.{Prelude.{None, IsTrue}, List.list_any, Map.{keys_of, lookup}, Set.is_member};
ghost use Rattle.hashlink_core.specs.Keyed.{entries_of};
ghost use Rattle.hashlink_curve.specs.Curve.{CanMakeMatch};
ghost use Rattle.hashlink_curve.specs.Recency.{Touches, TouchesMatch, IsPlaced, KeepsKeys, PutsKeyLast};

use crate::marks::Marks;
use hashlink_map::{Equivalent, LinkedHashMap, RawEntryMut};
use std::alloc::{AllocError, Global};
use std::hash::{BuildHasher, Hash};
use std::marker::Model;

/// Keys in the order of their last uses. Each key has a place, and the places increase in that order. A mark
/// is at the place of each key. So the marks after a key's place belong to the keys used since.
#[derive(Drop)]
pub(crate) struct Recency<K: Eq + Hash, S: BuildHasher> {
    places: LinkedHashMap<K, usize, S>,
    marks: Marks,
    next: usize,
    alloc: Global,
}

impl<K: Eq + Hash, S: BuildHasher> Model for Recency<K, S> {
    ghost use Rattle.std.specs.{Prelude.{◌-◌, length}, Map.keys_of};
    ghost use Rattle.hashlink_core.specs.Keyed.{entries_of};
    ghost use Rattle.hashlink_curve.specs.Recency.{RecencyState, IsPlaced};

    ghost Value = { RecencyState K };

    ghost view = { λ r. record { keys = keys_of (entries_of r.places); free = length r.marks - r.next } };

    ghost invariant = { λ r. IsPlaced K.eq (entries_of r.places) r.marks r.next };
}

impl<K: Eq + Hash, S: BuildHasher> Recency<K, S> {
    /// Creates an empty list, whose map hashes with `hash_builder`. It does not allocate.
    pub(crate) fn with_hasher(alloc: Global, hash_builder: S) -> Self
        ensures { result.keys ≡ [] }
    {
        Recency {
            places: LinkedHashMap::with_hasher(alloc, hash_builder),
            marks: Marks::new(alloc),
            next: 0,
            alloc,
        }
    }

    /// Returns the number of keys.
    pub(crate) fn len(&self) -> usize
        ensures { result ≡ length self.now.keys }
    {
        self.places.len()
    }

    /// Returns the number of free places after those of the keys.
    pub(crate) fn free(&self) -> usize
        ensures { result ≡ self.now.free }
    {
        self.marks.width() - self.next
    }

    /// Makes the key the last. Returns how many keys were used since its last use, or `None` at its first
    /// use.
    ///
    /// It takes logarithmic time, except that if no place is free, each key gets a new place. It allocates
    /// only then, or if the key is absent. If memory runs out, it returns the key in `Err` and no key moves.
    pub(crate) fn touch(&mut self, key: K) -> Result<Option<usize>, K>
    where
        K: Drop,
        ensures touched { IfOk result (Touches K.eq self.old.keys self.new.keys key) }
        ensures certain { IsTrue (is_member K.eq self.old.keys key) → 0 < self.old.free → IsOk result }
        ensures free { self.old.free ≤ self.new.free + 1 }
        ensures handed_back { IfErr result (λ k. k ≡ key) }
        ensures unchanged { OnErr result (KeepsKeys self.old self.new) }
    {
        let Ok(()) = free_place(
            self.alloc,
            &mut self.places,
            &mut self.marks,
            &mut self.next,
        ) else {
            return Err(key);
        };
        let count = self.places.len();
        match self.places.insert(key, self.next) {
            Ok(Some(place)) => {
                let others = count - 1 - self.marks.move_mark(place, self.next);
                self.next += 1;
                Ok(Some(others))
            }
            Ok(None) => {
                self.marks.mark(self.next);
                self.next += 1;
                Ok(None)
            }
            Err((key, _)) => Err(key),
        }
    }

    /// Makes the key that the query matches the last, and returns how many keys were used since its last use.
    /// If no key matches, `make` has to be callable, and is called once. The key that it returns has to match
    /// the query. It becomes the last, and the result is `None`.
    ///
    /// It takes as long as `touch`, and hashes the query once. It allocates only if no place is free, or if
    /// no key matches. If memory runs out, or if `make` fails, no key moves.
    pub(crate) fn touch_with<Q: Equivalent<K>, F: FnOnce() -> Result<K, AllocError>>(
        &mut self,
        query: Q,
        make: F,
    ) -> Result<Option<usize>, AllocError>
    where
        K: Drop,
        F: Drop,
        requires { CanMakeMatch (Q.matches query) (F.pre make) (λ k. F.post make (Ok k)) self.old.keys }
        ensures touched { IfOk result (TouchesMatch K.eq (Q.matches query) self.old.keys self.new.keys) }
        ensures certain { IsTrue (list_any (Q.matches query) self.old.keys) → 0 < self.old.free
            → IsOk result }
        ensures free { self.old.free ≤ self.new.free + 1 }
        ensures unchanged { OnErr result (KeepsKeys self.old self.new) }
    {
        free_place(
            self.alloc,
            &mut self.places,
            &mut self.marks,
            &mut self.next,
        )?;
        let count = self.places.len();
        match put_last(&mut self.places, query, make, self.next)? {
            Some(place) => {
                let others = count - self.marks.move_mark(place, self.next) - 1;
                self.next += 1;
                Ok(Some(others))
            }
            None => {
                self.marks.mark(self.next);
                self.next += 1;
                Ok(None)
            }
        }
    }
}

/// Moves the entry of the key that the query matches to the back and gives it the place `next`. Returns the
/// place that it had. If no key matches, it inserts the key that `make` returns at the back, with the place
/// `next`, and returns `None`. It hashes the query once. If it fails, no entry changes.
fn put_last<K: Eq + Hash, S: BuildHasher, Q: Equivalent<K>, F: FnOnce() -> Result<K, AllocError>>(
    places: &mut LinkedHashMap<K, usize, S>,
    query: Q,
    make: F,
    next: usize,
) -> Result<Option<usize>, AllocError>
where
    K: Drop,
    F: Drop,
    requires { CanMakeMatch (Q.matches query) (F.pre make) (λ k. F.post make (Ok k))
        (keys_of (entries_of places.old)) }
    ensures put { IfOk result (PutsKeyLast K.eq (Q.matches query) (entries_of places.old)
        (entries_of places.new) next) }
    ensures absent { OnErr result (lookup (Q.matches query) (entries_of places.old) ≡ None) }
    ensures unchanged { OnErr result (entries_of places.new ≡ entries_of places.old) }
{
    let hash = places.hasher().hash_one(query);
    match places.raw_entry_hashed_nocheck(hash, query) {
        RawEntryMut::Occupied(mut entry) => {
            let place = entry.replace_value(next);
            entry.to_back();
            Ok(Some(place))
        }
        RawEntryMut::Vacant(entry) => {
            let key = make()?;
            let Ok(_entry) = entry.insert_entry_hashed_nocheck(hash, key, next) else {
                return Err(AllocError);
            };
            Ok(None)
        }
    }
}

/// Makes sure that the place `next` is free, if necessary by giving every key a new place. If memory runs
/// out, nothing changes.
fn free_place<K: Eq + Hash + Drop, S: BuildHasher>(
    alloc: Global,
    places: &mut LinkedHashMap<K, usize, S>,
    marks: &mut Marks,
    next: &mut usize,
) -> Result<(), AllocError>
    requires { IsPlaced K.eq (entries_of places.old) marks.old next.old }
    ensures placed { IsPlaced K.eq (entries_of places.new) marks.new next.new }
    ensures free { OnOk result (next.new < length marks.new) }
    ensures more { length marks.old - next.old ≤ length marks.new - next.new }
    ensures certain { next.old < length marks.old → IsOk result }
    ensures keys { keys_of (entries_of places.new) ≡ keys_of (entries_of places.old) }
{
    if *next < marks.width() {
        return Ok(());
    }
    *marks = renumber(alloc, places)?;
    *next = places.len();
    Ok(())
}

/// With more keys than this no row is built, because there could be no memory for it.
const MAX_KEYS: usize = 1 << 55;

/// The number of places that are built for each key. So keys get new places this many times less often than
/// they are used.
const PLACES: usize = 16;

/// Moves the keys to the places from 0 on, in their order, and builds a row with their marks and many more
/// free places. It hashes no key, and no entry moves. If memory runs out, nothing changes.
fn renumber<K: Eq + Hash + Drop, S: BuildHasher>(
    alloc: Global,
    places: &mut LinkedHashMap<K, usize, S>,
) -> Result<Marks, AllocError>
    ensures placed { IfOk result (λ marks. IsPlaced K.eq (entries_of places.new) marks
        (length (entries_of places.new))) }
    ensures free { IfOk result (λ marks. length (entries_of places.new) < length marks) }
    ensures keys { keys_of (entries_of places.new) ≡ keys_of (entries_of places.old) }
    ensures unchanged { OnErr result (places.new ≡ places.old) }
{
    let count = places.len();
    if count > MAX_KEYS {
        return Err(AllocError);
    }
    let mut marks = Marks::with_places(alloc, PLACES * (count + 1))?;
    let mut place = 0;
    let mut values = places.values_mut();
    while let Some(value) = values.next() {
        *value = place;
        marks.mark(place);
        place += 1;
    }
    Ok(marks)
}
