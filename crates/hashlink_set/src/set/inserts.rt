//! Inserts. Each one hashes an element that it is given once, and looks it up as `contains` does.
ghost use Rattle.std.specs.Prelude.{◌≡◌, IsSome, IsTrue, IsOk, None, option_copied, OnOk, IfOk, IfErr, Ok};
ghost use Rattle.std.specs.{Prelude.{Err, Some, length, not, true}, Borrow.sem, Fn.FnOnceReturnsAt};
ghost use Rattle.std.specs.{List.{find, IsDistinct}, Option.UnwrapsOrElse, Set.is_member};
ghost use Rattle.hashlink_model.specs.Sets.{elements_of, put_element, replaced, stored_element, SetInserts};
ghost use Rattle.hashlink_model.specs.{Lookups.SetUpdates, MapState.RefusesEntry, Walk.last_of};
ghost use Rattle.hashlink_model.specs.Sets.{GetsOrInserts, SetReplaces};
ghost use Rattle.hashlink_core.specs.Keyed.{state_of};
ghost use Rattle.hashlink_set.specs.Made.{CanMakeAbsent, GetsOrMakes};

use super::LinkedHashSet;
use hashlink_map::{Entry, LinkedHashMap, RawEntryMut};
use std::hash::{BuildHasher, Hash};

impl<T: Eq + Hash, S: BuildHasher> LinkedHashSet<T, S> {
    ghost use Rattle.hashlink_set.specs.SetLends.{EndsInserted, EndsMade, LastOrRefused, StaysAsItWas};

    /// Inserts the element at the back, and returns whether it was absent. If an equal element is present, it
    /// stays in the set and moves to the back. It hashes the element once, and stores at most six links if it
    /// is present and four if it is absent.
    ///
    /// It allocates only if the element is absent and no node is free. If the table is also full, it grows
    /// first, in linear time in the new capacity. If an allocation fails, it returns the element in `Err` and
    /// changes no element; the room may have grown.
    #[inline(always)]
    pub fn insert(&mut self, value: T) -> Result<bool, T>
    where
        T: Drop,
        ensures inserts { SetInserts T.eq self.old self.new value result }
        ensures elements { OnOk result (elements_of self.new
            ≡ put_element T.eq (elements_of self.old) value (length (elements_of self.old))) }
        ensures updates { OnOk result
            (SetUpdates T.eq (elements_of self.old) (elements_of self.new) value true) }
        ensures new { IfOk result (λ new. new ≡ not (is_member T.eq (elements_of self.old) value)) }
        ensures there { IsTrue (is_member T.eq (elements_of self.old) value) → IsOk result }
        ensures distinct { IsDistinct T.eq (elements_of self.new) }
    {
        match self.map.insert(value, ()) {
            Ok(was) => Ok(was.is_none()),
            Err((value, ())) => Err(value),
        }
    }

    /// Replaces the equal element by the given one, at the same place, and returns the old one if there was
    /// one. An absent element is inserted at the back. It hashes the element once, and stores no link if it
    /// is present and at most four if it is absent.
    ///
    /// It allocates only if the element is absent and no node is free. If the table is also full, it grows
    /// first, in linear time in the new capacity. If an allocation fails, it returns the element in `Err` and
    /// changes no element; the room may have grown.
    #[inline(always)]
    pub fn replace(&mut self, value: T) -> Result<Option<T>, T>
        ensures replaces { SetReplaces T.eq self.old self.new value result }
        ensures elements { OnOk result (elements_of self.new ≡ replaced T.eq (elements_of self.old) value) }
        ensures updates { OnOk result
            (SetUpdates T.eq (elements_of self.old) (elements_of self.new) value true) }
        ensures old { IfOk result (λ old. old ≡ find (T.eq value) (elements_of self.old)) }
        ensures distinct { IsDistinct T.eq (elements_of self.new) }
    {
        match replace_in_map(&mut self.map, value) {
            Ok(was) => Ok(was),
            Err((value, ())) => Err(value),
        }
    }

    /// Inserts the element at the back, or moves the equal one to the back. Returns a reference to the
    /// element that is then in the set. It is `insert`, and then `back`. It hashes the element once, and
    /// stores at most six links if the element is present and four if it is absent.
    ///
    /// It allocates only if the element is absent and no node is free. If the table is also full, it grows
    /// first, in linear time in the new capacity. If an allocation fails, it returns the element in `Err` and
    /// changes no element; the room may have grown.
    #[inline(always)]
    pub fn get_or_insert(&mut self, value: T) -> Result<&T, T>
    where
        T: Drop,
        ensures* inserts { sem 𝓛 (EndsInserted T.row S.row S.Hasher.row T.Hash S.BuildHasher S.Hasher.Hasher
            self.entry value result) }
        ensures lent { IfOk result (λ x. x.now ≡ stored_element T.eq (elements_of self.old) value) }
        ensures handed_back { IfErr result (λ x. x ≡ value) }
    {
        let (set, refused) = self.put_last(value);
        Self::lent_or_refused(set.last_for_good(), refused)
    }

    /// Moves the element that is equal to `value` to the back, or inserts the one that `f` returns at the
    /// back. Returns a reference to the element that is then in the set. If none is equal to `value`, `f` is
    /// called once: it has to be callable on `value`, and the element that it returns has to be absent. It
    /// hashes `value` once, and the returned element once. It stores at most six links if the element is
    /// present, and four if it is absent.
    ///
    /// It allocates only if the element is absent and no node is free. If the table is also full, it grows
    /// first, in linear time in the new capacity. If an allocation fails, it returns the element that `f`
    /// returned in `Err`, and changes no element; the room may have grown.
    #[inline(always)]
    pub fn get_or_insert_with<F: FnOnce(&T) -> T>(&mut self, value: &T, f: F) -> Result<&T, T>
    where
        T: Drop,
        F: Drop,
        requires { CanMakeAbsent T.eq F.FnOnce f self.old value.now }
        ensures* makes { sem 𝓛 (EndsMade T.row S.row S.Hasher.row T.Hash S.BuildHasher S.Hasher.Hasher
            self.entry value.now (FnOnceReturnsAt F.FnOnce f value.now) result) }
        ensures lent { IfOk result (λ x. UnwrapsOrElse (find (T.eq value.now) (elements_of self.old))
            (FnOnceReturnsAt F.FnOnce f value.now) x.now) }
        ensures made { IfErr result (FnOnceReturnsAt F.FnOnce f value.now) }
    {
        let (set, refused) = self.put_or_make(value, f);
        Self::lent_or_refused(set.last_for_good(), refused)
    }

    /// Returns the last element, borrowed for as long as the set. The set does not change.
    #[inline(always)]
    fn last_for_good(&mut self) -> Option<&T>
        ensures* unchanged { sem 𝓛 (StaysAsItWas T.row S.row S.Hasher.row T.Hash S.BuildHasher S.Hasher.Hasher
            self.entry) }
        ensures last { option_copied result ≡ last_of (elements_of self.old) }
    {
        self.back()
    }

    /// Does the same as `insert`, and returns the set and the element that was not inserted, if any.
    #[inline(always)]
    fn put_last(&mut self, value: T) -> (&mut Self, Option<T>)
    where
        T: Drop,
        ensures same_set { result.0.ghost_name ≡ self.entry.ghost_name }
        ensures puts { LastOrRefused result.0.now (GetsOrInserts T.eq self.old result.0.now value) result.1 }
    {
        let refused = self.insert(value).err();
        (self, refused)
    }

    /// Does the same as `move_or_make`, and returns the set and the element that was not inserted, if any.
    #[inline(always)]
    fn put_or_make<F: FnOnce(&T) -> T>(&mut self, value: &T, f: F) -> (&mut Self, Option<T>)
    where
        T: Drop,
        F: Drop,
        requires { CanMakeAbsent T.eq F.FnOnce f self.old value.now }
        ensures same_set { result.0.ghost_name ≡ self.entry.ghost_name }
        ensures makes { LastOrRefused result.0.now (GetsOrMakes T.eq (FnOnceReturnsAt F.FnOnce f value.now)
            self.old result.0.now value.now) result.1 }
    {
        match move_or_make(&mut self.map, value, f) {
            Ok(()) => (self, None),
            Err((made, ())) => (self, Some(made)),
        }
    }

    /// Returns `refused` in `Err` if there is one, and otherwise `lent`.
    #[inline(always)]
    fn lent_or_refused(lent: Option<&T>, refused: Option<T>) -> Result<&T, T>
    where
        T: Drop,
        requires { refused ≡ None → IsSome lent }
        ensures lent { IfOk result (λ x. (refused ≡ None) × (option_copied lent.entry ≡ Some x.now)) }
        ensures refused { IfErr result (λ x. refused ≡ Some x) }
    {
        match refused {
            None => Ok(lent.unwrap()),
            Some(value) => Err(value),
        }
    }
}

/// Does the same as `get_or_insert_with`, on the map, and returns no reference. It searches once.
#[inline(always)]
fn move_or_make<T: Eq + Hash + Drop, S: BuildHasher, F: FnOnce(&T) -> T + Drop>(
    map: &mut LinkedHashMap<T, (), S>,
    value: &T,
    f: F,
) -> Result<(), (T, ())>
    requires { CanMakeAbsent T.eq F.FnOnce f (state_of map.old) value.now }
    ensures moved { OnOk result ((x : T) × (last_of (elements_of (state_of map.new)) ≡ Some x)
        × GetsOrMakes T.eq (FnOnceReturnsAt F.FnOnce f value.now) (state_of map.old) (state_of map.new)
        value.now (Ok x)) }
    ensures refused { IfErr result (λ pair. GetsOrMakes T.eq (FnOnceReturnsAt F.FnOnce f value.now)
        (state_of map.old) (state_of map.new) value.now (Err pair.0)) }
{
    match map.raw_entry_of(value) {
        RawEntryMut::Occupied(mut entry) => {
            entry.to_back();
            Ok(())
        }
        RawEntryMut::Vacant(entry) => {
            entry.insert_entry(f(value), ())?;
            Ok(())
        }
    }
}

/// Does the same as `replace`, on the map.
#[inline(always)]
fn replace_in_map<T: Eq + Hash, S: BuildHasher>(
    map: &mut LinkedHashMap<T, (), S>,
    value: T,
) -> Result<Option<T>, (T, ())>
    ensures replaced { IfOk result
        (λ was. SetReplaces T.eq (state_of map.old) (state_of map.new) value (Ok was)) }
    ensures refused { IfErr result (RefusesEntry T.eq (state_of map.old) (state_of map.new) value tt) }
    ensures distinct { IsDistinct T.eq (elements_of (state_of map.old)) }
{
    match map.entry(value) {
        Entry::Occupied(entry) => Ok(Some(entry.replace_key())),
        Entry::Vacant(entry) => {
            entry.insert(())?;
            Ok(None)
        }
    }
}
