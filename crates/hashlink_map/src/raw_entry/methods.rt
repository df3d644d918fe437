//! The methods of `RawEntryMut`.
ghost use Rattle.std.specs.Prelude.{◌≡◌, None, Some, IfOk, IfErr, OnErr, MatchOption};
ghost use Rattle.std.specs.Borrow.{sem, MutBor, Bor};
ghost use Rattle.hashlink_model.specs.Entries.{place_of};

use super::{RawEntryMut, RawOccupiedEntryMut};
use std::hash::{BuildHasher, Hash};

impl<'a, K: Eq + Hash, V, S: BuildHasher> RawEntryMut<'a, K, V, S> {
    ghost use Rattle.hashlink_map.specs.RawEntry.{raw_map, raw_state, raw_pair, raw_occupied_state};
    ghost use Rattle.hashlink_map.specs.RawEntry.{RawModifies};
    ghost use Rattle.hashlink_map.specs.RawLends.{HandsOnLast, LendsLastPair, StandsLast};

    /// Returns the entry of the pair. An occupied entry moves to the back. A vacant one inserts the given
    /// pair at the back.
    fn or_insert_entry(
        self,
        default_key: K,
        default_value: V,
    ) -> Result<RawOccupiedEntryMut<'a, K, V, S>, (K, V)>
    where
        K: Drop,
        V: Drop,
        requires absent { (raw_state self).place ≡ None
            → place_of (K.eq default_key) (raw_state self).map.entries ≡ None }
        ensures* hands_on { sem 𝓛 (HandsOnLast K.row V.row S.row S.Hasher.row self.entry result) }
        ensures last { IfOk result (λ o. StandsLast K.eq (raw_state self.entry)
            (λ pair. pair ≡ (default_key, default_value)) (raw_occupied_state o)) }
        ensures handed_back { IfErr result (λ pair. pair ≡ (default_key, default_value)) }
        ensures vacant { OnErr result ((raw_state self.entry).place ≡ None) }
    {
        let make = move || -> (K, V)
            ensures { result ≡ (default_key, default_value) }
        { (default_key, default_value) };
        self.or_insert_entry_with(make)
    }

    /// Returns the key and a mutable reference to the value. An occupied entry moves to the back. A vacant
    /// one inserts the given pair at the back, and its key then has to be absent. So the map ends as an
    /// `insert` of the written value leaves it. It hashes the key only if the entry is vacant, and then once.
    /// It stores at most six links if the entry is occupied and four if it is vacant.
    ///
    /// It allocates only if the entry is vacant and no node is free. A full table then grows first, in linear
    /// time in the new capacity. If an allocation fails, it returns the pair in `Err` and changes no entry;
    /// the room may have grown.
    pub fn or_insert(self, default_key: K, default_value: V) -> Result<(&'a K, &'a mut V), (K, V)>
    where
        K: Drop,
        V: Drop,
        requires absent { (raw_state self).place ≡ None
            → place_of (K.eq default_key) (raw_state self).map.entries ≡ None }
        ensures* lends { sem 𝓛 (LendsLastPair K.row V.row S.row S.Hasher.row self.entry result) }
        ensures pair { IfOk result (λ p. MatchOption (raw_pair (raw_state self.entry))
            ((p.0.now ≡ default_key) × (p.1.now ≡ default_value))
            (λ stood. (p.0.now ≡ stood.0) × (p.1.now ≡ stood.1))) }
        ensures handed_back { IfErr result (λ pair. pair ≡ (default_key, default_value)) }
        ensures vacant { OnErr result ((raw_state self.entry).place ≡ None) }
    {
        RawOccupiedEntryMut::pair_of(self.or_insert_entry(default_key, default_value))
    }

    /// Does the same as `or_insert_entry` with the pair that `default` returns. It calls `default` only if
    /// the entry is vacant.
    fn or_insert_entry_with<F: FnOnce() -> (K, V)>(
        self,
        default: F,
    ) -> Result<RawOccupiedEntryMut<'a, K, V, S>, (K, V)>
    where
        F: Drop,
        requires callable { (raw_state self).place ≡ None → F.pre default }
        requires absent { (raw_state self).place ≡ None
            → (pair : _) → F.post default pair → place_of (K.eq pair.0) (raw_state self).map.entries ≡ None }
        ensures* hands_on { sem 𝓛 (HandsOnLast K.row V.row S.row S.Hasher.row self.entry result) }
        ensures last { IfOk result (λ o. StandsLast K.eq (raw_state self.entry) (F.post default)
            (raw_occupied_state o)) }
        ensures handed_back { IfErr result (λ pair. F.post default pair) }
        ensures vacant { OnErr result ((raw_state self.entry).place ≡ None) }
    {
        match self {
            RawEntryMut::Occupied(entry) => {
                let RawOccupiedEntryMut { map, node, slot } = entry;
                map.move_to_back(node);
                Ok(RawOccupiedEntryMut { map, node, slot })
            }
            RawEntryMut::Vacant(entry) => {
                let (key, value) = default();
                entry.insert_entry(key, value)
            }
        }
    }

    /// Does the same as `or_insert` with the pair that `default` returns. It calls `default` only if the
    /// entry is vacant. `default` then has to be callable, and the key that it returns has to be absent. If
    /// an allocation fails, it returns the pair that was made in `Err` and changes no entry; the room may
    /// have grown.
    pub fn or_insert_with<F: FnOnce() -> (K, V)>(
        self,
        default: F,
    ) -> Result<(&'a K, &'a mut V), (K, V)>
    where
        F: Drop,
        requires callable { (raw_state self).place ≡ None → F.pre default }
        requires absent { (raw_state self).place ≡ None
            → (pair : _) → F.post default pair → place_of (K.eq pair.0) (raw_state self).map.entries ≡ None }
        ensures* lends { sem 𝓛 (LendsLastPair K.row V.row S.row S.Hasher.row self.entry result) }
        ensures pair { IfOk result (λ p. MatchOption (raw_pair (raw_state self.entry))
            (F.post default (p.0.now, p.1.now))
            (λ stood. (p.0.now ≡ stood.0) × (p.1.now ≡ stood.1))) }
        ensures handed_back { IfErr result (λ pair. F.post default pair) }
        ensures vacant { OnErr result ((raw_state self.entry).place ≡ None) }
    {
        RawOccupiedEntryMut::pair_of(self.or_insert_entry_with(default))
    }

    /// Calls `f` on the key and the value if the entry is occupied, and returns the entry. Nothing moves. `f`
    /// then has to be callable on both. Apart from `f`, the call hashes nothing and does not allocate.
    pub fn and_modify<F: FnOnce(&K, &mut V)>(self, f: F) -> Self
    where
        F: Drop,
        requires { (k : Bor _) → (p : MutBor _) → raw_pair (raw_state self) ≡ Some
            (k.now, p.now) → F.pre f k p }
        ensures same_map { (raw_map result).ghost_name ≡ (raw_map self.entry).ghost_name }
        ensures modifies { RawModifies F.FnOnce f (raw_state self.entry) (raw_state result) }
    {
        match self {
            RawEntryMut::Occupied(mut entry) => {
                let (key, value) = entry.get_key_value_mut();
                f(key, value);
                RawEntryMut::Occupied(entry)
            }
            RawEntryMut::Vacant(entry) => RawEntryMut::Vacant(entry),
        }
    }
}
