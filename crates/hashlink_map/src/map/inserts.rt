//! Inserts. Each of them hashes the key once, and looks it up as `get` does.
ghost use Rattle.std.specs.Prelude.{◌≡◌, [], ◌∷◌, ◌++◌, Option, None, Some, IfOk, IfErr, IsOk, IsSome};
ghost use Rattle.std.specs.{Prelude.{OnOk, length}, Borrow.sem, Map.lookup, Option.UnwrapsOrElse};
ghost use Rattle.hashlink_model.specs.{Entries.{IsEntries, place_or_end, put}, MapState.Inserts};
ghost use Rattle.hashlink_model.specs.{Lookups.{Updates, UpdatesLast}, Steps.Replaces};
ghost use Rattle.hashlink_core.specs.{Keyed.{state_of, entries_of}, Steps.KeepsPlace};
ghost use Rattle.hashlink_core.specs.Places.{Node, IsPlace, place_number};

use super::LinkedHashMap;
use hashlink_core::Node;
use std::hash::{BuildHasher, Hash};

impl<K: Eq + Hash, V, S: BuildHasher> LinkedHashMap<K, V, S> {
    ghost use Rattle.hashlink_map.specs.InsertLends.{LendsPutLast};

    /// Inserts the pair directly before the place, and returns the old value of the key if there was one. If
    /// the key is present, its entry keeps the stored key, takes the new value and moves directly before the
    /// place, unless the place is its own. Each place stays on its entry.
    // It is inlined, as a lookup is. Only the work for an absent key is a call.
    #[inline(always)]
    pub(crate) fn insert_at(
        &mut self,
        place: Option<Node>,
        key: K,
        value: V,
    ) -> Result<Option<V>, (K, V)>
    where
        K: Drop,
        requires within { IsPlace self.old.nodes place }
        ensures inserts { Inserts K.eq (state_of self.old) (state_of self.new) key value
            (place_number self.old.nodes place) result }
        ensures updates { OnOk result
            (Updates K.eq (entries_of self.old) (entries_of self.new) key (Some value)) }
        ensures keeps { (p : Option Node) → IsPlace self.old.nodes p → KeepsPlace K.eq self.old self.new p }
        ensures distinct { IsEntries K.eq (entries_of self.new) }
    {
        let hash = self.list.hash_of(&key);
        let Some(found) = self.list.find(hash, &key) else {
            self.list.insert_before(place, hash, key, value)?;
            return Ok(None);
        };
        let node = found.node;
        let old = self.list.replace_value(node, value);
        if self.list.is_at(node, place) {
            return Ok(Some(old));
        }
        self.list.move_before(node, place);
        Ok(Some(old))
    }

    /// Inserts the pair at the back, and returns the old value of the key if there was one. If the key is
    /// present, its entry keeps the stored key, takes the new value and moves to the back. It hashes the key
    /// once, and stores at most six links if the key is present and four if it is absent.
    ///
    /// It allocates only if the key is absent and no node is free. A full table then grows first, in linear
    /// time in the new capacity. If an allocation fails, it returns the pair in `Err` and changes no entry;
    /// the room may have grown.
    #[inline(always)]
    pub fn insert(&mut self, key: K, value: V) -> Result<Option<V>, (K, V)>
    where
        K: Drop,
        ensures inserts { Inserts K.eq (state_of self.old) (state_of self.new) key value
            (length (entries_of self.old)) result }
        ensures entries { OnOk result (entries_of self.new
            ≡ put K.eq (entries_of self.old) key value (length (entries_of self.old))) }
        ensures updates { OnOk result
            (Updates K.eq (entries_of self.old) (entries_of self.new) key (Some value)) }
        ensures added { lookup (K.eq key) (entries_of self.old) ≡ None
            → OnOk result (entries_of self.new ≡ entries_of self.old ++ (key, value) ∷ []) }
        ensures old { IfOk result (λ old. old ≡ lookup (K.eq key) (entries_of self.old)) }
        ensures there { IsSome (lookup (K.eq key) (entries_of self.old)) → IsOk result }
        ensures distinct { IsEntries K.eq (entries_of self.new) }
    {
        self.insert_at(None, key, value)
    }

    /// Inserts the pair at the front, and returns the old value of the key if there was one. If the key is
    /// present, its entry keeps the stored key, takes the new value and moves to the front. It hashes the key
    /// once, and stores at most six links if the key is present and four if it is absent.
    ///
    /// It allocates only if the key is absent and no node is free. A full table then grows first, in linear
    /// time in the new capacity. If an allocation fails, it returns the pair in `Err` and changes no entry;
    /// the room may have grown.
    #[inline(always)]
    pub fn insert_front(&mut self, key: K, value: V) -> Result<Option<V>, (K, V)>
    where
        K: Drop,
        ensures inserts { Inserts K.eq (state_of self.old) (state_of self.new) key value 0 result }
        ensures entries { OnOk result (entries_of self.new
            ≡ put K.eq (entries_of self.old) key value 0) }
        ensures updates { OnOk result
            (Updates K.eq (entries_of self.old) (entries_of self.new) key (Some value)) }
        ensures old { IfOk result (λ old. old ≡ lookup (K.eq key) (entries_of self.old)) }
        ensures there { IsSome (lookup (K.eq key) (entries_of self.old)) → IsOk result }
        ensures distinct { IsEntries K.eq (entries_of self.new) }
    {
        let first = self.list.front();
        self.insert_at(first, key, value)
    }

    /// Sets the value of the key, and returns the old one if there was one. If the key is present, its entry
    /// keeps the stored key and its place. If it is absent, the pair is inserted at the back. It hashes the
    /// key once, and stores no link if the key is present and at most four if it is absent.
    ///
    /// It allocates only if the key is absent and no node is free. A full table then grows first, in linear
    /// time in the new capacity. If an allocation fails, it returns the pair in `Err` and changes no entry;
    /// the room may have grown.
    #[inline(always)]
    pub fn replace(&mut self, key: K, value: V) -> Result<Option<V>, (K, V)>
    where
        K: Drop,
        ensures replaces { Replaces K.eq (state_of self.old) (state_of self.new) key value result }
        ensures entries { OnOk result (entries_of self.new
            ≡ put K.eq (entries_of self.old) key value (place_or_end K.eq (entries_of self.old) key)) }
        ensures updates { OnOk result
            (Updates K.eq (entries_of self.old) (entries_of self.new) key (Some value)) }
        ensures old { IfOk result (λ old. old ≡ lookup (K.eq key) (entries_of self.old)) }
        ensures there { IsSome (lookup (K.eq key) (entries_of self.old)) → IsOk result }
        ensures distinct { IsEntries K.eq (entries_of self.new) }
    {
        let hash = self.list.hash_of(&key);
        if let Some(found) = self.list.find(hash, &key) {
            return Ok(Some(self.list.replace_value(found.node, value)));
        }
        self.list.insert_before(None, hash, key, value)?;
        Ok(None)
    }

    /// Returns a mutable reference to the value of the key. If the key is present, its entry moves to the
    /// back and `make` is not called. If it is absent, `make` has to be callable and is called once, and the
    /// key is inserted at the back with what it returns. It hashes the key once, and stores at most six links
    /// if the key is present and four if it is absent.
    ///
    /// It allocates only if the key is absent and no node is free. A full table then grows first, in linear
    /// time in the new capacity. If an allocation fails, it returns the key and the value that was made in
    /// `Err` and changes no entry; the room may have grown.
    #[inline(always)]
    pub fn get_or_insert_with<F: FnOnce() -> V>(
        &mut self,
        key: K,
        make: F,
    ) -> Result<&mut V, (K, V)>
    where
        K: Drop,
        F: Drop,
        requires { lookup (K.eq key) (entries_of self.old) ≡ None → F.pre make }
        ensures* lends { sem 𝓛 (LendsPutLast K.row V.row S.row S.Hasher.row K.Hash
            S.BuildHasher S.Hasher.Hasher self.entry key result) }
        ensures updates { IfOk result (λ _. UpdatesLast K.eq (entries_of self.old) key) }
        ensures value { IfOk result
            (λ v. UnwrapsOrElse (lookup (K.eq key) (entries_of self.old)) (F.post make) v.now) }
        ensures handed_back { IfErr result (λ pair. pair.0 ≡ key) }
        ensures made { IfErr result (λ pair. F.post make pair.1) }
    {
        let hash = self.list.hash_of(&key);
        match self.list.find(hash, &key) {
            Some(found) => {
                self.move_to_back(found.node);
                Ok(self.value_at_mut(found.node))
            }
            None => {
                let node = self.push_back(hash, key, make())?;
                Ok(self.value_at_mut(node))
            }
        }
    }
}
