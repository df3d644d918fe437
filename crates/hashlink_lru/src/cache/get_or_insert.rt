//! Uses of a key that may be absent. A hit returns a reference to the value, as `get_mut` does; a miss makes
//! the value and inserts it.
ghost use Rattle.std.specs.{Prelude.{◌≡◌, None, Ok, OnOk, IfOk, IfErr}, Borrow.sem, Map.lookup};
ghost use Rattle.std.specs.Option.{option_copied_mut, option_map, UnwrapsOrElse};
ghost use Rattle.hashlink_model.specs.{Entries.IsEntries, Walk.last_of};
ghost use Rattle.hashlink_core.specs.Keyed as keyed;
ghost use Rattle.hashlink_map.specs.TryInsert.{FailsToInsert, HandsBack};
ghost use Rattle.hashlink_lru.specs.Cached.{MovesOrMakes, UpdatesUsed, entries_of, state_of};

use super::LruCache;
use hashlink_map::{LinkedHashMap, TryInsertError};
use std::hash::{BuildHasher, Hash};

impl<K: Eq + Hash, V, S: BuildHasher> LruCache<K, V, S> {
    ghost use Rattle.hashlink_lru.specs.Lends.{LendsLast, LendsUsedOrNew, LendsUsedOrTryNew};

    /// Returns a mutable reference to the value of the key. If the key is present, this is a hit of
    /// `get_mut`: its entry moves to the back, `make` is not called, and nothing is evicted. If the key is
    /// absent, `make` has to be callable and is called once, and the key is inserted at the back with the
    /// value that it returns. Then entries are evicted from the front until there are no more than the
    /// capacity.
    ///
    /// The value has to be in the cache while it is borrowed. So at capacity 0 the new pair stays as the only
    /// entry, one beyond the capacity, as after an insert through an entry. The next insert evicts it.
    ///
    /// It allocates only if the key is absent and no node is free. If the table is also full, it grows first,
    /// in linear time in the number of entries. If an allocation fails, it returns the key and the value that
    /// was made in `Err`, changes no entry and evicts nothing; the room may have grown.
    ///
    /// It hashes the key once. It stores at most six links if the key is present, four if it is absent, and
    /// three for each entry that it evicts.
    #[inline(always)]
    pub fn get_or_insert_with<F: FnOnce() -> V>(
        &mut self,
        key: K,
        make: F,
    ) -> Result<&mut V, (K, V)>
    where
        K: Drop,
        V: Drop,
        F: Drop,
        requires { lookup (K.eq key) (entries_of self.old) ≡ None → F.pre make }
        ensures* lends { sem 𝓛 (LendsUsedOrNew K.row V.row S.row S.Hasher.row K.Hash
            S.BuildHasher S.Hasher.Hasher self.entry key result) }
        ensures updates { IfOk result (λ _. UpdatesUsed K.eq (state_of self.old) key) }
        ensures value { IfOk result
            (λ v. UnwrapsOrElse (lookup (K.eq key) (entries_of self.old)) (F.post make) v.now) }
        ensures handed_back { IfErr result (λ pair. pair.0 ≡ key) }
        ensures made { IfErr result (λ pair. F.post make pair.1) }
    {
        let before = self.map.len();
        self.map.get_or_insert_with(key, make)?;
        // The entry that was just used is the last one.
        Ok(self.lend_last(before).unwrap())
    }

    /// Does the same as `get_or_insert_with`, with a `make` that may fail. `make` has to be callable if the
    /// key is absent. If it fails, its error is returned with the key, in `TryInsertError::Make`, and nothing
    /// changes.
    ///
    /// It allocates only if the key is absent and no node is free. If an allocation fails, it returns the key
    /// and the value that was made, in `TryInsertError::Memory`, changes no entry and evicts nothing; the
    /// room may have grown.
    pub fn get_or_try_insert_with<E, F: FnOnce() -> Result<V, E>>(
        &mut self,
        key: K,
        make: F,
    ) -> Result<&mut V, TryInsertError<K, V, E>>
    where
        K: Drop,
        V: Drop,
        F: Drop,
        requires { lookup (K.eq key) (entries_of self.old) ≡ None → F.pre make }
        ensures* lends { sem 𝓛 (LendsUsedOrTryNew K.row V.row S.row S.Hasher.row K.Hash
            S.BuildHasher S.Hasher.Hasher self.entry key result) }
        ensures updates { IfOk result (λ _. UpdatesUsed K.eq (state_of self.old) key) }
        ensures value { IfOk result
            (λ v. UnwrapsOrElse (lookup (K.eq key) (entries_of self.old)) (λ x. F.post make (Ok x)) v.now) }
        ensures handed_back { IfErr result (HandsBack (F.post make) key) }
    {
        let before = self.map.len();
        move_or_try_make(&mut self.map, key, make)?;
        // The entry that was just used is the last one.
        Ok(self.lend_last(before).unwrap())
    }

    /// If there are not `before` entries, evicts entries as `insert` does, but keeps at least one. Returns a
    /// mutable reference to the value of the entry at the back, or `None` if the cache is empty.
    #[inline]
    fn lend_last(&mut self, before: usize) -> Option<&mut V>
    where
        K: Drop,
        V: Drop,
        ensures* lends { sem 𝓛 (LendsLast K.row V.row S.row S.Hasher.row K.Hash
            S.BuildHasher S.Hasher.Hasher self.entry before result) }
        ensures value { option_copied_mut result ≡ option_map (λ e. e.1) (last_of (entries_of self.old)) }
    {
        if self.map.len() != before {
            self.keep_last(self.capacity.max(1));
        }
        self.map.back_value_mut()
    }
}

/// Moves the entry of the key to the back. If the key is absent, inserts it there with the value that `make`
/// returns, unless `make` fails. Hashes the key once.
fn move_or_try_make<
    K: Eq + Hash + Drop,
    V: Drop,
    S: BuildHasher,
    E,
    F: FnOnce() -> Result<V, E> + Drop,
>(map: &mut LinkedHashMap<K, V, S>, key: K, make: F) -> Result<(), TryInsertError<K, V, E>>
    requires callable { lookup (K.eq key) (keyed.entries_of map.old) ≡ None → F.pre make }
    ensures puts { OnOk result
        (MovesOrMakes K.eq (λ v. F.post make (Ok v)) (keyed.state_of map.old) (keyed.state_of map.new) key) }
    ensures failed { IfErr result (FailsToInsert K.eq (keyed.state_of map.old) (keyed.state_of map.new) key) }
    ensures handed_back { IfErr result (HandsBack (F.post make) key) }
    ensures distinct { IsEntries K.eq (keyed.entries_of map.old) }
{
    map.entry(key).or_try_insert_with(make)?;
    Ok(())
}
