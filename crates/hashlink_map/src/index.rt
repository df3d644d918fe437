//! `map[&key]`, for a key that is present.
ghost use Rattle.std.specs.{Prelude.{◌≡◌, Some}, Borrow.sem, Map.lookup};
ghost use Rattle.hashlink_core.specs.Keyed.{entries_of};
ghost use Rattle.hashlink_map.specs.Indexed.{HasKey, LendsIndexed};

use crate::map::LinkedHashMap;
use std::hash::{BuildHasher, Hash};
use std::ops::{Index, IndexMut};

/// Returns a reference to the value of the key, which has to be present: `contains_key` tells whether it is.
/// The order does not change. It costs a lookup.
impl<'q, K: Eq + Hash, V, S: BuildHasher> Index<&'q K> for LinkedHashMap<K, V, S> {
    type Output = V;

    ghost can_index = { λ m k. HasKey K.eq m k.now };

    ghost index_gives = { λ m k v. lookup (K.eq k.now) (entries_of m) ≡ Some v };

    #[inline(always)]
    fn index(&self, key: &'q K) -> &V {
        self.get(key).unwrap()
    }
}

/// Returns a mutable reference to the value of the key, which has to be present. The order does not change.
/// It costs a lookup.
impl<'q, K: Eq + Hash, V, S: BuildHasher> IndexMut<&'q K> for LinkedHashMap<K, V, S> {
    #[inline(always)]
    fn index_mut(&mut self, key: &'q K) -> &mut V
        requires { HasKey K.eq self.old key.now }
        ensures* lends { sem 𝓛 (LendsIndexed K.row V.row S.row S.Hasher.row K.Hash
            S.BuildHasher S.Hasher.Hasher self.entry key.now result) }
        ensures value { lookup (K.eq key.now) (entries_of self.old) ≡ Some result.now }
    {
        let hash = self.list.hash_of(key);
        let found = self.list.find(hash, key).unwrap();
        self.list.value_mut(found.node)
    }
}
