//! Empty maps, for `mem::try_take` and for `or_default` of an entry whose value is a map.
ghost use Rattle.std.specs.Prelude.{◌≡◌, IfOk, OnErr};
ghost use Rattle.hashlink_core.specs.Keyed.{state_of};
ghost use Rattle.hashlink_model.specs.MapState.{empty_map};

use crate::map::LinkedHashMap;
use std::alloc::{AllocError, Global};
use std::default::{Emptied, MadeWith};
use std::hash::{BuildHasher, Hash};

/// Makes an empty map with the allocator of another and a clone of its hasher. Only this clone may allocate.
impl<K: Eq + Hash, V, S: BuildHasher + Clone> Emptied for LinkedHashMap<K, V, S> {
    ghost is_emptied = { λ m. state_of m ≡ empty_map m.hasher };

    fn emptied(like: &LinkedHashMap<K, V, S>) -> Result<LinkedHashMap<K, V, S>, AllocError>
        ensures empty { IfOk result (λ m. state_of m ≡ empty_map m.hasher) }
        ensures hasher { IfOk result (λ m. S.is_clone like.now.hasher m.hasher) }
        ensures refused { OnErr result (S.is_infallible like.now.hasher → ⊥) }
    {
        Ok(LinkedHashMap::with_hasher(like.allocator(), like.hasher().clone()?))
    }
}

/// Makes an empty map with the default hasher of its type. It does not allocate.
impl<K: Eq + Hash, V, S: BuildHasher + Default> MadeWith<Global> for LinkedHashMap<K, V, S> {
    ghost is_made_with = { λ m. (state_of m ≡ empty_map m.hasher) × S.is_default m.hasher };

    fn made_with(alloc: Global) -> LinkedHashMap<K, V, S> {
        LinkedHashMap::with_hasher(alloc, S::default())
    }
}
