//! Empty caches that replace others, for `mem::try_take`.
ghost use Rattle.std.specs.Prelude.{◌≡◌, IfOk, OnErr};
ghost use Rattle.hashlink_model.specs.MapState.{empty_map};
ghost use Rattle.hashlink_lru.specs.Cached.{empty_cache, state_of};

use crate::cache::LruCache;
use std::alloc::AllocError;
use std::default::Emptied;
use std::hash::{BuildHasher, Hash};

/// Makes an empty cache with the capacity and the allocator of another and a clone of its hasher. It
/// allocates only for that clone. `mem::try_take` does not state which capacity stays; this function does.
impl<K: Eq + Hash, V, S: BuildHasher + Clone> Emptied for LruCache<K, V, S> {
    ghost is_emptied = { λ c. (state_of c).map ≡ empty_map (state_of c).map.hasher };

    fn emptied(like: &LruCache<K, V, S>) -> Result<LruCache<K, V, S>, AllocError>
        ensures empty { IfOk result (λ c. state_of c
            ≡ empty_cache (state_of c).map.hasher (state_of like.now).cap) }
        ensures hasher { IfOk result
            (λ c. S.is_clone (state_of like.now).map.hasher (state_of c).map.hasher) }
        ensures refused { OnErr result (S.is_infallible (state_of like.now).map.hasher → ⊥) }
    {
        let hasher = like.hasher().clone()?;
        Ok(LruCache::with_hasher(like.allocator(), like.capacity(), hasher))
    }
}
