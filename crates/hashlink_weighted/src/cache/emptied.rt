//! Empty caches in place of others, for `mem::try_take`.
ghost use Rattle.std.specs.Prelude.{◌≡◌, IfOk, OnErr};
ghost use Rattle.hashlink_model.specs.MapState.{empty_map};
ghost use Rattle.hashlink_weighted.specs.Weighed.{empty_weighted};

use super::WeightedCache;
use std::alloc::AllocError;
use std::default::Emptied;
use std::hash::{BuildHasher, Hash};

/// Makes an empty cache with the budget and the allocator of another and a clone of its hasher. It does not
/// allocate but for that clone. `mem::try_take` does not state which budget stays; this function does.
impl<K: Eq + Hash, V, S: BuildHasher + Clone> Emptied for WeightedCache<K, V, S> {
    ghost is_emptied = { λ c. c.map ≡ empty_map c.map.hasher };

    fn emptied(like: &WeightedCache<K, V, S>) -> Result<WeightedCache<K, V, S>, AllocError>
        ensures empty { IfOk result (λ c. c ≡ empty_weighted c.map.hasher like.now.budget) }
        ensures hasher { IfOk result (λ c. S.is_clone like.now.map.hasher c.map.hasher) }
        ensures refused { OnErr result (S.is_infallible like.now.map.hasher → ⊥) }
    {
        let hasher = like.map.hasher().clone()?;
        Ok(WeightedCache::with_hasher(like.map.allocator(), like.budget, hasher))
    }
}
