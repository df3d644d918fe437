//! Empty sets that replace others: for `mem::try_take`, and for `or_default` of an entry whose value is a
//! set.
ghost use Rattle.std.specs.Prelude.{◌≡◌, IfOk, OnErr};
ghost use Rattle.hashlink_model.specs.MapState.{empty_map};

use crate::set::LinkedHashSet;
use std::alloc::{AllocError, Global};
use std::default::{Emptied, MadeWith};
use std::hash::{BuildHasher, Hash};

/// Makes an empty set with the allocator of another and a clone of its hasher. It allocates only for that
/// clone.
impl<T: Eq + Hash, S: BuildHasher + Clone> Emptied for LinkedHashSet<T, S> {
    ghost is_emptied = { λ s. s ≡ empty_map s.hasher };

    fn emptied(like: &LinkedHashSet<T, S>) -> Result<LinkedHashSet<T, S>, AllocError>
        ensures empty { IfOk result (λ s. s ≡ empty_map s.hasher) }
        ensures hasher { IfOk result (λ s. S.is_clone like.now.hasher s.hasher) }
        ensures refused { OnErr result (S.is_infallible like.now.hasher → ⊥) }
    {
        Ok(LinkedHashSet::with_hasher(like.alloc, like.hasher().clone()?))
    }
}

/// Makes an empty set with the default hasher of its type. It does not allocate.
impl<T: Eq + Hash, S: BuildHasher + Default> MadeWith<Global> for LinkedHashSet<T, S> {
    ghost is_made_with = { λ s. (s ≡ empty_map s.hasher) × S.is_default s.hasher };

    fn made_with(alloc: Global) -> LinkedHashSet<T, S> {
        LinkedHashSet::with_hasher(alloc, S::default())
    }
}
