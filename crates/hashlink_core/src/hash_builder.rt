//! The `BuildHasher` of the default hasher.
use crate::hasher::DefaultHasher;
use std::hash::{BuildHasher, FoldHasher};

/// Builds a `DefaultHasher` for each key, the same for every map.
#[derive(Clone, Copy, Debug, Default)]
pub struct DefaultHashBuilder;

impl BuildHasher for DefaultHashBuilder {
    type Hasher = DefaultHasher;

    ghost use Rattle.hashlink_core.specs.Hashing.{initial};

    ghost build_hasher = { λ _. initial };

    fn build_hasher(&self) -> DefaultHasher {
        DefaultHasher {
            fold: FoldHasher::default(),
        }
    }
}
