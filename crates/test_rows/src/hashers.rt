//! How the keys of a row are hashed.
ghost use Rattle.hashlink_core.specs.Hashing.{finish, initial, write};
ghost use Rattle.test_rows.specs.OwnHashers.{hash_of};

use hashlink_map::{DefaultHashBuilder, DefaultHasher};
use std::hash::{BuildHasher, Hasher};

/// How a key is hashed: as by default, or so that many keys collide. A container that is made without a
/// hasher has the one by which all collide.
#[derive(Clone, Copy, Default, Drop)]
pub enum Hashing {
    /// As the default hasher does.
    Default,
    /// Every key has the hash 0.
    #[default]
    Same,
    /// The hash is the last bit of the default one.
    Two,
}

/// A hasher of one of the kinds.
#[derive(Clone, Copy, Drop)]
pub struct RowHasher {
    hashing: Hashing,
    default: DefaultHasher,
}

impl BuildHasher for Hashing {
    type Hasher = RowHasher;

    ghost build_hasher = { λ s. record { hashing = s; default = initial } };

    fn build_hasher(&self) -> RowHasher {
        RowHasher {
            hashing: *self,
            default: DefaultHashBuilder.build_hasher(),
        }
    }
}

impl Hasher for RowHasher {
    ghost write = { λ s bytes. record { hashing = s.hashing; default = write s.default bytes } };

    ghost finish = { λ s. hash_of s.hashing (finish s.default) };

    fn finish(&self) -> u64 {
        let hash = self.default.finish();
        match self.hashing {
            Hashing::Default => hash,
            Hashing::Same => 0,
            Hashing::Two => hash % 2,
        }
    }

    fn write(&mut self, bytes: &[u8]) {
        self.default.write(bytes);
    }
}
