//! Keys and values that own memory and are counted.
ghost use Rattle.std.{specs.Prelude.{◌≡◌, ◌==◌, IfOk}, proofs.Common.rules};
ghost use Rattle.std.specs.Cmp.Rules.{comparing, hashing};
ghost use Rattle.std.specs.Hash as fed;

use crate::hashers::Hashing;
use crate::items::answers::{Name, Named};
use crate::items::counts::{Counts, add};
use std::alloc::{AllocError, Global};
use std::hash::{Hash, Hasher};
use std::rc::Rc;

/// What items and containers are made from: the allocator, the counts that all items share, whose shares tell
/// how many items live, and the hashing of the containers.
#[derive(Clone, Copy)]
pub struct Home<'h> {
    pub alloc: Global,
    pub counts: &'h Rc<Counts>,
    pub hashing: Hashing,
}

impl Home<'_> {
    /// How many items live, except for the forgotten ones.
    pub fn living(self) -> usize {
        Rc::strong_count(self.counts)
            .saturating_sub(1)
            .saturating_sub(self.counts.forgotten.get() as usize)
    }

    /// How many hashes and how many comparisons of items there were since the last call of this function.
    pub fn cost(self) -> (u64, u64) {
        let counts = self.counts;
        (counts.hashes.replace(0), counts.comparisons.replace(0))
    }

    /// How many clones of items there were since the last call of this function.
    pub fn clones(self) -> u64 {
        self.counts.clones.replace(0)
    }

    /// How many entries forgotten drains had not given, since the last call of this function.
    pub fn lost(self) -> u64 {
        self.counts.lost.replace(0)
    }
}

/// A key, an element or a value. It is compared and hashed only by its group, so its number shows which of
/// two equal items it is. It counts each hash, each comparison for equality and each clone.
#[derive(Drop)]
#[derive_where(PartialOrd, Ord)]
pub struct Item {
    pub group: u64,
    #[derive_where(skip(EqHashOrd))]
    number: Box<u64>,
    #[derive_where(skip(EqHashOrd))]
    counts: Rc<Counts>,
}

impl Item {
    pub fn new(home: Home<'_>, name: Name) -> Result<Item, AllocError>
        ensures { IfOk result (λ item. item.group ≡ name.group) }
    {
        Ok(Item {
            group: name.group,
            number: Box::new(home.alloc, name.number)?,
            counts: home.counts.clone()?,
        })
    }

    pub fn name(&self) -> Name
        ensures { result.group ≡ self.now.group }
    {
        Name {
            group: self.group,
            number: *self.number,
        }
    }
}

impl Named for Item {
    fn name(&self) -> Name {
        Item::name(self)
    }
}

impl Clone for Item {
    ghost is_clone = { λ item made. made.group ≡ item.group };

    fn clone(&self) -> Result<Item, AllocError> {
        add(&self.counts.clones, 1);
        Ok(Item {
            group: self.group,
            number: self.number.clone()?,
            counts: self.counts.clone()?,
        })
    }
}

impl PartialEq for Item {
    ghost eq = { λ a b. a.group == b.group };

    ghost laws = { Prim.search (comparing, rules) };

    fn eq(&self, other: &Item) -> bool {
        add(&self.counts.comparisons, 1);
        self.group == other.group
    }
}

impl Eq for Item {
    ghost laws = { Prim.search (comparing, rules) };
}

impl Hash for Item {
    ghost hash_input = { λ a. fed.u64 a.group };

    ghost respects_eq = { Prim.search (hashing, rules) };

    fn hash<H: Hasher>(&self, state: &mut H) {
        add(&self.counts.hashes, 1);
        self.group.hash(state);
    }
}
