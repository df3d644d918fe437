//! How often a container's hasher is cloned.
use crate::few::passes;
use hashlink::weighted::WeightedCache;
use hashlink::{DefaultHashBuilder, DefaultHasher, LinkedHashMap, LinkedHashSet, LruCache};
use std::alloc::{AllocError, Global};
use std::cell::Cell;
use std::default::Emptied;
use std::hash::BuildHasher;
use std::mem;
use std::process::ExitCode;
use std::rc::Rc;

/// A hasher that counts its clones.
#[derive(Drop)]
struct Counting {
    clones: Rc<Cell<u64>>,
}

impl BuildHasher for Counting {
    type Hasher = DefaultHasher;

    ghost use Rattle.hashlink_core.specs.Hashing.{initial};

    ghost build_hasher = { λ _. initial };

    fn build_hasher(&self) -> DefaultHasher {
        DefaultHashBuilder.build_hasher()
    }
}

impl Clone for Counting {
    fn clone(&self) -> Result<Counting, AllocError> {
        self.clones.set(self.clones.get().wrapping_add(1));
        Ok(Counting {
            clones: self.clones.clone()?,
        })
    }
}

/// A hasher whose clones `clones` counts from now on.
fn hasher_of(clones: &Rc<Cell<u64>>) -> Result<Counting, AllocError> {
    let clones = clones.clone()?;
    clones.set(0);
    Ok(Counting { clones })
}

/// Whether a container that is taken out clones its hasher once.
fn takes_by_one<C: Emptied + Drop>(mut container: C, clones: &Rc<Cell<u64>>) -> bool {
    let is_taken = mem::try_take(&mut container).is_ok();
    is_taken & (clones.get() == 1)
}

/// Whether a container that is cloned clones its hasher once.
fn clones_by_one<C: Clone + Drop>(container: C, clones: &Rc<Cell<u64>>) -> bool {
    let is_cloned = container.clone().is_ok();
    is_cloned & (clones.get() == 1)
}

type Map = LinkedHashMap<u64, u64, Counting>;

fn map_of(alloc: Global, clones: &Rc<Cell<u64>>) -> Result<Map, AllocError> {
    Ok(LinkedHashMap::with_hasher(alloc, hasher_of(clones)?))
}

fn set_of(
    alloc: Global,
    clones: &Rc<Cell<u64>>,
) -> Result<LinkedHashSet<u64, Counting>, AllocError> {
    Ok(LinkedHashSet::with_hasher(alloc, hasher_of(clones)?))
}

fn cache_of(
    alloc: Global,
    clones: &Rc<Cell<u64>>,
) -> Result<LruCache<u64, u64, Counting>, AllocError> {
    Ok(LruCache::with_hasher(alloc, 2, hasher_of(clones)?))
}

fn weighted_of(
    alloc: Global,
    clones: &Rc<Cell<u64>>,
) -> Result<WeightedCache<u64, u64, Counting>, AllocError> {
    Ok(WeightedCache::with_hasher(alloc, 9, hasher_of(clones)?))
}

fn all_take_by_one(alloc: Global, clones: &Rc<Cell<u64>>) -> Result<bool, AllocError> {
    Ok(
        takes_by_one(map_of(alloc, clones)?, clones)
            & takes_by_one(set_of(alloc, clones)?, clones)
            & takes_by_one(cache_of(alloc, clones)?, clones)
            & takes_by_one(weighted_of(alloc, clones)?, clones),
    )
}

fn all_clone_by_one(alloc: Global, clones: &Rc<Cell<u64>>) -> Result<bool, AllocError> {
    Ok(
        clones_by_one(map_of(alloc, clones)?, clones)
            & clones_by_one(set_of(alloc, clones)?, clones)
            & clones_by_one(cache_of(alloc, clones)?, clones),
    )
}

#[test]
fn a_container_clones_its_hasher_once(rt: HostRuntime) -> ExitCode {
    passes(match Rc::new(rt.alloc(), Cell::new(0u64)) {
        Ok(clones) => {
            (all_take_by_one(rt.alloc(), &clones) == Ok(true))
                & (all_clone_by_one(rt.alloc(), &clones) == Ok(true))
        }
        Err(_) => false,
    })
}
