//! Linked hash containers under hashlink's names: hash maps, sets and caches that keep their entries in an
//! order which the caller controls.
#![tactic(auto)]

/// The linked hash map.
pub mod linked_hash_map {
    pub use hashlink_map::{
        CursorMut, Drain, Entry, ExtendError, IntoIter, Iter, IterFrom, IterMut, Keys,
        LinkedHashMap, OccupiedEntry, RawEntryBuilder, RawEntryBuilderMut, RawEntryMut,
        RawOccupiedEntryMut, RawVacantEntryMut, TryInsertError, TryReserveError, VacantEntry,
        Values, ValuesMut,
    };
    pub use std::alloc::AllocError;
}

/// The linked hash set.
pub mod linked_hash_set {
    pub use hashlink_set::{
        Difference, Drain, Intersection, IntoIter, Iter, LinkedHashSet, SymmetricDifference, Union,
    };
}

/// The cache that holds up to a given number of entries.
pub mod lru_cache {
    pub use hashlink_lru::{
        Drain, Entry, ExtendError, IntoIter, Iter, IterMut, Keys, LruCache, OccupiedEntry,
        RawEntryBuilder, RawEntryBuilderMut, RawEntryMut, RawOccupiedEntryMut, RawVacantEntryMut,
        TryInsertError, VacantEntry, Values,
    };
}

/// Caches whose entries carry weights within a budget.
pub mod weighted {
    pub use hashlink_weighted::{WeightError, WeightedCache, WeightedIter};
}

/// How often a cache of each capacity misses, computed in one pass over the used keys.
pub mod miss_curve {
    pub use hashlink_curve::{Falls, MissCurve, miss_curve};
}

/// Lists of commands to the containers, and the text form in which a program reads commands and writes the
/// replies.
pub mod run {
    pub use hashlink_run::{
        CacheCommand, Command, CursorStep, EntryStep, Pair, PairCommand, Reply, Uses,
        WeightedCommand, answer_cache, answer_call, answer_command, answer_weighted, run,
        run_cache, run_pair, run_uses,
    };
    pub use hashlink_text::{Fault, run_text, serve};
}

pub use hashlink_lru::LruCache;
pub use hashlink_map::{
    DefaultHashBuilder, DefaultHasher, Equivalent, ExtendError, LinkedHashMap, TryInsertError,
    TryReserveError,
};
pub use hashlink_set::LinkedHashSet;
pub use std::alloc::AllocError;
