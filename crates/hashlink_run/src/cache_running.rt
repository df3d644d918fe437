//! Lists of commands to a cache.
ghost use Rattle.std.specs.Prelude.{◌≡◌, [], IfOk, IsOk, OnOk, OnErr};
ghost use Rattle.hashlink_lru.specs.Cached.{entries_of, state_of};
ghost use Rattle.hashlink_model.specs.Entries.{IsEntries};
ghost use Rattle.hashlink_run.specs.CacheRun.{LawfulCacheRun, ShownByCache, StaysBounded};
ghost use Rattle.hashlink_run.specs.Reads.{CallableOn, ClosureSays};

use crate::{CacheCommand, Reply, answer_cache};
use hashlink_lru::LruCache;
use std::alloc::AllocError;
use std::hash::{BuildHasher, Hash};

/// Runs the commands on the cache in order and returns the replies, one for each.
///
/// The reply to a command that reads a pair is what `keep` returns for that pair. `keep` has to be callable
/// on each pair that the commands may read. If an insert runs out of memory, its reply is `Refused` with the
/// pair, and the run continues. Each command has the cost of the cache's method that it names.
///
/// Room for all replies is reserved first, from the allocator of the cache. If memory for it runs out, it
/// returns `AllocError`, the commands are dropped and the cache has not changed. If there is no command, it
/// needs no memory.
pub fn run_cache<K, V, S, F>(
    cache: &mut LruCache<K, V, S>,
    commands: Vec<CacheCommand<K, V>>,
    keep: &F,
) -> Result<Vec<Reply<K, V>>, AllocError>
where
    K: Eq + Hash + Drop,
    V: Drop,
    S: BuildHasher,
    F: Fn(&K, &V) -> bool,
    requires { CallableOn F.Fn keep.now
        (ShownByCache K.eq (ClosureSays F.Fn keep.now) (state_of cache.old) commands.items) }

    // A chain of steps has the replies and leads to the state at the end. Along it the nodes stay within the
    // peak, and no command runs out of memory after an insert has evicted a pair. The length stays within a
    // bound by the capacity, and an insert that succeeds brings it within the capacity.
    ensures ran { IfOk result
        (λ replies. LawfulCacheRun K.eq (ClosureSays F.Fn keep.now) (state_of cache.old)
        commands.items replies.items
        (state_of cache.new)) }
    ensures unchanged { OnErr result (cache.new ≡ cache.old) }
    ensures none { commands.items ≡ [] → IsOk result }
    ensures bounded { OnOk result (StaysBounded (state_of cache.old) commands.items (state_of cache.new)) }
    ensures distinct { OnOk result (IsEntries K.eq (entries_of cache.new)) }
{
    let mut replies = Vec::with_capacity(cache.allocator(), commands.len())?;
    for command in commands {
        replies.push_reserved(answer_cache(cache, command, keep));
    }

    // The clauses of `len` state that no two keys are equal, here for this cache.
    cache.len();
    Ok(replies)
}
