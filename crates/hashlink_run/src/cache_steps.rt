//! One command to a cache.
ghost use Rattle.std.specs.{Prelude.{◌≡◌, [], ◌∷◌, Some}, Map.lookup_entry};
ghost use Rattle.hashlink_run.specs.declared.cache_commands.CacheCommand.TheVariants.{Use};
ghost use Rattle.hashlink_run.specs.{CacheStep.{CacheStep, ReadFromCache}, Reads.{CallableOn, ClosureSays}};
ghost use Rattle.hashlink_lru.specs.Cached.{entries_of, state_of};

use crate::{CacheCommand, EntryStep, Reply, insert_reply, reply_of_entry, said_of};
use hashlink_lru::LruCache;
use std::hash::{BuildHasher, Hash};

/// Runs the command on the cache and returns its reply. If the command reads a pair, the reply contains what
/// the closure returns for that pair, on which it has to be callable. It has the cost of the method that the
/// command names. If an insert fails to allocate, the reply is `Refused` with the pair, and no entry changes.
pub fn answer_cache<K, V, S, B, F>(
    cache: &mut LruCache<K, V, S>,
    command: CacheCommand<K, V>,
    says: &F,
) -> Reply<K, V, B>
where
    K: Eq + Hash + Drop,
    V: Drop,
    S: BuildHasher,
    F: Fn(&K, &V) -> B,
    requires says { CallableOn F.Fn says.now (ReadFromCache K.eq (state_of cache.old) command) }
    ensures { CacheStep K.eq (ClosureSays F.Fn says.now) (state_of cache.old) command (result ∷ [])
        (state_of cache.new) }
{
    match command {
        CacheCommand::Insert(key, value) => insert_reply(cache.insert(key, value)),
        CacheCommand::Use(key, value) => answer_use(cache, key, value, says),
        CacheCommand::Entry(key, step) => {
            cache.make_room();
            reply_of_entry(cache.map_mut(), key, step, says)
        }
        CacheCommand::Get(key) => reply_of_entry(cache.map_mut(), key, EntryStep::ToBack, says),
        CacheCommand::Peek(key) => Reply::Seen(said_of(cache.raw_entry().from_key(&key), says)),
        CacheCommand::Remove(key) => Reply::Value(cache.remove(&key)),
        CacheCommand::SetCapacity(capacity) => {
            cache.set_capacity(capacity);
            Reply::Done
        }
        CacheCommand::Clear => {
            cache.clear();
            Reply::Done
        }
        CacheCommand::RemoveLru => Reply::Pair(cache.remove_lru()),
    }
}

// Moves the key's pair to the back and returns what the closure returns for it, or inserts the pair if the
// key is absent, and then evicts as an insert does.
fn answer_use<K, V, S, B, F>(
    cache: &mut LruCache<K, V, S>,
    key: K,
    value: V,
    says: &F,
) -> Reply<K, V, B>
where
    K: Eq + Hash + Drop,
    V: Drop,
    S: BuildHasher,
    F: Fn(&K, &V) -> B,
    requires says { CallableOn F.Fn says.now
        (λ pair. lookup_entry (K.eq key) (entries_of cache.old) ≡ Some pair) }
    ensures { CacheStep K.eq (ClosureSays F.Fn says.now) (state_of cache.old) (Use key value) (result ∷ [])
        (state_of cache.new) }
{
    let before = cache.len();
    let reply = reply_of_entry(cache.map_mut(), key, EntryStep::OrInsert(value), says);
    if cache.len() > before {
        cache.set_capacity(cache.capacity());
    }
    reply
}
