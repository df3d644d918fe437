//! Lists of commands, and what the caller knows about the container afterwards.
ghost use Rattle.std.specs.Prelude.{[], ◌∷◌, ◌≡◌, ◌≢◌, ◌≤◌, All, Option, Some, length, slice_get, IfOk};
ghost use Rattle.std.specs.{Prelude.IsSome, List.AllPass, Map.lookup};
ghost use Rattle.hashlink.specs.{Cache.IsWithin, CacheRun.names_no_entry, Cached.{entries_of, state_of}};
ghost use Rattle.hashlink.specs.Keyed as keyed;
ghost use Rattle.hashlink.specs.{Run.keeps_nodes, declared.run.Reply.TheVariants.Value};

use hashlink::run::{CacheCommand, Command, Reply, run, run_cache};
use hashlink::{AllocError, LinkedHashMap, LruCache};
use std::alloc::Global;
use std::hash::{BuildHasher, Hash};

// The closure for reads, which returns the same for every pair.
fn any<K, V>(_key: &K, _value: &V) -> bool {
    true
}

/// Runs the commands on the cache and returns how many entries it then has. They are never more than its
/// capacity, if there were no more before and no command goes through an entry.
pub fn length_after<K: Eq + Hash + Drop, V: Drop, S: BuildHasher>(
    cache: &mut LruCache<K, V, S>,
    commands: Vec<CacheCommand<K, V>>,
) -> Result<usize, AllocError>
    requires within { IsWithin (state_of cache.old) 0 }
    requires no_entries { AllPass names_no_entry commands.items }
    ensures length { IfOk result (λ n. n ≡ length (entries_of cache.new)) }
    ensures within { IfOk result (λ n. n ≤ (state_of cache.new).cap) }
{
    run_cache(cache, commands, &any)?;
    Ok(cache.len())
}

/// Runs the commands on the map, and inserts the pair if they left it shorter than it was. That insert does
/// not run out of memory: it uses the node of an entry that was removed.
pub fn insert_where_shorter<K: Eq + Hash + Drop, V: Drop, S: BuildHasher>(
    map: &mut LinkedHashMap<K, V, S>,
    commands: Vec<Command<K, V>>,
    key: K,
    value: V,
) -> Result<Option<V>, AllocError>
    requires { AllPass keeps_nodes commands.items }
{
    let before = map.len();
    run(map, commands, &any)?;
    if before <= map.len() {
        return Ok(None);
    }
    match map.insert(key, value) {
        Ok(old) => Ok(old),
        Err(_) => unreachable!(),
    }
}

// Returns a list of the two commands.
fn two_commands<K: Drop, V: Drop>(
    alloc: Global,
    first: Command<K, V>,
    second: Command<K, V>,
) -> Result<Vec<Command<K, V>>, AllocError>
    ensures { IfOk result (λ commands. commands.items ≡ first ∷ second ∷ []) }
{
    let mut commands = Vec::new(alloc);
    commands.push(first)?;
    commands.push(second)?;
    Ok(commands)
}

/// Removes a key and inserts a pair in one run, and returns the replies. If the key was present, the insert
/// uses the node that the removal left. So its reply is a value, and not the pair.
pub fn remove_then_insert<K: Eq + Hash + Drop, V: Drop, S: BuildHasher>(
    alloc: Global,
    map: &mut LinkedHashMap<K, V, S>,
    gone: K,
    key: K,
    value: V,
) -> Result<Vec<Reply<K, V>>, AllocError>
    ensures answered { IfOk result (λ replies. IsSome (lookup (K.eq gone) (keyed.entries_of map.old))
        → (was : Option V) × (slice_get replies.items 1 ≡ Some (Value was))) }
{
    let commands = two_commands(alloc, Command::Remove(gone), Command::Insert(key, value))?;
    run(map, commands, &any)
}

/// Inserts the pair and keeps the entries whose value divides `total`, in one run, and returns the replies.
/// The closure divides by the values that it is shown, which are those of the map and the inserted one; none
/// is zero.
pub fn insert_then_keep_divisors<K: Eq + Hash + Drop, S: BuildHasher>(
    alloc: Global,
    map: &mut LinkedHashMap<K, u64, S>,
    key: K,
    value: u64,
    total: u64,
) -> Result<Vec<Reply<K, u64>>, AllocError>
    requires given { value ≢ 0 }
    requires held { All (λ e. e.1 ≢ 0) (keyed.entries_of map.old) }
{
    let commands = two_commands(alloc, Command::Insert(key, value), Command::Keep)?;
    run(
        map,
        commands,
        &|_: &K, value: &u64|
            requires divides { value.now ≢ 0 }
        { total % *value == 0 },
    )
}
