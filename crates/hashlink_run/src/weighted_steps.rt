//! One command to a cache with a budget.
ghost use Rattle.std.specs.{Prelude.{◌≡◌, [], ◌∷◌, Some, option_copied}, Option.option_map};
ghost use Rattle.hashlink_run.specs.Reads.{CallableOn, ClosureSays, SaysOf};
ghost use Rattle.hashlink_run.specs.WeightedStep.{ReadFromWeighted, WeightedStep, weighted_reply};

use crate::{Reply, WeightedCommand};
use hashlink_weighted::{WeightError, WeightedCache};
use std::hash::{BuildHasher, Hash};

/// Runs the command on the cache and returns its reply. If the command reads a value, the reply contains what
/// the closure returns for the command's key and that value, on which it has to be callable. It has the cost
/// of the method that the command names. If an insert is too heavy or fails to allocate, the reply is
/// `TooHeavy` or `Refused` with the pair, and no entry changes.
pub fn answer_weighted<K, V, S, B, F>(
    cache: &mut WeightedCache<K, V, S>,
    command: WeightedCommand<K, V>,
    says: &F,
) -> Reply<K, V, B>
where
    K: Eq + Hash + Drop,
    V: Drop,
    S: BuildHasher,
    F: Fn(&K, &V) -> B,
    requires { CallableOn F.Fn says.now (ReadFromWeighted K.eq cache.old command) }
    ensures { WeightedStep K.eq (ClosureSays F.Fn says.now) cache.old command (result ∷ []) cache.new }
{
    match command {
        WeightedCommand::Insert(key, value, weight) => {
            weighted_reply(cache.insert(key, value, weight))
        }
        WeightedCommand::Get(key) => Reply::Seen(said_of_value(&key, cache.get(&key), says)),
        WeightedCommand::Peek(key) => Reply::Seen(said_of_value(&key, cache.peek(&key), says)),
        WeightedCommand::Remove(key) => Reply::Value(cache.remove(&key)),
    }
}

// Returns the reply to an insert that returned `answer`.
fn weighted_reply<K, V, B>(answer: Result<Option<V>, WeightError<K, V>>) -> Reply<K, V, B>
    ensures { result ≡ weighted_reply answer }
{
    match answer {
        Ok(old) => Reply::Value(old),
        Err(WeightError::TooHeavy((key, value))) => Reply::TooHeavy(key, value),
        Err(WeightError::Memory((key, value))) => Reply::Refused(key, value),
    }
}

// Returns what the closure returns for the key and the value, if there is one.
fn said_of_value<K, V, B, F>(key: &K, value: Option<&V>, says: &F) -> Option<B>
where
    F: Fn(&K, &V) -> B,
    requires says { CallableOn F.Fn says.now
        (λ pair. option_map (λ v. (key.now, v)) (option_copied value) ≡ Some pair) }
    ensures { SaysOf (ClosureSays F.Fn says.now)
        (option_map (λ v. (key.now, v)) (option_copied value.entry)) result }
{
    let value = value?;
    Some(says(key, value))
}
