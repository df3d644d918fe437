//! One command to a map, and how a map runs it.
ghost use Rattle.std.specs.Prelude.{◌≡◌, ◌+◌, ◌≤◌, ◌++◌, List, OnOk, OnErr, IsOk, Some};
ghost use Rattle.std.specs.{Prelude.{vec_len, vec_capacity}, Map.Iter.deref_pair};
ghost use Rattle.std.specs.Option.{option_map};
ghost use Rattle.hashlink_core.specs.Keyed.{entries_of, state_of};
ghost use Rattle.hashlink_model.specs.Steps.{Moves};
ghost use Rattle.hashlink_run.specs.{Keeps.{IsEntryOf, KeepsWhere}, CallReplies.{insert_reply, shrink_reply}};
ghost use Rattle.hashlink_run.specs.Reads.{CallableAt, CallableOn, ClosureSays, SaysOf};
ghost use Rattle.hashlink_run.specs.Step.{AskedBy, ReadBy, Step, reply_count};

use crate::Reply;
use crate::cursors::walk_cursor;
use crate::entries::reply_of_entry;
use hashlink_map::LinkedHashMap;
use std::alloc::AllocError;
use std::hash::{BuildHasher, Hash};

/// A call of a map, with its arguments.
#[derive(Clone, Debug, PartialEq, Eq, Drop)]
pub enum Command<K, V> {
    /// Inserts the pair at the back, with the given value.
    Insert(K, V),
    /// Inserts the pair at the front, with the given value.
    InsertFront(K, V),
    /// Sets the value of the key at its place, or inserts the pair at the back if the key is absent.
    Replace(K, V),
    /// Reads the key's pair.
    Get(K),
    /// Removes the key's pair, and returns its value.
    Remove(K),
    /// Removes the key's pair, and returns it.
    RemoveEntry(K),
    /// Removes the first pair.
    PopFront,
    /// Removes the last pair.
    PopBack,
    /// Moves the key's pair to the front, and reads it.
    ToFront(K),
    /// Moves the key's pair to the back, and reads it.
    ToBack(K),
    /// Reads the first pair.
    Front,
    /// Reads the last pair.
    Back,
    /// Returns the number of pairs.
    Len,
    /// Drops every pair and frees its node.
    Clear,
    /// Frees the memory that no pair needs.
    Shrink,
    /// Removes every pair for which the run's closure returns false. The others keep their values and their
    /// order.
    Keep,
    /// Looks the key up, and makes this step with the given key.
    Entry(K, EntryStep<V>),
    /// Sets a cursor on the first pair, or on the guard if there is none, and makes the given steps with it
    /// in order.
    Cursor(Vec<CursorStep<K, V>>),
}

/// A step at the place of a key, with the given key: at the key's pair, or for an absent key.
#[derive(Clone, Copy, Debug, PartialEq, Eq, Drop)]
pub enum EntryStep<V> {
    /// Reads the pair.
    Get,
    /// Moves the pair to the back and reads it, or inserts the given key with the value at the back.
    OrInsert(V),
    /// Sets the value of the pair and moves it to the back, or inserts the given key with the value at the
    /// back.
    Insert(V),
    /// Inserts the given key with the value at the back, in place of the pair if there is one.
    InsertEntry(V),
    /// Replaces the pair by the given key and the value, at its place.
    ReplaceEntry(V),
    /// Replaces the stored key by the given key.
    ReplaceKey,
    /// Moves the pair to the front, and reads it.
    ToFront,
    /// Moves the pair to the back, and reads it.
    ToBack,
    /// Removes the pair, and returns its value.
    Remove,
    /// Removes the pair.
    RemoveEntry,
}

/// A step of a cursor, which is on a pair, or on the guard between the last pair and the first.
#[derive(Clone, Copy, Debug, PartialEq, Eq, Drop)]
pub enum CursorStep<K, V> {
    /// Moves to the next place, and reads the pair there.
    Next,
    /// Moves to the previous place, and reads the pair there.
    Prev,
    /// Reads the pair at the cursor's place.
    Current,
    /// Reads the pair at the next place.
    PeekNext,
    /// Reads the pair at the previous place.
    PeekPrev,
    /// Inserts the pair directly before the cursor's place, with the given value.
    Before(K, V),
    /// Inserts the pair directly after the cursor's place, with the given value.
    After(K, V),
}

/// Runs the command on the map and pushes its replies. If the command reads a pair, the reply contains what
/// `says` returns for it. `keep` chooses the pairs that `Command::Keep` keeps. Each has to be callable on the
/// pairs that it may be shown. It has the cost of the method that the command names.
///
/// Room for all replies to the command is reserved first. If the vector of replies has no room for them and
/// cannot grow, it returns `AllocError`, the command is dropped, and neither the map nor the vector has
/// changed.
pub fn answer_command<K, V, S, B, F, G>(
    map: &mut LinkedHashMap<K, V, S>,
    command: Command<K, V>,
    says: &F,
    keep: &G,
    replies: &mut Vec<Reply<K, V, B>>,
) -> Result<(), AllocError>
where
    K: Eq + Hash + Drop,
    V: Drop,
    S: BuildHasher,
    F: Fn(&K, &V) -> B,
    G: Fn(&K, &V) -> bool,
    requires says { CallableOn F.Fn says.now
        (ReadBy K.eq (ClosureSays F.Fn says.now) (state_of map.old) command) }
    requires keep { CallableOn G.Fn keep.now (AskedBy (state_of map.old) command) }
    ensures answered { OnOk result ((more : List (Reply K V B))
        × Step K.eq (ClosureSays F.Fn says.now) (ClosureSays G.Fn keep.now) (state_of map.old) command more
        (state_of map.new)
        × (replies.new.items ≡ replies.old.items ++ more)) }
    ensures count { OnOk result (vec_len replies.new ≡ vec_len replies.old + reply_count command) }
    ensures unchanged { OnErr result ((map.new ≡ map.old) × (replies.new.items ≡ replies.old.items)
        × (vec_capacity replies.new ≡ vec_capacity replies.old)) }
    ensures room { vec_len replies.old + reply_count command ≤ vec_capacity replies.old → IsOk result }
    ensures capacity { vec_capacity replies.old ≤ vec_capacity replies.new }
{
    replies.reserve(reply_count(&command))?;
    answer_in_room(map, command, says, keep, replies);
    Ok(())
}

// Runs the command on the map and pushes its replies, for which there is room.
pub(crate) fn answer_in_room<K, V, S, B, F, G>(
    map: &mut LinkedHashMap<K, V, S>,
    command: Command<K, V>,
    says: &F,
    keep: &G,
    replies: &mut Vec<Reply<K, V, B>>,
)
where
    K: Eq + Hash + Drop,
    V: Drop,
    S: BuildHasher,
    F: Fn(&K, &V) -> B,
    G: Fn(&K, &V) -> bool,
    requires says { CallableOn F.Fn says.now
        (ReadBy K.eq (ClosureSays F.Fn says.now) (state_of map.old) command) }
    requires keep { CallableOn G.Fn keep.now (AskedBy (state_of map.old) command) }
    requires room { vec_len replies.old + reply_count command ≤ vec_capacity replies.old }
    ensures answered { (more : List (Reply K V B))
        × Step K.eq (ClosureSays F.Fn says.now) (ClosureSays G.Fn keep.now) (state_of map.old) command more
        (state_of map.new)
        × (replies.new.items ≡ replies.old.items ++ more) }
    ensures count { vec_len replies.new ≡ vec_len replies.old + reply_count command }
    ensures capacity { vec_capacity replies.new ≡ vec_capacity replies.old }
{
    let reply = match command {
        Command::Insert(key, value) => insert_reply(map.insert(key, value)),
        Command::InsertFront(key, value) => insert_reply(map.insert_front(key, value)),
        Command::Replace(key, value) => insert_reply(map.replace(key, value)),
        Command::Get(key) => Reply::Seen(said_of(map.get_key_value(&key), says)),
        Command::Remove(key) => Reply::Value(map.remove(&key)),
        Command::RemoveEntry(key) => Reply::Pair(map.remove_entry(&key)),
        Command::PopFront => Reply::Pair(map.pop_front()),
        Command::PopBack => Reply::Pair(map.pop_back()),
        Command::ToFront(key) => match map.to_front(&key) {
            Some(_value) => Reply::Seen(said_of(map.front(), says)),
            None => Reply::Seen(None),
        },
        Command::ToBack(key) => match map.to_back(&key) {
            Some(_value) => Reply::Seen(said_of(map.back(), says)),
            None => Reply::Seen(None),
        },
        Command::Front => Reply::Seen(said_of(map.front(), says)),
        Command::Back => Reply::Seen(said_of(map.back(), says)),
        Command::Len => Reply::Length(map.len()),
        Command::Clear => {
            map.clear();
            Reply::Done
        }
        Command::Shrink => shrink_reply(map.shrink_to_fit()),
        Command::Keep => {
            keep_where(map, keep);
            Reply::Done
        }
        Command::Entry(key, step) => reply_of_entry(map, key, step, says),
        Command::Cursor(steps) => return walk_cursor(map, steps, says, replies),
    };
    replies.push_reserved(reply);
}

/// Returns the number of replies to the command, in constant time: one, or one for each step of a cursor.
pub fn reply_count<K, V>(command: &Command<K, V>) -> usize
    ensures { result ≡ reply_count command.now }
{
    match command {
        Command::Cursor(steps) => steps.len(),
        _ => 1,
    }
}

// Removes the pairs for which the closure returns false.
pub(crate) fn keep_where<K, V, S, G>(map: &mut LinkedHashMap<K, V, S>, keep: &G)
where
    K: Eq + Hash + Drop,
    V: Drop,
    S: BuildHasher,
    G: Fn(&K, &V) -> bool,
    requires keep { CallableOn G.Fn keep.now (IsEntryOf (entries_of map.old)) }
    ensures { KeepsWhere (ClosureSays G.Fn keep.now) (state_of map.old) (state_of map.new) }
{
    map.retain(
        |key, value|
            requires callable { CallableAt G.Fn keep.now key.now value.old }
            ensures says { ClosureSays G.Fn keep.entry.now key.now value.old result }
            ensures unchanged { (value.new ≡ value.old) × (keep.exit ≡ keep.entry) }
        { keep(key, value) },
    );
}

/// Returns the reply to an insert that returned `answer`, in constant time.
pub fn insert_reply<K, V, B>(answer: Result<Option<V>, (K, V)>) -> Reply<K, V, B>
    ensures { result ≡ insert_reply answer }
{
    match answer {
        Ok(old) => Reply::Value(old),
        Err((key, value)) => Reply::Refused(key, value),
    }
}

// Returns the reply to a shrink that returned `answer`.
fn shrink_reply<K, V, B>(answer: Result<(), AllocError>) -> Reply<K, V, B>
    ensures { result ≡ shrink_reply answer }
{
    match answer {
        Ok(()) => Reply::Done,
        Err(AllocError) => Reply::Denied,
    }
}

/// Returns what the closure returns for the pair, if there is one. It calls the closure at most once. The
/// closure has to be callable on the pair.
pub fn said_of<K, V, B, F>(pair: Option<(&K, &V)>, says: &F) -> Option<B>
where
    F: Fn(&K, &V) -> B,
    requires says { CallableOn F.Fn says.now (λ read. option_map deref_pair pair ≡ Some read) }
    ensures { SaysOf (ClosureSays F.Fn says.now) (option_map deref_pair pair.entry) result }
{
    let (key, value) = pair?;
    Some(says(key, value))
}
