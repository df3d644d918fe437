//! A list of commands with different keys that are equal, and how often a run calls its closure.
use crate::few::passes;
use crate::keys::{Numbered, key};
use hashlink::LinkedHashMap;
use hashlink::run::{Command, EntryStep, Reply, run};
use std::alloc::{AllocError, Global};
use std::cell::Cell;
use std::process::ExitCode;

type Replies = Vec<Reply<Numbered, u32>>;

/// The commands with one more.
fn and<T: Drop>(mut commands: Vec<T>, command: T) -> Vec<T> {
    let _pushed = commands.push(command);
    commands
}

/// Two inserts, with a cursor without steps between them, a read, and two steps of entries.
fn all_commands(alloc: Global) -> Vec<Command<Numbered, u32>> {
    let commands = and(Vec::new(alloc), Command::Insert(key(1, 1), 10));
    let commands = and(commands, Command::Cursor(Vec::new(alloc)));
    let commands = and(commands, Command::Insert(key(1, 2), 11));
    let commands = and(commands, Command::Get(key(1, 3)));
    let commands = and(commands, Command::Entry(key(1, 4), EntryStep::ReplaceKey));
    and(commands, Command::Entry(key(1, 5), EntryStep::RemoveEntry))
}

/// Whether the stored key of a pair that is read has the number 1.
fn is_first(key: &Numbered, _value: &u32) -> bool {
    key.number == 1
}

/// The replies of a run of all commands.
fn run_all(alloc: Global) -> Result<Replies, AllocError> {
    let mut map = LinkedHashMap::new(alloc);
    run(&mut map, all_commands(alloc), &is_first)
}

/// Whether the inserts keep the first key, and the cursor has no reply.
fn is_first_kept(replies: &[Reply<Numbered, u32>]) -> bool {
    matches!(
        replies,
        [
            Reply::Value(None),
            Reply::Value(Some(10)),
            Reply::Seen(Some(true))
        ]
    )
}

/// Whether the first key is replaced, and the key in its place is returned.
fn is_replaced(replies: &[Reply<Numbered, u32>]) -> bool {
    matches!(
        replies,
        [
            Reply::Key(Some(Numbered { number: 1, .. })),
            Reply::Pair(Some((Numbered { number: 4, .. }, 11)))
        ]
    )
}

/// Whether three replies and the replies after them are right.
fn are_right(replies: &[Reply<Numbered, u32>]) -> bool {
    match replies.split_at_checked(3) {
        Some((first, rest)) => is_first_kept(first) & is_replaced(rest),
        None => false,
    }
}

#[test]
fn a_run_keeps_the_stored_key_and_hands_it_out(rt: HostRuntime) -> ExitCode {
    passes(match run_all(rt.alloc()) {
        Ok(replies) => are_right(&replies),
        Err(_) => false,
    })
}

/// A value that counts how often a closure is called on its pair.
#[derive(Drop)]
struct Asked {
    times: Cell<u32>,
}

/// Keeps every pair, and counts the call on this one.
fn is_asked(_key: &u32, value: &Asked) -> bool {
    value.times.set(value.times.get().wrapping_add(1));
    true
}

/// An insert of a value on which no closure was called.
fn insert_unasked(key: u32) -> Command<u32, Asked> {
    let times = Cell::new(0u32);
    Command::Insert(key, Asked { times })
}

/// Inserts of two pairs, and commands that call the closure on the first pair five times and on the second
/// four times.
fn asking(alloc: Global) -> Vec<Command<u32, Asked>> {
    let commands = and(Vec::new(alloc), insert_unasked(1));
    let commands = and(commands, insert_unasked(2));
    let commands = and(commands, Command::Keep);
    let commands = and(commands, Command::Get(1));
    let commands = and(commands, Command::Get(2));
    let commands = and(commands, Command::ToFront(2));
    let commands = and(commands, Command::ToBack(1));
    let commands = and(commands, Command::Entry(1, EntryStep::Get));
    let commands = and(commands, Command::Front);
    and(commands, Command::Back)
}

/// Whether the closure was called this many times on the value of the key.
fn is_asked_so_often(map: &LinkedHashMap<u32, Asked>, key: u32, times: u32) -> bool {
    match map.get(&key) {
        Some(value) => value.times.get() == times,
        None => false,
    }
}

/// Whether a run calls its closure once on each pair that a command shows to it.
fn asks_once(alloc: Global, map: &mut LinkedHashMap<u32, Asked>) -> bool {
    let is_run = run(map, asking(alloc), &is_asked).is_ok();
    is_run & is_asked_so_often(map, 1, 5) & is_asked_so_often(map, 2, 4)
}

#[test]
fn a_run_asks_its_closure_once_for_each_pair_that_a_command_shows(rt: HostRuntime) -> ExitCode {
    passes(asks_once(rt.alloc(), &mut LinkedHashMap::new(rt.alloc())))
}
