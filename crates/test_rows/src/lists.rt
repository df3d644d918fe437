//! Lists of commands, in two runs, and lists of uses.
use crate::hashers::Hashing;
use crate::items::{Answer, Line, Name, Shown, Stop, Word, Words, are_written, number, push};
use crate::row::{Row, cut};
use crate::rows::begin;
use crate::spoken::{Stands, Voice, say_all, say_room, say_word, say_words};
use hashlink::run::{
    CacheCommand, Command, EntryStep, PairCommand, Reply, run, run_cache, run_pair, run_uses,
};
use hashlink::{LinkedHashMap, LruCache};
use hashlink_text::{CacheLine, Line as MapLine, meaning_of};
use std::alloc::{AllocError, Global};

type Map = LinkedHashMap<u64, u64, Hashing>;

type Cache = LruCache<u64, u64, Hashing>;

type Replies = Result<Vec<Reply<u64, u64>>, AllocError>;

/// A container that runs a list of commands.
pub trait Listed: Sized {
    type Command: Drop;

    /// The command that a line spells.
    fn command(alloc: Global, line: &str) -> Result<Self::Command, Stop>;

    /// Runs the commands. The closure of the run returns whether the value is even or, if `is_any`, true.
    /// This is the reply to a read, and whether a keep keeps the pair.
    fn replies(&mut self, commands: Vec<Self::Command>, is_any: bool) -> Replies;
}

impl Listed for Map {
    type Command = Command<u64, u64>;

    fn command(alloc: Global, line: &str) -> Result<Command<u64, u64>, Stop> {
        let mut words = Words::new(line);
        let (name, key) = (words.word(), words.number());
        match (name, words.rest) {
            ("remove_entry", "") => Ok(Command::RemoveEntry(key)),
            ("entry", "replace_key") => Ok(Command::Entry(key, EntryStep::ReplaceKey)),
            ("entry", "remove_entry") => Ok(Command::Entry(key, EntryStep::RemoveEntry)),
            _ => match MapLine::parse(alloc, line.as_bytes())? {
                Some(MapLine::Do(command)) => Ok(command),
                _ => Err(Stop::Unread),
            },
        }
    }

    fn replies(&mut self, commands: Vec<Command<u64, u64>>, is_any: bool) -> Replies {
        let says = |_key: &u64, value: &u64| is_any || *value % 2 == 0;
        run(self, commands, &says)
    }
}

impl Listed for Cache {
    type Command = CacheCommand<u64, u64>;

    fn command(alloc: Global, line: &str) -> Result<CacheCommand<u64, u64>, Stop> {
        if line.starts_with("entry ") {
            return match Map::command(alloc, line)? {
                Command::Entry(key, step) => Ok(CacheCommand::Entry(key, step)),
                _ => Err(Stop::Unread),
            };
        }
        match meaning_of(line.as_bytes()) {
            Some(CacheLine::Do(command)) => Ok(command),
            _ => Err(Stop::Unread),
        }
    }

    fn replies(&mut self, commands: Vec<CacheCommand<u64, u64>>, is_any: bool) -> Replies {
        let says = |_key: &u64, value: &u64| is_any || *value % 2 == 0;
        run_cache(self, commands, &says)
    }
}

/// The commands that the lines spell.
fn commands_of<C: Listed>(alloc: Global, lines: &[&str]) -> Result<Vec<C::Command>, Stop> {
    let mut commands = Vec::with_capacity(alloc, lines.len())?;
    for line in lines {
        push(&mut commands, C::command(alloc, cut(line).0)?)?;
    }
    Ok(commands)
}

fn word_of((key, value): (&u64, &u64)) -> Word {
    Word::pair((Name::of(*key), Name::of(*value)))
}

fn said(reply: Reply<u64, u64>) -> Answer {
    match reply {
        Reply::Done => Answer::Word(Word::Done),
        Reply::Denied => Answer::Word(Word::Memory),
        Reply::Value(Some(item)) | Reply::Key(Some(item)) => Answer::Word(Word::Item(item, 0)),
        Reply::Pair(Some((key, value))) => Answer::Word(word_of((&key, &value))),
        Reply::Seen(Some(is_even)) => Answer::Word(Word::Is(is_even)),
        Reply::Value(None) | Reply::Key(None) | Reply::Pair(None) | Reply::Seen(None) => {
            Answer::Word(Word::Nothing)
        }
        Reply::Length(length) => Answer::Word(Word::count(length)),
        Reply::Refused(key, value) | Reply::TooHeavy(key, value) => {
            Answer::Back(Word::Memory, word_of((&key, &value)))
        }
    }
}

/// Runs the lines on an empty container, whose capacity, if it has one, is the next word: in two halves, each
/// as one list, or after the word `whole` as one list with a closure that returns true for every pair.
pub fn run_list<C: Listed + Stands + Drop>(row: Row<'_>, line: &mut Line<'_>) -> Result<(), Stop> {
    let container = &mut C::make(line.home, line.words.capacity());
    let is_one = line.words.has("whole");
    let lines: Vec<&str> = row.lines.split('\n').collect(line.home.alloc)?;
    let (first, second) = lines.split_at(if is_one { 0 } else { lines.len() / 2 });
    if !is_one {
        run_part(container, first, false, line)?;
    }
    run_part(container, second, is_one, line)
}

fn run_part<C: Listed + Stands>(
    container: &mut C,
    lines: &[&str],
    is_any: bool,
    line: &mut Line<'_>,
) -> Result<(), Stop> {
    line.answers.words.clear();
    let commands = commands_of::<C>(line.home.alloc, lines)?;
    say_replies(container.replies(commands, is_any), line)?;
    if let Some(rt) = line.voice {
        container.stand(rt);
    }
    let replies = line.answers.words.as_slice();
    Stop::Reply.unless(
        line.answers.tally.refused > 0 || are_replies_written(lines, replies, line.is_open),
    )
}

/// Records and prints the replies of a run, or that there was no memory for it.
fn say_replies(replies: Replies, line: &mut Line<'_>) -> Result<(), Stop> {
    let Ok(replies) = replies else {
        line.refuse();
        return Ok(());
    };
    for reply in replies.iter() {
        line.give(said(*reply))?;
    }
    let _ = line.answers.count_refused();
    if let Some(rt) = line.voice {
        say_words(rt, line.answers.words.as_slice());
    }
    Ok(())
}

/// Whether the replies to the lines are the written ones.
fn are_replies_written(lines: &[&str], replies: &[Word], is_open: bool) -> bool {
    let mut place = 0usize;
    for line in lines {
        let (call, wanted) = cut(line);
        let next = place.saturating_add(count_replies(call));
        let came = replies.get(place..next).unwrap_or(&[]);
        if !is_reply_written(came, wanted, is_open) {
            return false;
        }
        place = next;
    }
    true
}

/// Whether the replies to a line are the written ones, if they have to be written.
fn is_reply_written(came: &[Word], wanted: Option<&str>, is_open: bool) -> bool {
    match wanted {
        Some(wanted) => are_written(came, wanted, 0),
        None => is_open || came.is_empty(),
    }
}

/// The number of replies to a line, which is one for each step of a cursor.
fn count_replies(call: &str) -> usize {
    match call.strip_prefix("cursor ") {
        Some(steps) => count_names(steps),
        None => 1,
    }
}

/// The number of words that are no numbers.
fn count_names(words: &str) -> usize {
    let mut count = 0usize;
    for word in words.split(' ') {
        if number(word).is_none() {
            count = count.saturating_add(1);
        }
    }
    count
}

/// Runs the lines on two caches, whose capacities are the next words. The answer to a line is what the
/// smaller finds and what the larger finds. The number of a key is that of its line, so the stored entries
/// show which of several equal keys was stored.
pub fn run_on_pair<'f>(row: Row<'f>, line: &mut Line<'f>) -> Result<(), Stop> {
    begin(row, Hashing::Default, line);
    let alloc = line.home.alloc;
    let (small, large) = (line.words.capacity(), line.words.capacity());
    let commands = commands_of_pair(alloc, row.lines)?;
    match run_pair(alloc, small.min(large), large, &commands) {
        Ok(pair) => {
            say_found(&pair.small, &pair.small_replies, line.voice);
            say_found(&pair.large, &pair.large_replies, line.voice);
            let found = (
                pair.small_replies.as_slice(),
                Some(pair.large_replies.as_slice()),
            );
            Stop::Reply.unless(is_found_written(row.lines, found, line.is_open))
        }
        Err(AllocError) => {
            line.refuse();
            Ok(())
        }
    }
}

/// The commands of the lines, for two caches.
fn commands_of_pair(alloc: Global, lines: &str) -> Result<Vec<PairCommand<Name, u64>>, Stop> {
    let mut commands = Vec::new(alloc);
    let mut number = 0u64;
    for line in lines.split('\n') {
        number = number.saturating_add(1);
        let command = meaning_of(cut(line).0.as_bytes()).ok_or(Stop::Unread)?;
        push(&mut commands, numbered(command, number))?;
    }
    Ok(commands)
}

/// The command with a key of this number.
fn numbered(command: PairCommand<u64, u64>, number: u64) -> PairCommand<Name, u64> {
    match command {
        PairCommand::Insert(group, value) => PairCommand::Insert(Name { group, number }, value),
        PairCommand::Use(group, value) => PairCommand::Use(Name { group, number }, value),
        PairCommand::Remove(group) => PairCommand::Remove(Name { group, number }),
        PairCommand::Peek(group) => PairCommand::Peek(Name { group, number }),
    }
}

/// Runs the lines, which are all uses, on a cache, with keys that are numbered in the same way.
pub fn run_as_uses<'f>(row: Row<'f>, line: &mut Line<'f>) -> Result<(), Stop> {
    begin(row, Hashing::Default, line);
    let alloc = line.home.alloc;
    let pairs = uses_of(alloc, row.lines)?;
    match run_uses(alloc, line.words.capacity(), &pairs) {
        Ok(uses) => {
            say_found(&uses.cache, &uses.replies, line.voice);
            Stop::Reply.unless(is_found_written(row.lines, (&uses.replies, None), line.is_open))
        }
        Err(AllocError) => {
            line.refuse();
            Ok(())
        }
    }
}

/// Whether one cache, and another if there are two, found at each line what is written after it.
fn is_found_written(
    lines: &str,
    (first, second): (&[Option<u64>], Option<&[Option<u64>]>),
    is_open: bool,
) -> bool {
    let mut place = 0usize;
    for line in lines.split('\n') {
        let one = word_at(first, place);
        let is_written = match second {
            Some(second) => is_reply_written(&[one, word_at(second, place)], cut(line).1, is_open),
            None => is_reply_written(&[one], cut(line).1, is_open),
        };
        if !is_written {
            return false;
        }
        place = place.saturating_add(1);
    }
    true
}

/// The word for what was found at a line.
fn word_at(found: &[Option<u64>], place: usize) -> Word {
    match found.get(place) {
        Some(value) => value.as_ref().shown(),
        None => Word::Wrong,
    }
}

/// The pairs that the lines use.
fn uses_of(alloc: Global, lines: &str) -> Result<Vec<(Name, u64)>, Stop> {
    let mut pairs = Vec::new(alloc);
    for command in commands_of_pair(alloc, lines)?.iter() {
        let PairCommand::Use(key, value) = command else {
            return Err(Stop::Unread);
        };
        push(&mut pairs, (*key, *value))?;
    }
    Ok(pairs)
}

/// Prints what a cache found, and its entries afterwards.
fn say_found(cache: &LruCache<Name, u64>, found: &[Option<u64>], voice: Voice<'_>) {
    if let Some(rt) = voice {
        let _ = print!(rt; "=");
        for value in found {
            say_word(rt, value.as_ref().shown());
        }
        let _ = println!(rt; "");
        say_room(rt, cache.len(), cache.capacity());
        say_all(rt, cache.iter());
    }
}
