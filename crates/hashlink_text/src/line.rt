ghost use Rattle.std.specs.Prelude.{◌≡◌, ℕ, List, [], ◌∷◌, codes, take, drop, IfOk, OnErr, OnSome};
ghost use Rattle.std.specs.{Map.lookup, Option.option_map, Str.bytes_eq};
ghost use Rattle.hashlink_text.specs.Reading.{by_name, cursor_read, cursor_step_spelled, entry_read};
ghost use Rattle.hashlink_text.specs.Spelling.{commands, cursor_steps, entry_steps, said, spelled};
ghost use Rattle.hashlink_text.specs.{Cuts.parts_left, Lines.words_of, Spelling.step_spelled, Tables.tokens};
ghost use Rattle.hashlink_text.specs.Reading.{line_read, numbers_after, read_in};

use crate::numbers::{Numbers, number, read_numbers};
use crate::tables::said_by;
use crate::words::{Words, is};
use hashlink_run::{Command, CursorStep, EntryStep};
use std::alloc::{AllocError, Global};

/// The meaning of a line of the text form.
#[derive(Drop)]
pub enum Line {
    /// A command to the map.
    Do(Command<u64, u64>),
    /// Asks for the list of all pairs.
    Iter,
}

impl Line {
    ghost use Rattle.hashlink_text.specs.Spelling.{Says};

    /// Returns the line whose spelling the text is, or `None` if the text is bad. It reads the text once.
    ///
    /// It allocates only for the steps of a cursor, in a line whose first word is `cursor`. If that
    /// allocation fails, it returns `AllocError`.
    pub fn parse(alloc: Global, text: &[u8]) -> Result<Option<Line>, AllocError>
        ensures said { IfOk result (λ line. Says spelled text.now (option_map said line)) }
        ensures refused { OnErr result ((words : List (List ℕ))
            × (words_of text.now ≡ codes "cursor" ∷ words)) }
    {
        line_of(alloc, text)
    }
}

// Returns the line of the text's words.
fn line_of(alloc: Global, text: &[u8]) -> Result<Option<Line>, AllocError>
    ensures said { IfOk result (λ line. option_map said line ≡ line_read (tokens (words_of text.now))) }
    ensures refused { OnErr result ((words : List (List ℕ))
        × (words_of text.now ≡ codes "cursor" ∷ words)) }
{
    let mut words = Words::new(text);
    let Some(name) = words.next() else {
        return Ok(None);
    };
    if is(name, b"entry") {
        Ok(said_of_entry(words))
    } else if is(name, b"cursor") {
        said_of_cursor(alloc, words)
    } else {
        Ok(said_of_name(name, words))
    }
}

// Returns the line that the name and the words after it mean.
fn said_of_name(name: &[u8], words: Words<'_>) -> Option<Line>
    ensures { option_map said result ≡ read_in spelled commands name.now
        (tokens (parts_left 32 words.entry.rest)) }
{
    match read_numbers(words)? {
        Numbers::Nothing => said_alone(name),
        Numbers::One(key) => said_of_key(name, key),
        Numbers::Two(key, value) => said_of_pair(name, key, value),
        Numbers::Three(..) => None,
    }
}

// Returns the line that the name means without a word after it.
fn said_alone(name: &[u8]) -> Option<Line>
    ensures { option_map said result ≡ lookup (bytes_eq name.now) (by_name spelled commands []) }
{
    if is(name, b"pop_front") {
        Some(Line::Do(Command::PopFront))
    } else if is(name, b"pop_back") {
        Some(Line::Do(Command::PopBack))
    } else if is(name, b"front") {
        Some(Line::Do(Command::Front))
    } else if is(name, b"back") {
        Some(Line::Do(Command::Back))
    } else if is(name, b"len") {
        Some(Line::Do(Command::Len))
    } else if is(name, b"clear") {
        Some(Line::Do(Command::Clear))
    } else if is(name, b"shrink") {
        Some(Line::Do(Command::Shrink))
    } else if is(name, b"keep") {
        Some(Line::Do(Command::Keep))
    } else if is(name, b"iter") {
        Some(Line::Iter)
    } else {
        None
    }
}

// Returns the line that the name means before one number.
fn said_of_key(name: &[u8], key: u64) -> Option<Line>
    ensures { option_map said result ≡ lookup (bytes_eq name.now) (by_name spelled commands (key ∷ [])) }
{
    if is(name, b"get") {
        Some(Line::Do(Command::Get(key)))
    } else if is(name, b"remove") {
        Some(Line::Do(Command::Remove(key)))
    } else if is(name, b"to_front") {
        Some(Line::Do(Command::ToFront(key)))
    } else if is(name, b"to_back") {
        Some(Line::Do(Command::ToBack(key)))
    } else {
        None
    }
}

// Returns the line that the name means before two numbers.
fn said_of_pair(name: &[u8], key: u64, value: u64) -> Option<Line>
    ensures { option_map said result
        ≡ lookup (bytes_eq name.now) (by_name spelled commands (key ∷ value ∷ [])) }
{
    if is(name, b"insert") {
        Some(Line::Do(Command::Insert(key, value)))
    } else if is(name, b"insert_front") {
        Some(Line::Do(Command::InsertFront(key, value)))
    } else if is(name, b"replace") {
        Some(Line::Do(Command::Replace(key, value)))
    } else {
        None
    }
}

// Returns the line that the words after `entry` mean: a key, a step at its place, and the value for it.
fn said_of_entry(mut words: Words<'_>) -> Option<Line>
    ensures { option_map said result ≡ entry_read (tokens (parts_left 32 words.entry.rest)) }
{
    let key = number(words.next()?)?;
    let name = words.next()?;
    let step = said_of_step(name, words)?;
    Some(Line::Do(Command::Entry(key, step)))
}

// Returns the step at a key's place that the name and the words after it mean.
fn said_of_step(name: &[u8], words: Words<'_>) -> Option<EntryStep<u64>>
    ensures { result ≡ read_in step_spelled entry_steps name.now (tokens (parts_left 32 words.entry.rest)) }
{
    match read_numbers(words)? {
        Numbers::Nothing => step_alone(name),
        Numbers::One(value) => step_of_value(name, value),
        Numbers::Two(..) | Numbers::Three(..) => None,
    }
}

// Returns the step that the name means without a word after it.
fn step_alone(name: &[u8]) -> Option<EntryStep<u64>>
    ensures { result ≡ lookup (bytes_eq name.now) (by_name step_spelled entry_steps []) }
{
    said_by(
        name,
        &[
            (b"get", EntryStep::Get),
            (b"to_front", EntryStep::ToFront),
            (b"to_back", EntryStep::ToBack),
            (b"remove", EntryStep::Remove),
        ],
    )
}

// Returns the step that the name means before a value.
fn step_of_value(name: &[u8], value: u64) -> Option<EntryStep<u64>>
    ensures { result ≡ lookup (bytes_eq name.now) (by_name step_spelled entry_steps (value ∷ [])) }
{
    said_by(
        name,
        &[
            (b"or_insert", EntryStep::OrInsert(value)),
            (b"insert", EntryStep::Insert(value)),
            (b"insert_entry", EntryStep::InsertEntry(value)),
            (b"replace_entry", EntryStep::ReplaceEntry(value)),
        ],
    )
}

// Returns the line that the words after `cursor` mean: one step or more.
fn said_of_cursor(alloc: Global, mut words: Words<'_>) -> Result<Option<Line>, AllocError>
    ensures { IfOk result (λ line. option_map said line
        ≡ cursor_read (tokens (parts_left 32 words.entry.rest))) }
{
    let mut steps = Vec::new(alloc);
    while let Some(name) = words.next() {
        let Some(step) = cursor_step(name, &mut words) else {
            return Ok(None);
        };
        steps.push(step)?;
    }
    if steps.is_empty() {
        return Ok(None);
    }
    Ok(Some(Line::Do(Command::Cursor(steps))))
}

// Returns the step of this name, and reads the numbers that follow it.
fn cursor_step(name: &[u8], words: &mut Words<'_>) -> Option<CursorStep<u64, u64>>
    ensures said { result ≡ read_in cursor_step_spelled cursor_steps name.now
        (take (numbers_after name.now) (tokens (parts_left 32 words.old.rest))) }
    ensures rest { OnSome result
        (tokens (parts_left 32 words.new.rest)
        ≡ drop (numbers_after name.now) (tokens (parts_left 32 words.old.rest))) }
{
    if is(name, b"before") || is(name, b"after") {
        let key = number(words.next()?)?;
        let value = number(words.next()?)?;
        cursor_step_of_pair(name, key, value)
    } else {
        cursor_step_alone(name)
    }
}

// Returns the step that the name means without a number after it.
fn cursor_step_alone(name: &[u8]) -> Option<CursorStep<u64, u64>>
    ensures { result ≡ lookup (bytes_eq name.now) (by_name cursor_step_spelled cursor_steps []) }
{
    said_by(
        name,
        &[
            (b"next", CursorStep::Next),
            (b"prev", CursorStep::Prev),
            (b"cur", CursorStep::Current),
            (b"peek_next", CursorStep::PeekNext),
            (b"peek_prev", CursorStep::PeekPrev),
        ],
    )
}

// Returns the step that the name means before a key and a value.
#[tactic(auto, using(std::proofs::Common::rules))]
fn cursor_step_of_pair(name: &[u8], key: u64, value: u64) -> Option<CursorStep<u64, u64>>
    ensures { result ≡ lookup (bytes_eq name.now)
        (by_name cursor_step_spelled cursor_steps (key ∷ value ∷ [])) }
{
    said_by(
        name,
        &[
            (b"before", CursorStep::Before(key, value)),
            (b"after", CursorStep::After(key, value)),
        ],
    )
}
