ghost use Rattle.std.specs.{Prelude.{◌≡◌, [], ◌∷◌, refl}, Map.lookup, Str.bytes_eq};
ghost use Rattle.hashlink_text.specs.{Named.cache_named, Reading.by_name};
ghost use Rattle.hashlink_text.specs.Spelling.{cache_lines, cache_spelled};

use crate::named::Named;
use crate::numbers::Numbers;
use crate::tables::said_by;
use crate::words::is;
use hashlink_run::CacheCommand;

/// What a line to a cache means.
#[derive(Clone, Copy)]
pub enum CacheLine {
    /// A command to the cache.
    Do(CacheCommand<u64, u64>),
    /// Asks for the number of pairs.
    Len,
    /// Asks for the list of all pairs.
    Iter,
}

impl Named for CacheLine {
    ghost spelled = { cache_spelled };

    ghost among = { cache_lines };

    ghost named = { cache_named };

    fn meaning(name: &[u8], numbers: Numbers) -> Option<CacheLine> {
        match numbers {
            Numbers::Nothing => said_alone(name),
            Numbers::One(number) => said_of_number(name, number),
            Numbers::Two(key, value) => said_of_pair(name, key, value),
            Numbers::Three(..) => None,
        }
    }

    ghost three_at_most = { λ k v w n ns. refl };
}

// Returns the line that the name means without a word after it.
fn said_alone(name: &[u8]) -> Option<CacheLine>
    ensures { result ≡ lookup (bytes_eq name.now) (by_name cache_spelled cache_lines []) }
{
    said_by(
        name,
        &[
            (b"clear", CacheLine::Do(CacheCommand::Clear)),
            (b"remove_lru", CacheLine::Do(CacheCommand::RemoveLru)),
            (b"len", CacheLine::Len),
            (b"iter", CacheLine::Iter),
        ],
    )
}

// Returns the line that the name means before a capacity or a key.
fn said_of_number(name: &[u8], number: u64) -> Option<CacheLine>
    ensures { result ≡ lookup (bytes_eq name.now) (by_name cache_spelled cache_lines (number ∷ [])) }
{
    if is(name, b"set_capacity") {
        let capacity = usize::try_from(number).ok()?;
        return Some(CacheLine::Do(CacheCommand::SetCapacity(capacity)));
    }
    said_by(
        name,
        &[
            (b"get", CacheLine::Do(CacheCommand::Get(number))),
            (b"peek", CacheLine::Do(CacheCommand::Peek(number))),
            (b"remove", CacheLine::Do(CacheCommand::Remove(number))),
        ],
    )
}

// Returns the line that the name means before a key and a value.
fn said_of_pair(name: &[u8], key: u64, value: u64) -> Option<CacheLine>
    ensures { result ≡ lookup (bytes_eq name.now) (by_name cache_spelled cache_lines (key ∷ value ∷ [])) }
{
    said_by(
        name,
        &[
            (b"insert", CacheLine::Do(CacheCommand::Insert(key, value))),
            (b"use", CacheLine::Do(CacheCommand::Use(key, value))),
        ],
    )
}
