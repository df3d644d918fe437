ghost use Rattle.std.specs.{Prelude.{◌≡◌, [], ◌∷◌, refl}, Map.lookup, Str.bytes_eq};
ghost use Rattle.hashlink_text.specs.{Named.weighted_named, Reading.by_name};
ghost use Rattle.hashlink_text.specs.Spelling.{weighted_lines, weighted_spelled};

use crate::named::Named;
use crate::numbers::Numbers;
use crate::tables::said_by;
use hashlink_run::WeightedCommand;

/// The meaning of a line to a cache with a budget.
#[derive(Clone, Copy)]
pub enum WeightedLine {
    /// A command to the cache.
    Do(WeightedCommand<u64, u64>),
    /// Asks for the sum of the weights.
    Total,
    /// Asks for the number of pairs.
    Len,
    /// Asks for the list of all pairs.
    Iter,
}

impl Named for WeightedLine {
    ghost spelled = { weighted_spelled };

    ghost among = { weighted_lines };

    ghost named = { weighted_named };

    fn meaning(name: &[u8], numbers: Numbers) -> Option<WeightedLine> {
        match numbers {
            Numbers::Nothing => said_alone(name),
            Numbers::One(key) => said_of_key(name, key),
            Numbers::Two(..) => None,
            Numbers::Three(key, value, weight) => said_of_entry(name, key, value, weight),
        }
    }

    ghost three_at_most = { λ k v w n ns. refl };
}

// Returns the line that the name means without a word after it.
fn said_alone(name: &[u8]) -> Option<WeightedLine>
    ensures { result ≡ lookup (bytes_eq name.now) (by_name weighted_spelled weighted_lines []) }
{
    said_by(
        name,
        &[
            (b"total", WeightedLine::Total),
            (b"len", WeightedLine::Len),
            (b"iter", WeightedLine::Iter),
        ],
    )
}

// Returns the line that the name means before a key.
fn said_of_key(name: &[u8], key: u64) -> Option<WeightedLine>
    ensures { result ≡ lookup (bytes_eq name.now) (by_name weighted_spelled weighted_lines (key ∷ [])) }
{
    said_by(
        name,
        &[
            (b"get", WeightedLine::Do(WeightedCommand::Get(key))),
            (b"peek", WeightedLine::Do(WeightedCommand::Peek(key))),
            (b"remove", WeightedLine::Do(WeightedCommand::Remove(key))),
        ],
    )
}

// Returns the line that the name means before a key, a value and a weight.
fn said_of_entry(name: &[u8], key: u64, value: u64, weight: u64) -> Option<WeightedLine>
    ensures { result ≡ lookup (bytes_eq name.now)
        (by_name weighted_spelled weighted_lines (key ∷ value ∷ weight ∷ [])) }
{
    said_by(
        name,
        &[(
            b"insert",
            WeightedLine::Do(WeightedCommand::Insert(key, value, weight)),
        )],
    )
}
