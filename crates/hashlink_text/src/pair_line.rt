ghost use Rattle.std.specs.{Prelude.{◌≡◌, [], ◌∷◌, refl}, Map.lookup, Str.bytes_eq};
ghost use Rattle.hashlink_text.specs.{Named.pair_named, Reading.by_name};
ghost use Rattle.hashlink_text.specs.Spelling.{pair_commands, pair_spelled};

use crate::named::Named;
use crate::numbers::Numbers;
use crate::tables::said_by;
use hashlink_run::PairCommand;

impl Named for PairCommand<u64, u64> {
    ghost spelled = { pair_spelled };

    ghost among = { pair_commands };

    ghost named = { pair_named };

    fn meaning(name: &[u8], numbers: Numbers) -> Option<PairCommand<u64, u64>> {
        match numbers {
            Numbers::One(key) => said_of_key(name, key),
            Numbers::Two(key, value) => said_of_pair(name, key, value),
            Numbers::Nothing | Numbers::Three(..) => None,
        }
    }

    ghost three_at_most = { λ k v w n ns. refl };
}

// Returns the command that the name means before a key.
fn said_of_key(name: &[u8], key: u64) -> Option<PairCommand<u64, u64>>
    ensures { result ≡ lookup (bytes_eq name.now) (by_name pair_spelled pair_commands (key ∷ [])) }
{
    said_by(
        name,
        &[
            (b"remove", PairCommand::Remove(key)),
            (b"peek", PairCommand::Peek(key)),
        ],
    )
}

// Returns the command that the name means before a key and a value.
fn said_of_pair(name: &[u8], key: u64, value: u64) -> Option<PairCommand<u64, u64>>
    ensures { result ≡ lookup (bytes_eq name.now) (by_name pair_spelled pair_commands (key ∷ value ∷ [])) }
{
    said_by(
        name,
        &[
            (b"insert", PairCommand::Insert(key, value)),
            (b"use", PairCommand::Use(key, value)),
        ],
    )
}
