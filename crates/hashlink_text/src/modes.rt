ghost use Rattle.std.specs.{Prelude.{◌≡◌, [], ◌∷◌, refl}, Map.lookup, Str.bytes_eq};
ghost use Rattle.hashlink_text.specs.{Named.mode_named, Reading.by_name, Spelling.{mode_spelled, modes}};

use crate::named::Named;
use crate::numbers::Numbers;
use crate::tables::said_by;
use crate::words::is;

/// The container on which the lines after the first are run.
#[derive(Clone, Copy)]
pub enum Mode {
    /// A map of numbers.
    Map,
    /// A cache of this capacity.
    Cache(usize),
    /// Two caches of the given capacities, the smaller one first.
    Pair(usize, usize),
    /// A cache whose weights may sum to this budget.
    Weighted(u64),
}

impl Named for Mode {
    ghost spelled = { mode_spelled };

    ghost among = { modes };

    ghost named = { mode_named };

    fn meaning(name: &[u8], numbers: Numbers) -> Option<Mode> {
        match numbers {
            Numbers::Nothing => said_by(name, &[(b"map", Mode::Map)]),
            Numbers::One(number) => mode_of_number(name, number),
            Numbers::Two(small, large) => mode_of_two(name, small, large),
            Numbers::Three(..) => None,
        }
    }

    ghost three_at_most = { λ k v w n ns. refl };
}

// Returns the mode that the name means before a capacity or a budget.
fn mode_of_number(name: &[u8], number: u64) -> Option<Mode>
    ensures { result ≡ lookup (bytes_eq name.now) (by_name mode_spelled modes (number ∷ [])) }
{
    if is(name, b"cache") {
        Some(Mode::Cache(usize::try_from(number).ok()?))
    } else if is(name, b"weighted") {
        Some(Mode::Weighted(number))
    } else {
        None
    }
}

// Returns the mode that the name means before two capacities, of which the first may not be the larger one.
fn mode_of_two(name: &[u8], small: u64, large: u64) -> Option<Mode>
    ensures { result ≡ lookup (bytes_eq name.now) (by_name mode_spelled modes (small ∷ large ∷ [])) }
{
    if small > large {
        return None;
    }
    let small = usize::try_from(small).ok()?;
    let large = usize::try_from(large).ok()?;
    said_by(name, &[(b"pair", Mode::Pair(small, large))])
}
