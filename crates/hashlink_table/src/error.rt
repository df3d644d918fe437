use std::error::Error;
use std::{alloc, fmt};

/// The error of `Table::reserve` and `Table::with_room`.
#[derive(Clone, Copy, Debug, PartialEq, Eq)]
pub enum TryReserveError {
    /// No table has that much room.
    CapacityOverflow,
    /// An allocation failed.
    AllocError,
}

impl From<alloc::AllocError> for TryReserveError {
    ghost use Rattle.std.specs.Prelude.{◌≡◌};
    ghost use Rattle.hashlink_table.specs.declared.error.TryReserveError.TheVariants.{AllocError};

    ghost from_gives = { λ _ error. error ≡ AllocError };

    fn from(_error: alloc::AllocError) -> Self {
        TryReserveError::AllocError
    }
}

impl fmt::Display for TryReserveError {
    ghost use Rattle.std.specs.Prelude.{Some};
    ghost use Rattle.hashlink_table.specs.Refusals.{refusal_shown};

    ghost output = { λ refusal. Some (refusal_shown refusal) };

    fn fmt<W: fmt::Write>(&self, f: &mut fmt::Formatter<W>) -> fmt::Result {
        match self {
            TryReserveError::CapacityOverflow => write!(f, "no table can have so much room"),
            TryReserveError::AllocError => write!(f, "memory allocation failed"),
        }
    }
}

impl Error for TryReserveError {}

impl From<TryReserveError> for alloc::AllocError {
    fn from(_refused: TryReserveError) -> alloc::AllocError {
        alloc::AllocError
    }
}
