ghost use Rattle.std.specs.Prelude.{◌≡◌};
ghost use Rattle.hashlink_text.specs.declared.faults.Fault.TheVariants.{Memory};

use std::alloc::AllocError;
use std::error::Error;
use std::fmt;

/// Why a text was not answered.
#[derive(Clone, Copy, Debug, PartialEq, Eq)]
pub enum Fault {
    /// The input could not be read to its end. Nothing was written.
    Reading,
    /// Memory for the input or for its answer ran out. Nothing was written.
    Memory,
    /// The answer could not be written. Part of it may have been.
    Writing,
}

impl fmt::Display for Fault {
    ghost use Rattle.std.specs.Prelude.{Some};
    ghost use Rattle.hashlink_text.specs.Faults.{fault_shown};

    ghost output = { λ fault. Some (fault_shown fault) };

    fn fmt<W: fmt::Write>(&self, f: &mut fmt::Formatter<W>) -> fmt::Result {
        match self {
            Fault::Reading => write!(f, "linkrun: reading failed"),
            Fault::Memory => write!(f, "linkrun: no memory"),
            Fault::Writing => write!(f, "linkrun: writing failed"),
        }
    }
}

impl Error for Fault {}

impl From<AllocError> for Fault {
    ghost from_gives = { λ _ fault. fault ≡ Memory };

    fn from(_e: AllocError) -> Fault {
        Fault::Memory
    }
}
