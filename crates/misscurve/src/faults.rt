//! Why there is no output.
ghost use Rattle.std.specs.Prelude.{◌≡◌};
ghost use Rattle.misscurve.specs.declared.faults.Fault.TheVariants.{Memory};

use std::alloc::AllocError;
use std::fmt;
use std::io::{self, ErrorKind};

/// Why a trace was not answered.
#[derive(Clone, Copy)]
pub enum Fault {
    /// An option is unknown, or lacks its value.
    Options,
    /// There is no random number to seed the hasher. Nothing was written.
    Random,
    /// The trace could not be read to its end. Nothing was written.
    Reading,
    /// Memory ran out. Nothing was written.
    Memory,
    /// The answer could not be written. Part of it may have been.
    Writing,
}

impl Fault {
    /// Returns `Memory` if the error is that memory ran out, and else the other fault.
    pub fn of(error: io::Error, other: Fault) -> Fault {
        match error.kind() {
            ErrorKind::OutOfMemory => Fault::Memory,
            _ => other,
        }
    }

    /// Returns the exit status of the program: 2 if it was called wrongly, else 1.
    pub fn status(self) -> u8 {
        match self {
            Fault::Options => 2,
            _ => 1,
        }
    }
}

impl fmt::Display for Fault {
    fn fmt<W: fmt::Write>(&self, f: &mut fmt::Formatter<W>) -> fmt::Result {
        match self {
            Fault::Options => write!(
                f,
                "misscurve: an option is unknown or lacks its value, see misscurve --help"
            ),
            Fault::Random => write!(f, "misscurve: no random number"),
            Fault::Reading => write!(f, "misscurve: reading failed"),
            Fault::Memory => write!(f, "misscurve: no memory"),
            Fault::Writing => write!(f, "misscurve: writing failed"),
        }
    }
}

impl From<AllocError> for Fault {
    ghost from_gives = { λ _ fault. fault ≡ Memory };

    fn from(_e: AllocError) -> Fault {
        Fault::Memory
    }
}
