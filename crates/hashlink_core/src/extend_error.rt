//! The error of an `extend`: how many items were inserted, and the one that was not.
use std::alloc::AllocError;
use std::error::Error;
use std::fmt;

/// An allocation for an item of an `extend` failed. The items before it stay inserted, this error contains
/// it, and no further item was read.
#[derive(Clone, Copy, Debug, PartialEq, Eq, Hash, Drop)]
pub struct ExtendError<K, V> {
    /// The number of items inserted, or `u64::MAX` if there were more.
    pub taken: u64,
    /// The pair that was not inserted.
    pub pair: (K, V),
}

impl<K, V> fmt::Display for ExtendError<K, V> {
    ghost use Rattle.std.specs.Prelude.{Some};
    ghost use Rattle.hashlink_core.specs.Refusals.{extend_shown};

    ghost output = { λ e. Some (extend_shown e) };

    fn fmt<W: fmt::Write>(&self, f: &mut fmt::Formatter<W>) -> fmt::Result {
        write!(f, "memory ran out after {} items", self.taken)
    }
}

impl<K: fmt::Debug + Drop, V: fmt::Debug + Drop> Error for ExtendError<K, V> {}

impl<K: Drop, V: Drop> From<ExtendError<K, V>> for AllocError {
    fn from(_refused: ExtendError<K, V>) -> AllocError {
        AllocError
    }
}
