//! The error of a call that makes the value of an absent key.
use std::error::Error;
use std::fmt;

/// A call that makes the value of an absent key did not insert it. No entry has changed. The error contains
/// the given key, and either the closure's error or the value that was made.
#[derive(Clone, Copy, Debug, PartialEq, Eq, Hash, Drop)]
pub enum TryInsertError<K, V, E> {
    /// The closure that makes the value failed. Contains the given key and the closure's error.
    Make(K, E),
    /// The allocation of a node, or of a larger table, failed. Contains the given key and the value that was
    /// made.
    Memory((K, V)),
}

impl<K, V, E: fmt::Display> fmt::Display for TryInsertError<K, V, E> {
    ghost use Rattle.hashlink_map.specs.Refusals.{try_insert_shown};

    ghost output = { try_insert_shown E.output };

    fn fmt<W: fmt::Write>(&self, f: &mut fmt::Formatter<W>) -> fmt::Result {
        match self {
            TryInsertError::Make(_, error) => write!(f, "the value could not be made: {error}"),
            TryInsertError::Memory(_) => write!(f, "memory allocation failed"),
        }
    }
}

impl<K: fmt::Debug + Drop, V: fmt::Debug + Drop, E: fmt::Debug + fmt::Display + Drop> Error
    for TryInsertError<K, V, E> {}
