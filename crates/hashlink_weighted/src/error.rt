//! Why a cache with a budget did not insert a pair.
ghost use Rattle.std.specs.Prelude.{◌≡◌};

use std::error::Error;
use std::fmt;

/// Why an insert failed, with the pair that it was given. No entry has changed.
#[derive(Clone, Debug, Drop, PartialEq, Eq)]
pub enum WeightError<K, V> {
    /// The weight is above the budget of the cache.
    TooHeavy((K, V)),
    /// The allocation of a node, or of a larger table, failed.
    Memory((K, V)),
}

impl<K, V> WeightError<K, V> {
    ghost use Rattle.hashlink_weighted.specs.Answers.{refused_pair};

    /// Returns the pair that the insert was given. It takes constant time.
    pub fn into_pair(self) -> (K, V)
        ensures { result ≡ refused_pair self }
    {
        match self {
            WeightError::TooHeavy(pair) => pair,
            WeightError::Memory(pair) => pair,
        }
    }
}

impl<K, V> fmt::Display for WeightError<K, V> {
    ghost use Rattle.std.specs.Prelude.{Some};
    ghost use Rattle.hashlink_weighted.specs.Answers.{refusal_shown};

    ghost output = { λ refusal. Some (refusal_shown refusal) };

    fn fmt<W: fmt::Write>(&self, f: &mut fmt::Formatter<W>) -> fmt::Result {
        match self {
            WeightError::TooHeavy(_) => write!(f, "the weight is above the budget"),
            WeightError::Memory(_) => write!(f, "memory allocation failed"),
        }
    }
}

impl<K: fmt::Debug + Drop, V: fmt::Debug + Drop> Error for WeightError<K, V> {}
