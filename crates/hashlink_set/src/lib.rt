//! `LinkedHashSet`: a hash set that keeps its elements in an order which the caller controls, and set
//! algebra.
#![tactic(auto)]

mod algebra;
mod building;
mod compared;
mod debug;
mod drain;
mod emptied;
mod extend;
mod into_iter;
mod iter;
mod iterators;
mod set;
mod sifted;
mod symmetric_difference;
mod union;

pub use drain::Drain;
pub use hashlink_map::{
    DefaultHashBuilder, DefaultHasher, Equivalent, ExtendError, TryReserveError,
};
pub use into_iter::IntoIter;
pub use iter::Iter;
pub use set::LinkedHashSet;
pub use sifted::{Difference, Intersection};
pub use symmetric_difference::SymmetricDifference;
pub use union::Union;
