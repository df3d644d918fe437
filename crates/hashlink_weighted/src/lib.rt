//! `WeightedCache`: a map whose entries carry weights. It evicts the least recently used ones so that the
//! weights sum to at most a budget.
#![tactic(auto)]

mod cache;
mod debug;
mod error;
mod iter;
pub mod laws;

pub use cache::WeightedCache;
pub use error::WeightError;
pub use hashlink_map::{DefaultHashBuilder, DefaultHasher};
pub use iter::WeightedIter;
