//! `MissCurve`: how often caches of every capacity miss, computed in one pass over the used keys.
#![tactic(auto)]

mod curve;
mod falls;
mod marks;
mod recency;

pub use curve::{MissCurve, miss_curve};
pub use falls::Falls;
