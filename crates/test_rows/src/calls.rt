//! The calls that the lines of rows make: of a map with its entries and cursors, of a set, of two maps or two
//! sets, of a cache, of a cache with a budget, and of a miss curve.

mod alike;
mod cache_calls;
mod cache_many;
mod compared;
mod curve_calls;
mod entries;
mod extended;
mod map_calls;
mod map_cursors;
mod map_many;
mod raw_entries;
mod set_calls;
mod set_many;
mod two_sets;
mod walks;
mod weighted_calls;

pub use cache_calls::Cache;
pub use compared::compare;
pub use curve_calls::Curve;
pub use extended::say_kept;
pub use map_calls::{Map, call_map};
pub use set_calls::{Set, call_set};
pub use two_sets::call_sets;
pub use weighted_calls::Weighted;
