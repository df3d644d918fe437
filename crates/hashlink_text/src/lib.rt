//! The text form in which a program reads commands to a container and writes the answers.
#![tactic(auto)]

mod cache_line;
mod cache_text;
mod cuts;
mod faults;
pub mod laws;
mod line;
mod lines;
mod map_text;
mod modes;
mod named;
mod numbers;
mod pair_line;
mod pair_text;
mod reading;
mod serving;
mod shown;
pub mod spelling_laws;
mod tables;
mod text;
mod weighted_line;
mod weighted_text;
mod words;

pub use cache_line::CacheLine;
pub use faults::Fault;
pub use line::Line;
pub use lines::Lines;
pub use modes::Mode;
pub use named::{Named, meaning_of};
pub use serving::serve;
pub use text::run_text;
pub use weighted_line::WeightedLine;
