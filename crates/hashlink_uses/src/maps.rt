//! Calls of a map, and what the caller knows about it afterwards.

pub mod cursors;
pub mod drains;
pub mod entries;
pub mod everyday;
pub mod extended;
pub mod indexed;
pub mod lent_values;
pub mod raw_entries;
pub mod retains;
pub mod writing_walks;
