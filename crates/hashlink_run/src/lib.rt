//! Single commands to a map and to each kind of cache; lists of commands to a map, to a cache and to two
//! caches; and what holds for every run.
#![tactic(auto)]

mod cache_commands;
mod cache_running;
mod cache_steps;
mod calls;
mod commands;
mod cursors;
mod entries;
pub mod laws;
mod replies;
mod running;
mod weighted_steps;

pub use cache_commands::{CacheCommand, PairCommand, WeightedCommand};
pub use cache_running::run_cache;
pub use cache_steps::answer_cache;
pub use calls::{Pair, Uses, answer_call, run_pair, run_uses};
pub use commands::{
    Command, CursorStep, EntryStep, answer_command, insert_reply, reply_count, said_of,
};
pub use entries::reply_of_entry;
pub use replies::Reply;
pub use running::run;
pub use weighted_steps::answer_weighted;
