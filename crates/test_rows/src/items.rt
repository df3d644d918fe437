//! The parts of rows of calls: items that are counted, the words of a line, and the words of an answer.

mod answers;
mod counts;
mod entry_call;
mod items;
mod keep;
mod line;
mod raw_call;
mod said;
mod steps;
mod walk;
mod words;

pub use answers::{
    Answer, Answers, Name, Named, Pair, Stop, Tally, Word, are_written, find, number,
};
pub use counts::{Counts, add};
pub use entry_call::{Add, Ask, EntryCall, Make, Put, Vacant};
pub use items::{Home, Item};
pub use keep::{Keep, has_room, is_even, is_other, is_raised, read_keep};
pub use line::{Line, Read, push, rest_of};
pub use raw_call::{By, RawAsk, RawCall};
pub use said::{Shown, made, no_memory, put, set, write, write_item, write_pair};
pub use steps::{Goes, Step};
pub use walk::{Exact, Walk, go, walk_and_clone, walk_and_forget, walk_whole};
pub use words::Words;
