//! The program's arguments.
use std::alloc::{AllocError, Global};
use std::env::Args;

/// The program's arguments.
#[derive(Drop)]
pub(crate) struct Request {
    /// A kind of rows, the name of a row, or `all`.
    pub(crate) what: String,
    pub(crate) rounds: usize,
    pub(crate) sizes: Vec<usize>,
}

impl Request {
    /// Reads the arguments after the program's name, and returns `None` if they are wrong.
    pub(crate) fn read(alloc: Global, arguments: Args) -> Result<Option<Request>, AllocError> {
        let mut arguments = arguments;
        let _program = arguments.next();
        let Some(what) = arguments.next() else {
            return Ok(None);
        };
        let mut rounds = None;
        let mut sizes = Vec::new(alloc);
        for argument in arguments {
            let Ok(number) = argument.as_str().parse::<u32>() else {
                return Ok(None);
            };
            if rounds.is_none() {
                rounds = Some(number as usize);
            } else {
                sizes.push(number as usize)?;
            }
        }
        Ok(rounds.map(|rounds| Request {
            what,
            rounds,
            sizes,
        }))
    }
}
