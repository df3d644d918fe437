//! The options of the program.

use crate::faults::Fault;

/// The form of the output.
#[derive(Clone, Copy, PartialEq, Eq)]
pub enum Form {
    /// A table with a line for each power of two and for each percent of misses.
    Table,
    /// A table with a line for each capacity at which the misses fall.
    WholeTable,
    /// A picture of the curve.
    Picture,
    /// The help text.
    Help,
}

/// The options of the program.
#[derive(Clone, Copy)]
pub struct Options {
    /// The form of the output.
    pub form: Form,
    /// The number of parts into which the keys are divided; one of them is read. With 1 all keys are read.
    pub parts: u64,
}

impl Options {
    /// Parses the arguments. If `--help` is among them, help is asked for, whatever the others are.
    pub fn parse(arguments: &[&str]) -> Result<Options, Fault> {
        let mut options = Options {
            form: Form::Table,
            parts: 1,
        };
        let mut wants_parts = false;
        let mut is_wrong = false;
        for word in arguments {
            let word = *word;
            if word == "--help" {
                options.form = Form::Help;
                return Ok(options);
            }
            if wants_parts {
                wants_parts = false;
                match parts_of(word) {
                    Some(parts) => options.parts = parts,
                    None => is_wrong = true,
                }
                continue;
            }
            match word {
                "--all" => options.form = Form::WholeTable,
                "--svg" => options.form = Form::Picture,
                "--sample" => wants_parts = true,
                _ => is_wrong = true,
            }
        }
        if is_wrong || wants_parts {
            return Err(Fault::Options);
        }
        Ok(options)
    }
}

/// Returns the N of `1/N`, which is at least 1.
fn parts_of(word: &str) -> Option<u64> {
    let number = word.strip_prefix("1/")?;
    match number.parse::<u64>() {
        Ok(0) | Err(_) => None,
        Ok(parts) => Some(parts),
    }
}
