//! Runs rows of calls on the containers, and checks each answer that a row has, and that no item is leaked.
//! `docs/dev/rows.md` describes how a row is written.
//!
//! Its arguments name the files, or a single row of a file by its number, such as `map.rows#3`. It ends with
//! status 1 if an answer was wrong or is not written, and prints for each wrong row the place and the answer;
//! also if no row was run. After the argument `--open` an answer need not be written. After `--say` neither,
//! and it prints each answer and the contents of the containers afterwards, which `tools/judge` compares with
//! the reference model.
#![tactic(auto)]

/// A `match` on a word, for at most twenty texts. The word is looked up first, since in a `match` on texts a
/// proof goes through several states for each text, each with all variables.
macro_rules! match_word {
    (@($word:expr, $other:expr) $left:tt ($(($n:literal, $text:literal, $then:expr))*)) => {
        match $crate::items::find(&[$(($text, $n)),*], $word) {
            $(Some($n) => $then,)*
            _ => $other,
        }
    };
    (@$ends:tt ($n:literal $($left:literal)*) ($($done:tt)*) ($text:literal, $then:expr) $($more:tt)*) => {
        match_word!(@$ends ($($left)*) ($($done)* ($n, $text, $then)) $($more)*)
    };
    ($word:expr, $($($text:literal)|+ => $then:expr,)* _ => $other:expr $(,)?) => {
        match_word!(
            @($word, $other) (0 1 2 3 4 5 6 7 8 9 10 11 12 13 14 15 16 17 18 19) () $($(($text, $then))+)*
        )
    };
}

mod calls;
mod copied;
mod hashers;
mod items;
mod lists;
mod row;
mod rows;
mod spoken;
mod texts;

use crate::hashers::Hashing;
use crate::items::{Answers, Counts, Home, Line, Stop, Tally, Words, number};
use row::Row;
use rows::run;
use spoken::{Voice, say_words};
use std::alloc::AllocError;
use std::io::ErrorKind;
use std::process::ExitCode;
use std::rc::Rc;
use std::{env, fs};

fn main(rt: HostRuntime) -> ExitCode {
    let mut tally = Tally::default();
    let Ok(mut words) = env::args(&rt) else {
        return ExitCode::SUCCESS;
    };
    let _program = words.next();
    let mut asked = Asked {
        is_said: false,
        is_open: false,
    };
    let mut are_right = true;
    for word in words {
        match word.as_str() {
            "--say" => asked.is_said = true,
            "--open" => asked.is_open = true,
            name => are_right = is_file_right(&rt, name, asked, &mut tally) && are_right,
        }
    }
    if !are_right {
        return ExitCode::FAILURE;
    }
    if tally.rows == 0 && tally.left_out == 0 {
        let _ = println!(rt; "no row is named");
        return ExitCode::FAILURE;
    }
    end(&rt, asked.is_said, tally);
    ExitCode::SUCCESS
}

/// Whether each answer is printed, and whether an answer need not be written.
#[derive(Clone, Copy)]
struct Asked {
    is_said: bool,
    is_open: bool,
}

/// Prints that each answer is right, and if each is printed or one refused, how many rows did so.
fn end(rt: &HostRuntime, is_said: bool, tally: Tally) {
    let (refused, left_out) = (tally.refused, tally.left_out);
    if is_said || refused > 0 || left_out > 0 {
        let rows = tally.rows;
        let _ = println!(rt;
            "{rows} rows: each answer is right, and {refused} of them refused; {left_out} rows had no memory \
             of their own"
        );
    } else {
        let _ = println!(rt; "each answer is right");
    }
}

/// Runs the rows of a file, or one of them, and prints what is wrong. A file for which there is no memory is
/// left out, and is not wrong.
fn is_file_right(rt: &HostRuntime, name: &str, asked: Asked, tally: &mut Tally) -> bool {
    let (name, only) = match name.split_once('#') {
        Some((name, place)) => (name, number(place)),
        None => (name, None),
    };
    let is_right = match fs::read_to_string(rt, name) {
        Ok(text) => is_text_right(rt, (name, only), text.as_str(), asked, tally),
        Err(error) if error.kind() == ErrorKind::OutOfMemory => Err(AllocError),
        Err(error) => {
            let _ = println!(rt; "{name}: {error}");
            Ok(false)
        }
    };
    if is_right.is_err() {
        tally.left_out = tally.left_out.saturating_add(1);
    }
    is_right.unwrap_or(true)
}

/// Runs the rows of a text, or the one of this number, with items that are counted.
fn is_text_right(
    rt: &HostRuntime,
    named: (&str, Option<u64>),
    text: &str,
    asked: Asked,
    tally: &mut Tally,
) -> Result<bool, AllocError> {
    let counts = Rc::new(rt.alloc(), Counts::new())?;
    is_counted_right(rt, named, text, asked, &counts, tally)
}

/// The same with these counts.
fn is_counted_right<'f>(
    rt: &'f HostRuntime,
    named: (&str, Option<u64>),
    text: &'f str,
    asked: Asked,
    counts: &'f Rc<Counts>,
    tally: &mut Tally,
) -> Result<bool, AllocError> {
    let alloc = rt.alloc();
    let voice: Voice<'f> = if asked.is_said { Some(rt) } else { None };
    let line = &mut Line {
        home: Home {
            alloc,
            counts,
            hashing: Hashing::Default,
        },
        voice,
        is_open: asked.is_said || asked.is_open,
        place: (0, ""),
        words: Words::new(""),
        answers: Answers::new(alloc, *tally)?,
    };
    let are_right = are_rows_right(rt, named, text, line);
    *tally = line.answers.tally;
    Ok(are_right)
}

/// Runs the rows of a text, or the one of this number, and prints what is wrong.
fn are_rows_right<'f>(
    rt: &HostRuntime,
    (name, only): (&str, Option<u64>),
    text: &'f str,
    line: &mut Line<'f>,
) -> bool {
    let mut text = text;
    let mut number = 1usize;
    let mut are_right = true;
    for count in 1..u64::MAX {
        let Some((row, rest, next)) = Row::next(text, number) else {
            break;
        };
        text = rest;
        number = next;
        if only.is_none() || only == Some(count) {
            are_right = is_row_right(rt, name, row, line) && are_right;
        }
    }
    are_right
}

fn is_row_right<'f>(rt: &HostRuntime, file: &str, row: Row<'f>, line: &mut Line<'f>) -> bool {
    line.answers.tally.rows = line.answers.tally.rows.saturating_add(1);
    match run(row, line) {
        Ok(()) => true,
        Err(stop) => {
            report(rt, file, row.name, stop, line);
            false
        }
    }
}

fn report(rt: &HostRuntime, file: &str, name: &str, stop: Stop, line: &Line<'_>) {
    if matches!(stop, Stop::Reply) {
        let _ = println!(rt; "{file}: {name}: a wrong answer");
        return;
    }
    let (number, text) = line.place;
    let _ = println!(rt; "{file}:{number}: {name}: {text}");
    match stop {
        Stop::Answer => {
            let _ = print!(rt; "  came ");
            say_words(rt, line.answers.words.as_slice());
        }
        Stop::Living => {
            let _ = println!(rt; "  other keys and values live then than those that are held");
        }
        _ => {
            let _ = println!(rt; "  this is no line of such a row");
        }
    }
}
