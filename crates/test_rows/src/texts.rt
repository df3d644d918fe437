//! Texts that are run.
use crate::hashers::Hashing;
use crate::items::{Line, Stop, push};
use crate::row::Row;
use crate::rows::begin;
use crate::spoken::Voice;
use hashlink::run::run_text;
use std::alloc::Global;
use std::str::from_utf8;

/// Runs the text of the row. The answer has to be the one that is written after the text and a line `=`, if
/// it has to be written and no allocation failed. Each line of the answer is printed.
pub fn run_as_text<'f>(row: Row<'f>, line: &mut Line<'f>) -> Result<(), Stop> {
    begin(row, Hashing::Default, line);
    let alloc = line.home.alloc;
    let (text, written) = cut_text(row.lines);
    let bytes = bytes_of(alloc, text)?;
    let Ok(answer) = run_text(alloc, bytes.as_slice()) else {
        line.refuse();
        return Ok(());
    };
    Stop::Reply.unless(
        is_answer_right(answer.as_slice(), written, line.voice)
            && (line.is_open || written.is_some()),
    )
}

/// The text of the lines, and the answer that is written after it, if there is one.
fn cut_text(lines: &str) -> (&str, Option<&str>) {
    match lines.split_once("\n=\n") {
        Some((text, written)) => (text, Some(written)),
        None => match lines.strip_suffix("\n=") {
            Some(text) => (text, Some("")),
            None => (lines, None),
        },
    }
}

/// Prints the lines of an answer, and returns whether it is the written one, if there is one. An answer that
/// reports a failed allocation is accepted too.
fn is_answer_right(answer: &[u8], written: Option<&str>, voice: Voice<'_>) -> bool {
    let Ok(answer) = from_utf8(answer) else {
        return false;
    };
    if !answer.is_empty() && !answer.ends_with('\n') {
        return false;
    }
    let answer = answer.strip_suffix('\n').unwrap_or(answer);
    say_lines(answer, voice);
    match written {
        Some(written) => answer == written || answer.contains("memory"),
        None => true,
    }
}

fn say_lines(answer: &str, voice: Voice<'_>) {
    if let Some(rt) = voice {
        for line in answer.split('\n') {
            let _ = println!(rt; "| {line}");
        }
    }
}

/// The bytes of a text, in which `\r` is byte 13, `\x` byte 255, and another `\` nothing, so a line of a
/// single `\` is empty.
fn bytes_of(alloc: Global, text: &str) -> Result<Vec<u8>, Stop> {
    let mut bytes = Vec::with_capacity(alloc, text.len())?;
    let mut is_escaped = false;
    for byte in text.as_bytes() {
        let meant = match *byte {
            b'\\' => None,
            b'r' if is_escaped => Some(b'\r'),
            b'x' if is_escaped => Some(255),
            byte => Some(byte),
        };
        is_escaped = *byte == b'\\';
        if let Some(meant) = meant {
            push(&mut bytes, meant)?;
        }
    }
    Ok(bytes)
}
