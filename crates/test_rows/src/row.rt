//! A row of a file.
use crate::items::Words;

/// A row of a file.
#[derive(Clone, Copy)]
pub struct Row<'f> {
    pub name: &'f str,
    pub mode: &'f str,
    pub lines: &'f str,
    /// The number of the row's first line.
    pub first: usize,
}

impl<'f> Row<'f> {
    /// The next row in the text, which begins with the line of this number, and the text after the row. Lines
    /// that begin with `#` are not part of it.
    pub fn next(text: &'f str, number: usize) -> Option<(Row<'f>, &'f str, usize)> {
        let mut text = text;
        let mut number = number;
        for _ in 0..text.len() {
            let (line, rest) = text.split_once('\n').unwrap_or((text, ""));
            if !line.is_empty() && !line.starts_with('#') {
                return Some(Row::read(text, number));
            }
            text = rest;
            number = number.saturating_add(1);
        }
        None
    }

    fn read(text: &'f str, number: usize) -> (Row<'f>, &'f str, usize) {
        let (body, after) = text.split_once("\n\n").unwrap_or((text, ""));
        let body = body.strip_suffix('\n').unwrap_or(body);
        let (name, rest) = body.split_once('\n').unwrap_or((body, ""));
        let (mode, lines) = rest.split_once('\n').unwrap_or((rest, ""));
        let first = number.saturating_add(2);
        let count = lines.split('\n').count();
        let row = Row {
            name,
            mode,
            lines,
            first,
        };
        (row, after, first.saturating_add(count).saturating_add(1))
    }
}

/// The calls of a line, and the answers that are written after them, if there are any.
pub fn cut(line: &str) -> (&str, Option<&str>) {
    match line.split_once(" -> ") {
        Some((call, wanted)) => (call, Some(wanted)),
        None => (line, None),
    }
}

/// The words of a line and, after `each FIRST LAST`, also the last number for which its calls are made.
pub fn words_of(call: &str) -> (Words<'_>, u64) {
    let mut words = Words::new(call);
    if !words.has("each") {
        return (words, 0);
    }
    words.n = words.number();
    let last = words.number();
    (words, last)
}
