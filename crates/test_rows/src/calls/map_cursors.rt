//! Lines that call a cursor.
use crate::calls::map_calls::Map;
use crate::hashers::Hashing;
use crate::items::{Answer, Item, Line, Shown, Stop, Word, put, write, write_pair};
use hashlink_map::CursorMut;

type Cursor<'m> = CursorMut<'m, Item, Item, Hashing>;

/// Whether a cursor starts at the front.
const ENDS: [(&str, bool); 2] = [("front", true), ("back", false)];

/// Steps of a cursor that starts at an end, and the call after them, if there is one: the cursor becomes its
/// entry, which is recorded; it lends its entry, which is removed; or it becomes its entry, which is removed.
pub fn call_cursor(map: &mut Map, line: &mut Line<'_>) -> Result<(), Stop> {
    let is_front = line.words.named(&ENDS)?;
    let mut cursor = cursor_at(map, is_front);
    let last = take_steps(&mut cursor, line)?;
    line.give(match_word!(last,
        "entry" => match cursor.current_entry() {
            Ok(entry) => Answer::Word(entry.get_key_value().shown()),
            Err(cursor) => Answer::Around(around(&cursor)),
        },
        "take_entry" => match cursor.current_entry() {
            Ok(entry) => Answer::Word(entry.remove_entry().shown()),
            Err(_guard) => Answer::Word(Word::Nothing),
        },
        "take_into_entry" => match cursor.into_entry() {
            Some(entry) => Answer::Word(entry.remove_entry().shown()),
            None => Answer::Word(Word::Nothing),
        },
        _ => Answer::Silent,
    ))
}

fn cursor_at<'m>(map: &'m mut Map, is_front: bool) -> Cursor<'m> {
    if is_front {
        map.cursor_front_mut()
    } else {
        map.cursor_back_mut()
    }
}

/// Makes the steps, after which the cursor is dropped.
pub fn take_all_steps(cursor: &mut Cursor<'_>, line: &mut Line<'_>) -> Result<(), Stop> {
    match take_steps(cursor, line)? {
        "" => Ok(()),
        _ => Err(Stop::Unread),
    }
}

/// Makes the steps, and returns the name of the call that follows them, or an empty one.
fn take_steps<'l>(cursor: &mut Cursor<'_>, line: &mut Line<'l>) -> Result<&'l str, Stop> {
    for _ in 0..64 {
        match line.words.word() {
            "next" => cursor.move_next(),
            "prev" => cursor.move_prev(),
            "at" => line.say_all(&around(cursor))?,
            last @ ("" | "entry" | "take_entry" | "take_into_entry") => return Ok(last),
            name => take_step(cursor, name, line)?,
        }
    }
    Err(Stop::Unread)
}

/// The entries before the cursor, at it and after it.
fn around(cursor: &Cursor<'_>) -> [Word; 3] {
    [
        cursor.prev_pair().shown(),
        cursor.current_pair().shown(),
        cursor.next_pair().shown(),
    ]
}

/// Makes the step of this name, if it takes the names that come next.
fn take_step(cursor: &mut Cursor<'_>, name: &str, line: &mut Line<'_>) -> Result<(), Stop> {
    match name {
        "before" | "after" => put_pair(cursor, name == "before", line),
        _ => write_at(cursor, name, line),
    }
}

fn put_pair(cursor: &mut Cursor<'_>, is_before: bool, line: &mut Line<'_>) -> Result<(), Stop> {
    let (key, value) = line.pair()?;
    line.give(put(if is_before {
        cursor.insert_before(key, value)
    } else {
        cursor.insert_after(key, value)
    }))
}

fn write_at(cursor: &mut Cursor<'_>, name: &str, line: &mut Line<'_>) -> Result<(), Stop> {
    let new = Some(line.words.name());
    let word = match_word!(name,
        "write" => write(cursor.current_value(), new),
        "write_pair" => write_pair(cursor.current(), new),
        "write_next" => write_pair(cursor.peek_next(), new),
        "write_prev" => write_pair(cursor.peek_prev(), new),
        _ => return Err(Stop::Unread),
    );
    line.say(word)
}
