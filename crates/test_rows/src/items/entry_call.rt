//! Calls of an entry.
use crate::items::answers::Stop;
use crate::items::words::Words;

/// A call of an occupied entry that takes no item. If a name follows, it is written into what is lent.
#[derive(Clone, Copy)]
pub enum Ask {
    Get,
    ToFront,
    ToBack,
    ReplaceKey,
    IntoKey,
    Remove,
    RemoveEntry,
    GetMut,
    IntoMut,
}

/// A call that inserts the value if the key is absent, and lends the one that is then present. If a name
/// follows, it is written.
#[derive(Clone, Copy)]
pub enum Make {
    OrInsert,
    OrInsertWith,
}

/// A call of an occupied entry that sets the value.
#[derive(Clone, Copy)]
pub enum Put {
    Insert,
    RawReplaceValue,
    InsertEntry,
    ReplaceEntry,
}

/// A call of a vacant entry that takes no value.
#[derive(Clone, Copy)]
pub enum Vacant {
    Key,
    IntoKey,
    /// Makes the raw entry, which has no key.
    Raw,
}

/// A call of a vacant entry that inserts the value. If a name follows, it is written into what is lent.
#[derive(Clone, Copy)]
pub enum Add {
    Insert,
    InsertEntry,
    /// Inserts the pair, and removes it at once.
    Take,
}

/// A call of an entry.
#[derive(Clone, Copy)]
pub enum EntryCall {
    /// The given key.
    Key,
    /// Writes the name that follows, if the key is present.
    Modify,
    Ask(Ask),
    Make(Make),
    /// Inserts the value that the next word names as made or, after `fail`, passes on why none was made.
    TryMake,
    Put(Put),
    Vacant(Vacant),
    Add(Add),
    /// Steps of a cursor follow.
    Cursor,
}

const CALLS: [(&str, EntryCall); 19] = [
    ("get", EntryCall::Ask(Ask::Get)),
    ("to_front", EntryCall::Ask(Ask::ToFront)),
    ("to_back", EntryCall::Ask(Ask::ToBack)),
    ("key", EntryCall::Key),
    ("replace_key", EntryCall::Ask(Ask::ReplaceKey)),
    ("into_key", EntryCall::Ask(Ask::IntoKey)),
    ("remove", EntryCall::Ask(Ask::Remove)),
    ("remove_entry", EntryCall::Ask(Ask::RemoveEntry)),
    ("and_modify", EntryCall::Modify),
    ("get_mut", EntryCall::Ask(Ask::GetMut)),
    ("into_mut", EntryCall::Ask(Ask::IntoMut)),
    ("or_insert", EntryCall::Make(Make::OrInsert)),
    ("or_insert_with", EntryCall::Make(Make::OrInsertWith)),
    ("or_try_insert_with", EntryCall::TryMake),
    ("insert", EntryCall::Put(Put::Insert)),
    ("raw_replace_value", EntryCall::Put(Put::RawReplaceValue)),
    ("insert_entry", EntryCall::Put(Put::InsertEntry)),
    ("replace_entry", EntryCall::Put(Put::ReplaceEntry)),
    ("cursor", EntryCall::Cursor),
];

/// The calls after the word `vacant`.
const VACANT: [(&str, EntryCall); 6] = [
    ("key", EntryCall::Vacant(Vacant::Key)),
    ("into_key", EntryCall::Vacant(Vacant::IntoKey)),
    ("raw", EntryCall::Vacant(Vacant::Raw)),
    ("insert", EntryCall::Add(Add::Insert)),
    ("insert_entry", EntryCall::Add(Add::InsertEntry)),
    ("take", EntryCall::Add(Add::Take)),
];

impl EntryCall {
    /// The call that the next words name.
    pub fn read(words: &mut Words<'_>) -> Result<EntryCall, Stop> {
        if words.has("vacant") {
            words.named(&VACANT)
        } else {
            words.named(&CALLS)
        }
    }
}
