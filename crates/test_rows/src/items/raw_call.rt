//! Calls of a raw entry.
use crate::items::answers::Stop;
use crate::items::entry_call::Make;
use crate::items::words::Words;

/// A call of an occupied entry that takes no item. If a name follows, it is written into what is lent.
#[derive(Clone, Copy)]
pub enum RawAsk {
    Get,
    GetKeyValue,
    ToFront,
    ToBack,
    IntoKey,
    Remove,
    RemoveEntry,
    GetMut,
    GetKeyValueMut,
    IntoMut,
    IntoKeyValue,
}

/// How a vacant entry gets the hash of the key that it inserts.
#[derive(Clone, Copy)]
pub enum By {
    Itself,
    Hash,
    Hasher,
}

/// A call of a raw entry.
#[derive(Clone, Copy)]
pub enum RawCall {
    /// Writes the name that follows, if the key is present.
    Modify,
    Ask(RawAsk),
    ReplaceValue,
    ReplaceKey,
    Make(Make),
    /// A vacant entry inserts the pair and lends it. If a name follows, it is written.
    Lend(By),
    /// The same, but it becomes the pair's entry.
    Enter(By),
    /// Steps of a cursor follow.
    Cursor,
}

const CALLS: [(&str, RawCall); 23] = [
    ("get", RawCall::Ask(RawAsk::Get)),
    ("get_key_value", RawCall::Ask(RawAsk::GetKeyValue)),
    ("to_front", RawCall::Ask(RawAsk::ToFront)),
    ("to_back", RawCall::Ask(RawAsk::ToBack)),
    ("into_key", RawCall::Ask(RawAsk::IntoKey)),
    ("remove", RawCall::Ask(RawAsk::Remove)),
    ("remove_entry", RawCall::Ask(RawAsk::RemoveEntry)),
    ("and_modify", RawCall::Modify),
    ("get_mut", RawCall::Ask(RawAsk::GetMut)),
    ("get_key_value_mut", RawCall::Ask(RawAsk::GetKeyValueMut)),
    ("into_mut", RawCall::Ask(RawAsk::IntoMut)),
    ("into_key_value", RawCall::Ask(RawAsk::IntoKeyValue)),
    ("or_insert", RawCall::Make(Make::OrInsert)),
    ("or_insert_with", RawCall::Make(Make::OrInsertWith)),
    ("replace_key", RawCall::ReplaceKey),
    ("replace_value", RawCall::ReplaceValue),
    ("insert", RawCall::Lend(By::Itself)),
    ("insert_hashed", RawCall::Lend(By::Hash)),
    ("insert_with_hasher", RawCall::Lend(By::Hasher)),
    ("insert_entry", RawCall::Enter(By::Itself)),
    ("insert_entry_hashed", RawCall::Enter(By::Hash)),
    ("insert_entry_with_hasher", RawCall::Enter(By::Hasher)),
    ("cursor", RawCall::Cursor),
];

impl RawCall {
    /// The call that the next word names.
    pub fn read(words: &mut Words<'_>) -> Result<RawCall, Stop> {
        words.named(&CALLS)
    }
}
