//! Who listens to which topic: a map from texts to sets, looked up by `&str`.
ghost use Rattle.std.specs.Prelude.{◌≡◌, ℕ, [], List, IfOk, OnErr, OnOk, if◌then◌else◌, length, nat_eq, not};
ghost use Rattle.std.specs.{Prelude.{option_copied, string_bytes}, Option.option_map_or, Str.bytes_eq};
ghost use Rattle.std.specs.Set.{is_member, remove_key};
ghost use Rattle.hashlink.specs.{Keyed.entries_of, Sets.{elements_of, put_element}};
ghost use Rattle.hashlink_uses.specs.Subscribers.{subscribers};

use hashlink::{LinkedHashMap, LinkedHashSet};

/// The subscribers of each topic, by their numbers. A topic that is not a key has none.
pub type Topics = LinkedHashMap<String, LinkedHashSet<u64>>;

/// Memory ran out. What could not be inserted is dropped.
#[derive(Clone, Copy, Debug, PartialEq, Eq, Drop)]
pub struct NoMemory;

impl From<(String, LinkedHashSet<u64>)> for NoMemory {
    fn from(_: (String, LinkedHashSet<u64>)) -> NoMemory {
        NoMemory
    }
}

impl From<u64> for NoMemory {
    fn from(_: u64) -> NoMemory {
        NoMemory
    }
}

/// Subscribes to a topic, and returns whether the subscription is new. A repeated one moves to the back. If
/// memory runs out, each topic has the subscribers that it had.
pub fn subscribe(topics: &mut Topics, topic: String, id: u64) -> Result<bool, NoMemory>
    ensures subscribed { OnOk result ((text : List ℕ) → subscribers (entries_of topics.new) text
        ≡ if bytes_eq (string_bytes topic) text
        then put_element nat_eq (subscribers (entries_of topics.old) (string_bytes topic)) id
        (length (subscribers (entries_of topics.old) (string_bytes topic)))
        else subscribers (entries_of topics.old) text) }
    ensures new { IfOk result (λ new. new
        ≡ not (is_member nat_eq (subscribers (entries_of topics.old) (string_bytes topic)) id)) }
    ensures unchanged { OnErr result ((text : List ℕ)
        → subscribers (entries_of topics.new) text ≡ subscribers (entries_of topics.old) text) }
{
    let ids = topics.entry(topic).or_default()?;
    let is_new = ids.insert(id)?;
    Ok(is_new)
}

/// Cancels a subscription, and returns whether there was one. A topic without subscribers is removed.
pub fn unsubscribe(topics: &mut Topics, topic: &str, id: u64) -> bool
    ensures found { result ≡ is_member nat_eq (subscribers (entries_of topics.old) topic.now) id }
    ensures left { (text : List ℕ) → subscribers (entries_of topics.new) text
        ≡ if bytes_eq topic.now text
        then remove_key (nat_eq id) (subscribers (entries_of topics.old) topic.now)
        else subscribers (entries_of topics.old) text }
{
    let Some(ids) = topics.get_mut(topic) else {
        return false;
    };
    let was_there = ids.remove(&id);
    if ids.is_empty() {
        topics.remove(topic);
    }
    was_there
}

/// Returns the subscribers of a topic, if it has any.
pub fn subscribers_of<'a>(topics: &'a Topics, topic: &str) -> Option<&'a LinkedHashSet<u64>>
    ensures { option_map_or elements_of (option_copied result) []
        ≡ subscribers (entries_of topics.now) topic.now }
{
    topics.get(topic)
}

/// Returns whether there is this subscription.
pub fn is_subscribed(topics: &Topics, topic: &str, id: u64) -> bool
    ensures { result ≡ is_member nat_eq (subscribers (entries_of topics.now) topic.now) id }
{
    match topics.get(topic) {
        Some(ids) => ids.contains(&id),
        None => false,
    }
}
