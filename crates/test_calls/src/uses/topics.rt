//! Subscriptions to topics.
use crate::few::passes;
use hashlink::LinkedHashMap;
use hashlink_uses::topics::{
    NoMemory, Topics, is_subscribed, subscribe, subscribers_of, unsubscribe,
};
use std::alloc::Global;
use std::process::ExitCode;

/// Subscribes to a topic.
fn subscribed(alloc: Global, topics: &mut Topics, topic: &str, id: u64) -> Result<bool, NoMemory> {
    match String::from_str(alloc, topic) {
        Ok(topic) => subscribe(topics, topic, id),
        Err(_) => Err(NoMemory),
    }
}

/// Whether a topic has these subscribers, in this order.
fn has_subscribers(topics: &Topics, topic: &str, wanted: &[u64]) -> bool {
    match subscribers_of(topics, topic) {
        Some(ids) => ids.iter().eq(wanted),
        None => wanted.is_empty(),
    }
}

/// Whether subscriptions are made and cancelled as they should be.
fn are_kept(alloc: Global, topics: &mut Topics) -> bool {
    let made = [
        subscribed(alloc, topics, "rain", 7),
        subscribed(alloc, topics, "wind", 7),
        subscribed(alloc, topics, "rain", 3),
        subscribed(alloc, topics, "rain", 7),
    ];
    let are_made = has_subscribers(topics, "rain", &[3, 7])
        & has_subscribers(topics, "wind", &[7])
        & has_subscribers(topics, "snow", &[])
        & is_subscribed(topics, "rain", 3)
        & !is_subscribed(topics, "wind", 3);
    let cancelled = [
        unsubscribe(topics, "wind", 7),
        unsubscribe(topics, "wind", 7),
        unsubscribe(topics, "rain", 7),
    ];
    are_made
        & (made == [Ok(true), Ok(true), Ok(true), Ok(false)])
        & (cancelled == [true, false, true])
        & has_subscribers(topics, "rain", &[3])
        & (topics.len() == 1)
}

#[test]
fn a_topic_has_its_subscribers(rt: HostRuntime) -> ExitCode {
    passes(are_kept(rt.alloc(), &mut LinkedHashMap::new(rt.alloc())))
}
