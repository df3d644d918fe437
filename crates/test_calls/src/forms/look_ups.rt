//! What a lookup accepts as a key: a text for a `String`, a slice for a `Vec`, a `&K` for a `K`.
use crate::few::{is_value, passes};
use hashlink::weighted::WeightedCache;
use hashlink::{LinkedHashMap, LinkedHashSet, LruCache};
use std::alloc::Global;
use std::process::ExitCode;

/// The text as a `String`, or an empty one if there is no memory.
fn owned(alloc: Global, text: &str) -> String {
    match text.to_string(alloc) {
        Ok(owned) => owned,
        Err(_) => String::new(alloc),
    }
}

type Texts = LinkedHashMap<String, u32>;

/// Whether a text and a `String` find the value.
fn finds_value(map: &Texts, key: &String) -> bool {
    is_value(map.get("one"), 1) & is_value(map.get(key), 1) & is_value(map.get(key.as_str()), 1)
}

/// Whether a text finds the entry.
fn finds_entry(map: &Texts) -> bool {
    map.get_key_value("one").is_some()
        & map.contains_key("one")
        & map.raw_entry().from_key("one").is_some()
}

/// Whether the calls by a text that move the entry or write its value find it.
fn moves_entry(map: &mut Texts) -> bool {
    map.get_mut("one").is_some() & map.to_front("one").is_some() & map.to_back("one").is_some()
}

/// Whether a call by a text removes the entry, and does not find it afterwards.
fn removes_entry(map: &mut Texts) -> bool {
    (map.remove("one") == Some(1)) & map.remove_entry("one").is_none()
}

/// Whether the calls by a text find what a map has under it.
fn finds_all(map: &mut Texts, key: &String) -> bool {
    finds_value(map, key) & finds_entry(map) & moves_entry(map) & removes_entry(map)
}

/// Whether they find it in a map into which one more key is inserted.
fn is_found(map: &mut Texts, key: String) -> bool {
    map.insert(owned(map.allocator(), "one"), 1).is_ok() & finds_all(map, &key)
}

#[test]
fn a_text_finds_its_entry(rt: HostRuntime) -> ExitCode {
    let key = owned(rt.alloc(), "one");
    passes(is_found(&mut LinkedHashMap::new(rt.alloc()), key))
}

/// Whether bytes find the value that a map has under them, and other bytes find none.
fn is_found_by_bytes(map: &mut LinkedHashMap<Vec<u8>, u32>, key: Vec<u8>) -> bool {
    map.insert(key, 1).is_ok()
        & is_value(map.get(b"one".as_slice()), 1)
        & map.get(b"on".as_slice()).is_none()
}

#[test]
fn bytes_find_their_entry(rt: HostRuntime) -> ExitCode {
    passes(match b"one".to_vec(rt.alloc()) {
        Ok(key) => is_found_by_bytes(&mut LinkedHashMap::new(rt.alloc()), key),
        Err(_) => false,
    })
}

/// Whether a text and a reference to it find the value in a map of borrowed texts.
fn is_found_borrowed(map: &mut LinkedHashMap<&'static str, u32>) -> bool {
    map.insert("one", 1).is_ok() & is_value(map.get("one"), 1) & is_value(map.get(&"one"), 1)
}

#[test]
fn a_borrowed_text_finds_its_entry(rt: HostRuntime) -> ExitCode {
    passes(is_found_borrowed(&mut LinkedHashMap::new(rt.alloc())))
}

/// Whether the calls by a text find the element of a set.
fn finds_element(set: &mut LinkedHashSet<String>) -> bool {
    set.contains("one") & set.get("one").is_some() & set.to_front("one") & set.to_back("one")
}

/// Whether a call by a text removes the element, and does not find it afterwards.
fn takes_element(set: &mut LinkedHashSet<String>) -> bool {
    set.take("one").is_some() & !set.remove("one")
}

/// Whether a set accepts the element and a text finds it.
fn is_element_found(set: &mut LinkedHashSet<String>, element: String) -> bool {
    set.insert(element).is_ok() & finds_element(set) & takes_element(set)
}

#[test]
fn a_text_finds_its_element(rt: HostRuntime) -> ExitCode {
    let element = owned(rt.alloc(), "one");
    passes(is_element_found(&mut LinkedHashSet::new(rt.alloc()), element))
}

/// Whether the reading calls by a text find its statement.
fn reads_statement(cache: &mut LruCache<String, u32>) -> bool {
    is_value(cache.get("select 1"), 1)
        & is_value(cache.peek("select 1"), 1)
        & cache.contains_key("select 1")
}

/// Whether the writing and removing calls by a text find it.
fn removes_statement(cache: &mut LruCache<String, u32>) -> bool {
    cache.get_mut("select 1").is_some()
        & cache.peek_mut("select 1").is_some()
        & (cache.remove("select 1") == Some(1))
        & cache.remove_entry("select 1").is_none()
}

/// Whether a cache accepts the statement and a text finds it.
fn is_statement_found(cache: &mut LruCache<String, u32>, sql: String) -> bool {
    cache.insert(sql, 1).is_ok() & reads_statement(cache) & removes_statement(cache)
}

#[test]
fn a_text_finds_its_statement(rt: HostRuntime) -> ExitCode {
    let sql = owned(rt.alloc(), "select 1");
    passes(is_statement_found(&mut LruCache::new(rt.alloc(), 2), sql))
}

/// Whether a cache with a budget accepts a value, and a text finds it.
fn is_weighed(cache: &mut WeightedCache<String, u32>, key: String) -> bool {
    cache.insert(key, 1, 1).is_ok()
        & is_value(cache.get("one"), 1)
        & is_value(cache.peek("one"), 1)
        & (cache.remove("one") == Some(1))
}

#[test]
fn a_text_finds_what_has_a_weight(rt: HostRuntime) -> ExitCode {
    let key = owned(rt.alloc(), "one");
    passes(is_weighed(&mut WeightedCache::new(rt.alloc(), 2), key))
}
