//! The entry of a node in use.

/// The entry of a node of the ring: a number that its owner chose, and a pair.
#[derive(Drop)]
pub struct Entry<K, V> {
    pub number: usize,
    pub key: K,
    pub value: V,
}
