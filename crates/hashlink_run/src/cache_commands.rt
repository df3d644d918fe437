use crate::commands::EntryStep;

/// A call of a cache, with its arguments.
#[derive(Clone, Copy, Debug, PartialEq, Eq, Drop)]
pub enum CacheCommand<K, V> {
    /// Inserts the pair at the back, with the given value, and evicts pairs at the front until there are no
    /// more than the capacity.
    Insert(K, V),
    /// Moves the key's pair to the back and reads it. If the key is absent, inserts the pair as `Insert`
    /// does.
    Use(K, V),
    /// Evicts the first pair if there are more than the capacity, looks the key up, and makes this step with
    /// the given key.
    Entry(K, EntryStep<V>),
    /// Moves the key's pair to the back, and reads it.
    Get(K),
    /// Reads the key's pair at its place.
    Peek(K),
    /// Removes the key's pair, and returns its value.
    Remove(K),
    /// Sets the capacity, and evicts pairs at the front until there are no more than that.
    SetCapacity(usize),
    /// Drops every pair and frees its node.
    Clear,
    /// Removes the first pair, which is the least recently used one.
    RemoveLru,
}

/// A call that is made in the same way on two caches.
#[derive(Clone, Copy, Debug, PartialEq, Eq, Drop)]
pub enum PairCommand<K, V> {
    /// Inserts the pair at the back, with the given value, and evicts the first pair if there are more than
    /// the capacity.
    Insert(K, V),
    /// Moves the key's pair to the back and reads it. If the key is absent, inserts the pair as `Insert`
    /// does.
    Use(K, V),
    /// Removes the key's pair, and returns its value.
    Remove(K),
    /// Reads the key's pair at its place.
    Peek(K),
}

/// A call of a cache with a budget, with its arguments.
#[derive(Clone, Copy, Debug, PartialEq, Eq, Drop)]
pub enum WeightedCommand<K, V> {
    /// Inserts the pair at the back, with the given value and weight, and evicts pairs at the front until the
    /// weights sum to at most the budget.
    Insert(K, V, u64),
    /// Moves the key's pair to the back, and reads it.
    Get(K),
    /// Reads the key's pair at its place.
    Peek(K),
    /// Removes the key's pair, and returns its value.
    Remove(K),
}
