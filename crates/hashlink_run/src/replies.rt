/// The reply of a map or a cache to a command. If a command reads a pair, the reply contains what the closure
/// returned for it.
#[derive(Clone, Copy, Debug, PartialEq, Eq, Drop)]
pub enum Reply<K, V, B = bool> {
    /// The command was done.
    Done,
    /// An allocation failed. Whatever needs no allocation was done.
    Denied,
    /// The value that the key had, if any.
    Value(Option<V>),
    /// The pair that was found, if any.
    Pair(Option<(K, V)>),
    /// A stored key, if there was one: the old one if the key was replaced.
    Key(Option<K>),
    /// What the closure returned for the pair that was found, if any.
    Seen(Option<B>),
    /// The number of pairs.
    Length(usize),
    /// The pair that was not inserted because an allocation failed.
    Refused(K, V),
    /// The pair that a cache with a budget did not insert because its weight is above the budget.
    TooHeavy(K, V),
}
