//! Drains, and what the caller knows about a map after one.
ghost use Rattle.hashlink.specs.{Steps.Drains, Keyed.state_of};

use hashlink::LinkedHashMap;
use std::hash::{BuildHasher, Hash};

/// Empties a map, and keeps its nodes.
pub fn empty_out<K: Eq + Hash + Drop, V: Drop, S: BuildHasher>(map: &mut LinkedHashMap<K, V, S>)
    ensures { Drains (state_of map.old) (state_of map.new) }
{
    let _rest = map.drain();
}

/// Removes this many entries from the front and this many from the back, and drops the others. The map ends
/// as after a drain of all.
pub fn take_ends<K: Eq + Hash + Drop, V: Drop, S: BuildHasher>(
    map: &mut LinkedHashMap<K, V, S>,
    front: usize,
    back: usize,
)
    ensures { Drains (state_of map.old) (state_of map.new) }
{
    let mut drain = map.drain();
    for _ in 0..front {
        let _taken = drain.next();
    }
    for _ in 0..back {
        let _taken = drain.next_back();
    }
}
