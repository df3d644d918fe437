//! The search that removes what it finds, and the owning iterator. No call allocates.
ghost use Rattle.std.specs.{Prelude.{◌≡◌, IfSome}, Map.lookup};
ghost use Rattle.hashlink_nodes.specs.{Node.same_node, Ring.Holds};
ghost use Rattle.hashlink_model.specs.Steps.{RemovesMatch};
ghost use Rattle.hashlink_core.specs.Keyed.{state_of, entries_of, IsKeyed};

use super::{KeyedList, short_hash};
use crate::equivalent::Equivalent;
use crate::into_iter::IntoIter;
use hashlink_nodes::Node;
use std::hash::{BuildHasher, Hash};

impl<K: Eq + Hash, V, S: BuildHasher> KeyedList<K, V, S> {
    /// Removes the key's entry and returns the stored pair. It looks the key up as `find` does, and stores at
    /// most three links.
    #[inline(always)]
    pub fn remove_key<Q: Equivalent<K>>(&mut self, key: Q) -> Option<(K, V)>
        ensures removes { RemovesMatch (Q.matches key) (state_of self.old) (state_of self.new) result }
        ensures was_sound { IsKeyed K.eq self.old }
        ensures sound { IsKeyed K.eq self.new }
    {
        let hash = short_hash(self.hash_of(key));
        let nodes = &self.nodes;
        let holds_match = move |node: Node| -> bool
            requires { Holds nodes.now.entries node }
            ensures { IfSome (lookup (same_node node) nodes.entry.now.entries)
                (λ held. result ≡ Q.matches key held.key) }
        { key.equivalent(nodes.entry(node).0) };
        let node = self.table.remove(hash, holds_match)?;
        Some(self.nodes.detach_into_free(node))
    }

    /// Turns the list into an owning iterator over its entries, front to back. It frees the table and the
    /// free nodes, in linear time in the number of free nodes.
    pub fn into_entries(self) -> IntoIter<K, V>
    where
        S: Drop,
        ensures { result ≡ entries_of self }
    {
        let KeyedList {
            nodes,
            table: _,
            hash_builder: _,
        } = self;
        IntoIter::new(nodes)
    }
}
