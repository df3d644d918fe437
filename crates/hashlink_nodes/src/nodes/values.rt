//! Changes of an entry that stays at its place.
ghost use Rattle.std.specs.{Prelude.{◌≡◌, Some, IfSome}, Option.option_map, Borrow.sem};
ghost use Rattle.std.specs.Map.{lookup, set_value};
ghost use Rattle.hashlink_nodes.specs.Node.{same_node};
ghost use Rattle.hashlink_nodes.specs.Ring.{pair_of, with_value, with_key, Holds};

use super::Nodes;
use crate::node::Node;
use std::mem;

impl<K, V> Nodes<K, V> {
    ghost use Rattle.hashlink_nodes.specs.NodesLends.{LendsValueAt};

    /// Replaces the value of the node's entry, and returns the old one.
    pub fn replace_value(&mut self, node: Node, value: V) -> V
        requires { Holds self.old.entries node }
        ensures value { option_map (λ h. h.value) (lookup (same_node node) self.old.entries) ≡ Some result }
        ensures entries { IfSome (lookup (same_node node) self.old.entries)
            (λ h. self.new.entries ≡ set_value (same_node node) self.old.entries (with_value h value)) }
        ensures free { self.new.free ≡ self.old.free }
        ensures link_writes { self.new.link_writes ≡ self.old.link_writes }
    {
        mem::replace(self.entry_mut(node).1, value)
    }

    /// Replaces the key of the node's entry, and returns the old one.
    pub fn set_key(&mut self, node: Node, key: K) -> K
        requires { Holds self.old.entries node }
        ensures key { option_map (λ h. h.key) (lookup (same_node node) self.old.entries) ≡ Some result }
        ensures entries { IfSome (lookup (same_node node) self.old.entries)
            (λ h. self.new.entries ≡ set_value (same_node node) self.old.entries (with_key h key)) }
        ensures free { self.new.free ≡ self.old.free }
        ensures link_writes { self.new.link_writes ≡ self.old.link_writes }
    {
        self.pool.replace_key(node, key)
    }

    /// Returns the key of the node's entry and a mutable reference to its value.
    #[inline(always)]
    pub fn entry_mut(&mut self, node: Node) -> (&K, &mut V)
        requires { Holds self.old.entries node }
        ensures* lends { sem 𝓛 (LendsValueAt K.row V.row self.entry node result.1) }
        ensures pair { option_map pair_of (lookup (same_node node) self.old.entries)
            ≡ Some (result.0.now, result.1.now) }
    {
        self.pool.entry_mut(node)
    }
}
