//! Reads of a ring.
ghost use Rattle.std.specs.Prelude.{◌≡◌, ◌⊎◌, ◌+◌, ◌++◌, ◌^◌, ◌<◌, length, None, Some, is_some};
ghost use Rattle.std.specs.Prelude.{IfNone, IfSome};
ghost use Rattle.std.specs.{Option.option_map, List.{Contains, IsDistinct}, Map.{keys_of, lookup}};
ghost use Rattle.hashlink_nodes.specs.Node.{same_node};
ghost use Rattle.hashlink_nodes.specs.Ring.{pair_of, next_place, prev_place, Holds, IsPlace};

use super::Nodes;
use crate::node::Node;

impl<K, V> Nodes<K, V> {
    /// Returns the number of entries.
    #[inline]
    pub fn len(&self) -> usize
        ensures len { result ≡ length self.now.entries }
        ensures small { length self.now.entries + length self.now.free < 2 ^ 63 }
        ensures apart { IsDistinct same_node (keys_of self.now.entries ++ self.now.free) }
    {
        self.len
    }

    /// Returns the number of free nodes.
    #[inline]
    pub fn spare(&self) -> usize
        ensures { result ≡ length self.now.free }
    {
        self.spare
    }

    /// Returns the next place. After the last node this is the guard, and after the guard the first node.
    #[inline]
    pub fn next(&self, place: Option<Node>) -> Option<Node>
        requires { IsPlace self.now.entries place }
        ensures place { result ≡ next_place (keys_of self.now.entries) place }
        ensures apart { IsDistinct same_node (keys_of self.now.entries ++ self.now.free) }
    {
        let guard = self.guard?;
        self.pool.place_of(self.pool.next(place.unwrap_or(guard)))
    }

    /// Returns the previous place. Before the first node this is the guard, and before the guard the last
    /// node.
    #[inline]
    pub fn prev(&self, place: Option<Node>) -> Option<Node>
        requires { IsPlace self.now.entries place }
        ensures place { result ≡ prev_place (keys_of self.now.entries) place }
        ensures apart { IsDistinct same_node (keys_of self.now.entries ++ self.now.free) }
    {
        let guard = self.guard?;
        self.pool.place_of(self.pool.prev(place.unwrap_or(guard)))
    }

    /// Returns the node after this one. After the last node it returns the guard's, which has no entry. It
    /// does not tell which of the two it is, so it need not read the returned node.
    #[inline]
    pub fn after(&self, node: Node) -> Node
        requires { Holds self.now.entries node }
        ensures next { IfSome (next_place (keys_of self.now.entries) (Some node)) (λ next. result ≡ next) }
        ensures last { IfNone (next_place (keys_of self.now.entries) (Some node))
            (lookup (same_node result) self.now.entries ≡ None) }
        ensures apart { IsDistinct same_node (keys_of self.now.entries ++ self.now.free) }
    {
        self.pool.next(node)
    }

    /// Returns the node before this one. Before the first node it returns a node about which no clause states
    /// anything.
    #[inline]
    pub fn before(&self, node: Node) -> Node
        requires { Holds self.now.entries node }
        ensures prev { IfSome (prev_place (keys_of self.now.entries) (Some node)) (λ prev. result ≡ prev) }
        ensures apart { IsDistinct same_node (keys_of self.now.entries ++ self.now.free) }
    {
        self.pool.prev(node)
    }

    /// Returns whether the node, in use or free, has an entry.
    #[inline]
    pub fn has_entry(&self, node: Node) -> bool
        requires { Holds self.now.entries node ⊎ Contains self.now.free node }
        ensures { is_some (lookup (same_node node) self.now.entries) ≡ result }
    {
        self.pool.is_full(node)
    }

    /// Returns the node's key and value.
    #[inline]
    pub fn entry(&self, node: Node) -> (&K, &V)
        requires { Holds self.now.entries node }
        ensures { option_map pair_of (lookup (same_node node) self.now.entries) ≡ Some
            (result.0.now, result.1.now) }
    {
        self.pool.pair(node)
    }

    /// Returns the number that the owner gave the node's entry.
    #[inline]
    pub fn number(&self, node: Node) -> usize
        requires { Holds self.now.entries node }
        ensures { option_map (λ h. h.number) (lookup (same_node node) self.now.entries) ≡ Some result }
    {
        self.pool.number(node)
    }
}
