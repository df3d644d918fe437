//! Moves of an entry.
ghost use Rattle.std.specs.{Prelude.{◌≡◌, ◌+◌}, Map.remove_entry};
ghost use Rattle.hashlink_nodes.specs.{Node.same_node, Ring.{Holds, IsPlace, MovesBefore, MovesAfter}};

use super::Nodes;
use crate::node::Node;

impl<K, V> Nodes<K, V> {
    /// Moves the node's entry directly before another place. It stores six links.
    pub fn move_before(&mut self, node: Node, place: Option<Node>)
        requires node { Holds self.old.entries node }
        requires place { IsPlace (remove_entry (same_node node) self.old.entries) place }
        ensures moved { MovesBefore self.old.entries node place self.new.entries }
        ensures free { self.new.free ≡ self.old.free }
        ensures link_writes { self.new.link_writes ≡ self.old.link_writes + 6 }
    {
        let guard = self.guard.unwrap();
        self.pool.detach(node);
        self.pool.attach_before(node, place.unwrap_or(guard));
    }

    /// Moves the node's entry directly after another place. It stores six links.
    pub fn move_after(&mut self, node: Node, place: Option<Node>)
        requires node { Holds self.old.entries node }
        requires place { IsPlace (remove_entry (same_node node) self.old.entries) place }
        ensures moved { MovesAfter self.old.entries node place self.new.entries }
        ensures free { self.new.free ≡ self.old.free }
        ensures link_writes { self.new.link_writes ≡ self.old.link_writes + 6 }
    {
        let guard = self.guard.unwrap();
        self.pool.detach(node);
        self.pool.attach_after(node, place.unwrap_or(guard));
    }
}
