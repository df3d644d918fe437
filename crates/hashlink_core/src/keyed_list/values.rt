//! Changes of an entry that stays at its place.
ghost use Rattle.std.specs.{Prelude.{◌≡◌, slice_get, Some}, Borrow.sem, Option.option_map};
ghost use Rattle.hashlink_nodes.specs.Ring.{Holds};
ghost use Rattle.hashlink_core.specs.Keyed.{entries_of, EqualsKeyAt, IsKeyed};
ghost use Rattle.hashlink_core.specs.{Places.place_number, Steps.{WritesNode, SetsNodeKey}};

use super::KeyedList;
use hashlink_nodes::Node;
use std::hash::{BuildHasher, Hash};

impl<K: Eq + Hash, V, S: BuildHasher> KeyedList<K, V, S> {
    ghost use Rattle.hashlink_core.specs.KeyedLends.{LendsValueAt};

    /// Returns the key of the node's entry and a mutable reference to its value. It takes constant time.
    #[inline(always)]
    pub fn entry_mut(&mut self, node: Node) -> (&K, &mut V)
        requires { Holds self.old.nodes node }
        ensures* lends { sem 𝓛 (LendsValueAt K.row V.row S.row S.Hasher.row K.Hash
            S.BuildHasher S.Hasher.Hasher self.entry node result.1) }
        ensures pair { slice_get (entries_of self.old) (place_number self.old.nodes (Some node))
            ≡ Some (result.0.now, result.1.now) }
    {
        self.nodes.entry_mut(node)
    }

    /// Returns a mutable reference to the value of the node's entry. It takes constant time.
    #[inline(always)]
    pub fn value_mut(&mut self, node: Node) -> &mut V
        requires { Holds self.old.nodes node }
        ensures* lends { sem 𝓛 (LendsValueAt K.row V.row S.row S.Hasher.row K.Hash
            S.BuildHasher S.Hasher.Hasher self.entry node result) }
        ensures value { option_map (λ e. e.1)
            (slice_get (entries_of self.old) (place_number self.old.nodes (Some node))) ≡ Some result.now }
    {
        let (_, value) = self.entry_mut(node);
        value
    }

    /// Replaces the value of the node's entry, and returns the old one.
    #[inline]
    pub fn replace_value(&mut self, node: Node, value: V) -> V
        requires { Holds self.old.nodes node }
        ensures value { option_map (λ e. e.1)
            (slice_get (entries_of self.old) (place_number self.old.nodes (Some node))) ≡ Some result }
        ensures written { WritesNode self.old self.new (place_number self.old.nodes (Some node)) value }
        ensures was_sound { IsKeyed K.eq self.old }
        ensures sound { IsKeyed K.eq self.new }
    {
        self.nodes.replace_value(node, value)
    }

    /// Replaces the key of the node's entry by an equal one, and returns the old one.
    #[inline]
    pub fn replace_key(&mut self, node: Node, key: K) -> K
        requires held { Holds self.old.nodes node }
        requires equal { EqualsKeyAt K.eq (entries_of self.old)
            (place_number self.old.nodes (Some node)) key }
        ensures key { option_map (λ e. e.0)
            (slice_get (entries_of self.old) (place_number self.old.nodes (Some node))) ≡ Some result }
        ensures written { SetsNodeKey self.old self.new (place_number self.old.nodes (Some node)) key }
        ensures was_sound { IsKeyed K.eq self.old }
        ensures sound { IsKeyed K.eq self.new }
    {
        self.nodes.set_key(node, key)
    }
}
