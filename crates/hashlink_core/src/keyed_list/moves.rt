//! Inserts, moves and removals of entries by their nodes.
ghost use Rattle.std.specs.Prelude.{◌≡◌, ◌⊎◌, [], length, not, slice_get, is_some, None, Some, IfOk, IfErr};
ghost use Rattle.std.specs.{Prelude.OnErr, List.Contains, Map.{lookup, remove_entry}};
ghost use Rattle.hashlink_model.specs.{Cursor.following_place, Entries.place_of, Steps.Clears};
ghost use Rattle.hashlink_nodes.specs.{Node.same_node, Ring.{Holds, IsPlace}};
ghost use Rattle.hashlink_core.specs.{Keyed.{entries_of, state_of, IsKeyed}, Places.place_number};
ghost use Rattle.hashlink_core.specs.{Steps.{AddsNode, RemovesNode, MovesNode, GrowsRoom}, Tied.hash_with};

use super::{KeyedList, short_hash};
use hashlink_nodes::Node;
use std::hash::{BuildHasher, Hash};

impl<K: Eq + Hash, V, S: BuildHasher> KeyedList<K, V, S> {
    /// Inserts a pair directly before the place. Its key has to be absent, and `hash` has to be the key's
    /// hash. It stores four links.
    ///
    /// It allocates only if no node is free. If an allocation fails, it returns the pair in `Err` and changes
    /// no entry; the room may have grown.
    // It is not inlined, so that an insert inlines only the work for a present key.
    #[inline(never)]
    pub fn insert_before(
        &mut self,
        place: Option<Node>,
        hash: u64,
        key: K,
        value: V,
    ) -> Result<Node, (K, V)>
        requires place { IsPlace self.old.nodes place }
        requires absent { place_of (K.eq key) (entries_of self.old) ≡ None }
        requires hash { hash ≡ hash_with S.build_hasher S.Hasher.write S.Hasher.finish
            K.hash_input self.old.hasher key }
        ensures added { IfOk result
            (λ n. AddsNode self.old self.new (place_number self.old.nodes place) n key value) }
        ensures handed_back { IfErr result (λ pair. pair ≡ (key, value)) }
        ensures refused { OnErr result (GrowsRoom 1 self.old self.new) }
        ensures no_spare { OnErr result (self.old.spare ≡ 0) }
        ensures was_sound { IsKeyed K.eq self.old }
        ensures sound { IsKeyed K.eq self.new }
    {
        let Ok(()) = self.reserve(1) else {
            return Err((key, value));
        };
        let short = short_hash(hash);
        let node = self.nodes.push_before(place, short as usize, key, value)?;
        self.table.insert_reserved(short, node);
        Ok(node)
    }

    /// Moves the node's entry directly before another place. It stores six links.
    #[inline]
    pub fn move_before(&mut self, node: Node, place: Option<Node>)
        requires node { Holds self.old.nodes node }
        requires place { IsPlace (remove_entry (same_node node) self.old.nodes) place }
        ensures moved { MovesNode self.old self.new (place_number self.old.nodes (Some node))
            (place_number self.old.nodes place) }
        ensures was_sound { IsKeyed K.eq self.old }
        ensures sound { IsKeyed K.eq self.new }
    {
        self.nodes.move_before(node, place);
    }

    /// Moves the node's entry directly after another place. It stores six links.
    #[inline]
    pub fn move_after(&mut self, node: Node, place: Option<Node>)
        requires node { Holds self.old.nodes node }
        requires place { IsPlace (remove_entry (same_node node) self.old.nodes) place }
        ensures moved { MovesNode self.old self.new (place_number self.old.nodes (Some node))
            (following_place (length self.old.nodes) (place_number self.old.nodes place)) }
        ensures was_sound { IsKeyed K.eq self.old }
        ensures sound { IsKeyed K.eq self.new }
    {
        self.nodes.move_after(node, place);
    }

    /// Removes the node's entry and returns it. The node is then free. It does not allocate, and stores three
    /// links. `slot` may be any number. If a search found the node at this slot, the table need not search
    /// again.
    // It is inlined, so that a caller without a slot has no code for one.
    #[inline(always)]
    pub fn remove(&mut self, node: Node, slot: Option<usize>) -> (K, V)
        requires { Holds self.old.nodes node }
        ensures pair { slice_get (entries_of self.old) (place_number self.old.nodes (Some node))
            ≡ Some result }
        ensures removed { RemovesNode self.old self.new (place_number self.old.nodes (Some node)) }
        ensures was_sound { IsKeyed K.eq self.old }
        ensures sound { IsKeyed K.eq self.new }
    {
        // The table finds the node that has no entry any more, so no key is hashed or compared.
        let number = self.nodes.number(node);
        let pair = self.nodes.detach_into_free(node);
        let nodes = &self.nodes;
        let is_free = |other: Node| -> bool
            requires { Holds nodes.now.entries other ⊎ Contains nodes.now.free other }
            ensures { not (is_some (lookup (same_node other) nodes.entry.now.entries)) ≡ result }
        { !nodes.has_entry(other) };
        self.table.remove_at(slot, number as u32, is_free);
        pair
    }

    /// Drops every entry and releases its node. The nodes that were free before and the room stay.
    pub fn clear(&mut self)
    where
        K: Drop,
        V: Drop,
        ensures nodes { self.new.nodes ≡ [] }
        ensures cleared { Clears (state_of self.old) (state_of self.new) }
    {
        self.table.clear();
        self.nodes.release_all();
    }
}
