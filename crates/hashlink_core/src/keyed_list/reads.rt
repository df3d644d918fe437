//! Reads of a keyed list.
ghost use Rattle.std.specs.Prelude.{◌≡◌, ◌+◌, ◌-◌, ◌<◌, ◌^◌, ◌↔◌, length, slice_get, None, Some, IfSome};
ghost use Rattle.std.specs.Prelude.{[], IfNone, IsTrue};
ghost use Rattle.std.specs.{Prelude.MatchOption, Map.Iter.{ShowsInOrder, ShowsInReverse, deref, deref_pair}};
ghost use Rattle.std.specs.{Borrow.Bor, Fn.FnReturnsAt, Map.{lookup, keys_of, values_of}, Option.ForSome};
ghost use Rattle.hashlink_model.specs.{Cursor.{following_place, preceding_place}, Entries.place_of};
ghost use Rattle.hashlink_nodes.specs.{Node.same_node, Ring.{Holds, IsPlace}};
ghost use Rattle.hashlink_core.specs.{Keyed.{entries_of, HoldsKey, HoldsMatch, IsKeyed}, Tied.hash_with};
ghost use Rattle.hashlink_core.specs.{Places.{place_number, IsPlaceAt}, Telling.Tells};

use super::{KeyedList, short_hash};
use crate::equivalent::Equivalent;
use crate::iter::{Iter, Keys, Values};
use hashlink_nodes::Node;
use hashlink_table::FoundNode;
use std::hash::{BuildHasher, Hash};

// A lookup is inlined wherever it is called, down to the table's loop. As a call it would return its result
// through memory, and take half as long again.
impl<K: Eq + Hash, V, S: BuildHasher> KeyedList<K, V, S> {
    /// Returns the hash of a key, or of a query for one.
    #[inline(always)]
    pub fn hash_of<Q: Equivalent<K>>(&self, key: Q) -> u64
        ensures { result ≡ hash_with S.build_hasher S.Hasher.write S.Hasher.finish Q.hash_input
            self.now.hasher key }
    {
        self.hash_builder.hash_one(key)
    }

    /// Returns the node whose key the query matches, and its slot in the table. `hash` has to be the query's
    /// hash. The table compares only nodes of one bucket.
    #[inline(always)]
    pub fn find<Q: Equivalent<K>>(&self, hash: u64, key: Q) -> Option<FoundNode<Node>>
        requires { hash ≡ hash_with S.build_hasher S.Hasher.write S.Hasher.finish Q.hash_input
            self.now.hasher key }
        ensures found { MatchOption result (place_of (Q.matches key) (entries_of self.now) ≡ None)
            (λ f. HoldsMatch (Q.matches key) self.now.nodes f.node) }
        ensures sound { IsKeyed K.eq self.now }
    {
        let nodes = &self.nodes;
        let holds_match = move |node: Node| -> bool
            requires { Holds nodes.now.entries node }
            ensures { IfSome (lookup (same_node node) nodes.entry.now.entries)
                (λ held. result ≡ Q.matches key held.key) }
        { key.equivalent(nodes.entry(node).0) };
        self.table.look_up(short_hash(hash), holds_match)
    }

    /// Returns the node whose key is equal to a certain key, which need not be given, and its slot. `hash`
    /// has to be this key's hash. `is_match` has to return, for each key in the list, whether it is equal to
    /// it. The table asks about nodes of one bucket only.
    #[inline(always)]
    pub fn find_with<F: Fn(&K) -> bool>(&self, hash: u64, is_match: F) -> Option<FoundNode<Node>>
        requires { (k : K) × Tells F.Fn K.eq
            (hash_with S.build_hasher S.Hasher.write S.Hasher.finish K.hash_input self.now.hasher)
            (keys_of (entries_of self.now)) is_match hash k }
        ensures found { (k : K) → Tells F.Fn K.eq
            (hash_with S.build_hasher S.Hasher.write S.Hasher.finish K.hash_input self.now.hasher)
            (keys_of (entries_of self.now)) is_match hash k
            → MatchOption result (place_of (K.eq k) (entries_of self.now) ≡ None)
            (λ f. HoldsKey K.eq self.now.nodes k f.node) }
        ensures sound { IsKeyed K.eq self.now }
    {
        let nodes = &self.nodes;
        let holds_match = move |node: Node| -> bool
            requires held { Holds nodes.now.entries node }
            requires callable { ForSome (lookup (same_node node) nodes.now.entries)
                (λ held. (x : Bor K) → x.now ≡ held.key → F.pre is_match x) }
            ensures { IfSome (lookup (same_node node) nodes.entry.now.entries)
                (λ held. FnReturnsAt F.Fn is_match held.key result) }
        { is_match(nodes.entry(node).0) };
        self.table.look_up(short_hash(hash), holds_match)
    }

    /// Returns the place of the first entry, or the guard if there is none.
    #[inline]
    pub fn front(&self) -> Option<Node>
        ensures place { IsPlaceAt self.now.nodes result 0 }
        ensures none { IfNone result (entries_of self.now ≡ []) }
        ensures sound { IsKeyed K.eq self.now }
    {
        self.nodes.next(None)
    }

    /// Returns the place of the last entry, or the guard if there is none.
    #[inline]
    pub fn back(&self) -> Option<Node>
        ensures place { IsPlaceAt self.now.nodes result (length (entries_of self.now) - 1) }
        ensures none { IfNone result (entries_of self.now ≡ []) }
        ensures sound { IsKeyed K.eq self.now }
    {
        self.nodes.prev(None)
    }

    /// Returns the next place. After the guard, this is the first.
    #[inline]
    pub fn next(&self, place: Option<Node>) -> Option<Node>
        requires { IsPlace self.now.nodes place }
        ensures { IsPlaceAt self.now.nodes result
            (following_place (length (entries_of self.now)) (place_number self.now.nodes place)) }
    {
        self.nodes.next(place)
    }

    /// Returns the previous place. Before the first, this is the guard.
    #[inline]
    pub fn prev(&self, place: Option<Node>) -> Option<Node>
        requires { IsPlace self.now.nodes place }
        ensures { IsPlaceAt self.now.nodes result
            (preceding_place (length (entries_of self.now)) (place_number self.now.nodes place)) }
    {
        self.nodes.prev(place)
    }

    /// Returns the node after this one. After the last node it returns one that the list does not have. The
    /// returned node is not read.
    #[inline]
    pub fn after(&self, node: Node) -> Node
        requires { Holds self.now.nodes node }
        ensures { place_number self.now.nodes (Some result)
            ≡ place_number self.now.nodes (Some node) + 1 }
    {
        self.nodes.after(node)
    }

    /// Returns the node before this one. Before the first node it returns any node. The returned node is not
    /// read.
    #[inline]
    pub fn before(&self, node: Node) -> Node
        requires { Holds self.now.nodes node }
        ensures { 0 < place_number self.now.nodes (Some node)
            → place_number self.now.nodes (Some result) + 1 ≡ place_number self.now.nodes (Some node) }
    {
        self.nodes.before(node)
    }

    /// Returns the node's pair.
    #[inline]
    pub fn entry(&self, node: Node) -> (&K, &V)
        requires { Holds self.now.nodes node }
        ensures { slice_get (entries_of self.now) (place_number self.now.nodes (Some node))
            ≡ Some (deref_pair result) }
    {
        self.nodes.entry(node)
    }

    /// Returns whether the place is the node's. It compares the keys, if their short hashes are equal.
    // Nodes cannot be compared, but no two keys of the list are equal.
    #[inline]
    pub fn is_at(&self, node: Node, place: Option<Node>) -> bool
        requires node { Holds self.now.nodes node }
        requires place { IsPlace self.now.nodes place }
        ensures { IsTrue result ↔ (place ≡ Some node) }
    {
        let Some(at) = place else {
            return false;
        };
        self.nodes.number(at) == self.nodes.number(node)
            && self.nodes.entry(at).0 == self.nodes.entry(node).0
    }

    /// Returns an iterator over the entries, front to back. It does not allocate; a step takes constant time.
    pub fn iter(&self) -> Iter<'_, K, V>
        ensures rest { result ≡ entries_of self.now }
        ensures runs { ShowsInOrder (deref_pair {K = K} {X = V}) }
        ensures runs_back { ShowsInReverse (deref_pair {K = K} {X = V}) }
        ensures fits { length (entries_of self.now) < 2 ^ 63 }
        ensures sound { IsKeyed K.eq self.now }
    {
        Iter::new(&self.nodes)
    }

    /// Returns an iterator over the keys, front to back. It does not allocate; a step takes constant time.
    pub fn keys(&self) -> Keys<'_, K, V>
        ensures rest { result ≡ keys_of (entries_of self.now) }
        ensures runs { ShowsInOrder (deref {X = K}) }
        ensures runs_back { ShowsInReverse (deref {X = K}) }
        ensures fits { length (entries_of self.now) < 2 ^ 63 }
    {
        Keys::new(self.iter())
    }

    /// Returns an iterator over the values, front to back. It does not allocate; a step takes constant time.
    pub fn values(&self) -> Values<'_, K, V>
        ensures rest { result ≡ values_of (entries_of self.now) }
        ensures runs { ShowsInOrder (deref {X = V}) }
        ensures runs_back { ShowsInReverse (deref {X = V}) }
        ensures fits { length (entries_of self.now) < 2 ^ 63 }
    {
        Values::new(self.iter())
    }
}
