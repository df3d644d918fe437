//! The nodes that an iterator over a borrowed map has left. The lending iterators take their steps through
//! it.
ghost use Rattle.std.specs.Prelude.{◌≡◌, length};
ghost use Rattle.hashlink_core.specs.Keyed.{entries_of, state_of};
ghost use Rattle.hashlink_map.specs.WritingWalk.{StandsIn, TakesPlace, walk_in, writing_walk};
ghost use Rattle.hashlink_map.specs.WritingWalk.{after_front, after_back, last_place};

use crate::as_node::AsNode;
use crate::map::LinkedHashMap;
use hashlink_core::Node;
use std::hash::{BuildHasher, Hash};

/// The first and the last node left, and how many are left. If none is left, the two nodes mean nothing. So a
/// step reads only the links of its own node, and does not read the next node.
#[derive(Clone, Copy)]
pub(crate) struct PlacesLeft<N: AsNode = Node> {
    pub(crate) first: N,
    pub(crate) last: N,
    pub(crate) left: usize,
}

impl PlacesLeft {
    /// Returns all nodes of the map.
    pub(crate) fn all<K: Eq + Hash, V, S: BuildHasher>(map: &LinkedHashMap<K, V, S>) -> Self
        ensures stands { StandsIn (λ n. n) map.now.nodes result }
        ensures rest { walk_in (λ n. n) map.now result
            ≡ writing_walk (state_of map.now) 0 (length (entries_of map.now)) }
    {
        PlacesLeft {
            first: map.list.front().unwrap_or(Node::nowhere()),
            last: map.list.back().unwrap_or(Node::nowhere()),
            left: map.list.len(),
        }
    }

    /// Takes the first node off and returns it, or returns `None` if none is left.
    #[inline(always)]
    pub(crate) fn take_first<K: Eq + Hash, V, S: BuildHasher>(
        &mut self,
        map: &LinkedHashMap<K, V, S>,
    ) -> Option<Node>
        requires stands { StandsIn (λ n. n) map.now.nodes self.old }
        ensures stands { StandsIn (λ n. n) map.now.nodes self.new }
        ensures takes { TakesPlace map.now (walk_in (λ n. n) map.now self.old)
            (walk_in (λ n. n) map.now self.new)
            (walk_in (λ n. n) map.now self.old).at (after_front (walk_in (λ n. n) map.now self.old)) result }
    {
        if self.left == 0 {
            return None;
        }
        let node = self.first;
        self.first = map.list.after(node);
        self.left -= 1;
        Some(node)
    }

    /// Takes the last node off and returns it, or returns `None` if none is left.
    #[inline(always)]
    pub(crate) fn take_last<K: Eq + Hash, V, S: BuildHasher>(
        &mut self,
        map: &LinkedHashMap<K, V, S>,
    ) -> Option<Node>
        requires stands { StandsIn (λ n. n) map.now.nodes self.old }
        ensures stands { StandsIn (λ n. n) map.now.nodes self.new }
        ensures takes { TakesPlace map.now (walk_in (λ n. n) map.now self.old)
            (walk_in (λ n. n) map.now self.new) (last_place (walk_in (λ n. n) map.now self.old))
            (after_back (walk_in (λ n. n) map.now self.old)) result }
    {
        if self.left == 0 {
            return None;
        }
        let node = self.last;
        self.last = map.list.before(node);
        self.left -= 1;
        Some(node)
    }
}
