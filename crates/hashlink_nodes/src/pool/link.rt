//! A link. Its node is private to this file, so only `store`, which counts it, can store a link.
ghost use Rattle.std.specs.Prelude.{◌≡◌, ◌+◌};

use crate::link_writes::LinkWrites;
use crate::node::Node;

/// A link of a node, to the next node or to the previous one. A new link leads nowhere.
pub(super) struct Link {
    to: Node,
}

impl Link {
    pub(super) fn nowhere() -> Link {
        Link {
            to: Node::nowhere(),
        }
    }

    #[inline]
    pub(super) fn to(&self) -> Node
        ensures { result ≡ self.now.to }
    {
        self.to
    }

    /// Stores the link, and counts it.
    #[inline]
    pub(super) fn store(&mut self, to: Node, writes: &mut LinkWrites)
        ensures stored { self.new ≡ record { to = to } }
        ensures counted { writes.new.count ≡ writes.old.count + 1 }
    {
        self.to = to;
        writes.raise();
    }
}
