//! A node as a type parameter.
ghost use Rattle.std.specs.Prelude.{◌≡◌};

use hashlink_core::Node;

/// A node, as a type parameter. Only `Node` implements it. An entry keeps its node in a field whose type is a
/// parameter with this bound. So a clause can state what the map is after a call that consumes the entry,
/// which it cannot do for a struct that itself contains a pointer.
pub trait AsNode: Copy {
    ghost use Rattle.hashlink_core.specs.Places.{Node};

    ghost node: { Self → Node };

    /// Returns the node.
    fn as_node(self) -> Node
        ensures { result ≡ Self.node self };
}

impl AsNode for Node {
    ghost node = { λ n. n };

    #[inline]
    fn as_node(self) -> Node {
        self
    }
}
