//! Conversions into nodes.
ghost use Rattle.std.specs.Prelude.{◌≡◌, pos, string_bytes, IfOk};
ghost use Rattle.openapi_node.specs.Tree.{flag, whole, text, list, object, items_of, members_of};

use crate::node::Node;
use crate::whole::Whole;
use openapi_map::OrderedMap;
use std::alloc::{AllocError, Global};

/// Converts to the literal `true` or `false`.
impl From<bool> for Node {
    ghost from_gives = { λ value node. node ≡ flag value };

    fn from(value: bool) -> Node {
        Node::flag(value)
    }
}

/// Converts to a number.
impl From<Whole> for Node {
    ghost from_gives = { λ value node. node ≡ whole value };

    fn from(value: Whole) -> Node {
        Node::whole(value)
    }
}

/// Converts to a number.
impl From<i32> for Node {
    ghost from_gives = { λ value node. node ≡ whole value };

    fn from(value: i32) -> Node {
        Node::from(i64::from(value))
    }
}

/// Converts to a number.
impl From<i64> for Node {
    ghost from_gives = { λ value node. node ≡ whole value };

    fn from(value: i64) -> Node {
        Node::whole(Whole::from(value))
    }
}

/// Converts to a number.
impl From<u32> for Node {
    ghost from_gives = { λ value node. node ≡ whole (pos value) };

    fn from(value: u32) -> Node {
        Node::from(u64::from(value))
    }
}

/// Converts to a number.
impl From<u64> for Node {
    ghost from_gives = { λ value node. node ≡ whole (pos value) };

    fn from(value: u64) -> Node {
        Node::whole(Whole::from(value))
    }
}

/// Converts to a number.
impl From<usize> for Node {
    ghost from_gives = { λ value node. node ≡ whole (pos value) };

    fn from(value: usize) -> Node {
        Node::from(value as u64)
    }
}

/// Converts to a string.
impl From<String> for Node {
    ghost from_gives = { λ value node. node ≡ text (string_bytes value) };

    fn from(value: String) -> Node {
        Node::text(value)
    }
}

/// Converts to an array of these values, in their order.
impl From<Vec<Node>> for Node {
    ghost from_gives = { λ items node. node ≡ list (items_of items.items) };

    fn from(items: Vec<Node>) -> Node {
        Node::list(items)
    }
}

/// Converts to an object of these members, in their order.
impl From<OrderedMap<Node>> for Node {
    ghost from_gives = { λ members node. node ≡ object (members_of members) };

    fn from(members: OrderedMap<Node>) -> Node {
        Node::object(members)
    }
}

impl Node {
    /// Creates a string node with a copy of this text.
    ///
    /// A [`String`] that the caller owns already becomes a node without a copy, by [`Node::text`] or [`From`].
    ///
    /// # Errors
    ///
    /// Returns [`AllocError`] if the allocation of the copy fails.
    pub fn try_from_str(alloc: Global, value: &str) -> Result<Node, AllocError>
        ensures { IfOk result (λ node. node ≡ text value.now) }
    {
        Ok(Node::text(String::from_str(alloc, value)?))
    }
}
