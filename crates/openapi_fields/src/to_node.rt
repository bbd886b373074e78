//! Types that are written as nodes.
use crate::from_node::FromNode;
use openapi_node::{Node, Result};
use std::alloc::Global;

/// A type whose values are written as nodes.
pub trait ToNode: FromNode {
    ghost use Rattle.std.specs.Prelude.{◌≡◌, false};
    ghost use Rattle.openapi_tables.specs.Proper.{is_absent};
    ghost use Rattle.openapi_fields.specs.Returned.{WrittenAs};

    /// Writes the value as a node.
    ///
    /// # Errors
    ///
    /// Returns a [`Fault`](openapi_node::Fault) with [`Cause::NameNotWritable`](openapi_node::Cause::NameNotWritable)
    /// at the location of a name or a status code that would not be read again. If an allocation fails, the fault has
    /// [`Cause::Memory`](openapi_node::Cause::Memory) and the empty location.
    fn to_node(&self, alloc: Global) -> Result<Node>
        ensures written { WrittenAs Self.kind (Self.form_of self.now) result };

    /// A value is never written as nothing.
    ghost there: { (x : Self) → is_absent (Self.form_of x) ≡ false };
}
