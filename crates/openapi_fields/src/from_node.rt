//! Types that are read from nodes.
use openapi_node::{Node, Result, Steps, View};
use std::alloc::Global;

/// A type whose values are read from nodes, as a kind of the field tables.
pub trait FromNode: Sized {
    ghost use Rattle.std.specs.Prelude.{◌≡◌, ◌+◌, ◌*◌, ◌≤◌, true};
    ghost use Rattle.openapi_node.specs.Tree.{size_of};
    ghost use Rattle.openapi_node.specs.View.{shown};
    ghost use Rattle.openapi_tables.specs.Form.{Form};
    ghost use Rattle.openapi_tables.specs.Kind.{Kind};
    ghost use Rattle.openapi_tables.specs.Sound.{sound};
    ghost use Rattle.openapi_tables.specs.Tables.{final_tables};
    ghost use Rattle.openapi_fields.specs.Returned.{ReadAs, Refuses, RisesBelow, looks};

    /// The kind that the type is read as.
    ghost kind: { Kind };

    /// The form of a value: its public fields.
    ghost form_of: { Self → Form };

    /// Reads a value from the view of a node that was opened already.
    ///
    /// # Errors
    ///
    /// Returns a [`Fault`](openapi_node::Fault) at the location of a value that breaks a rule of the field tables. If
    /// an allocation fails, the fault has [`Cause::Memory`](openapi_node::Cause::Memory) and the empty location.
    fn from_view(alloc: Global, view: &View<'_>, steps: &mut Steps) -> Result<Self>
        ensures reads { ReadAs form_of result kind (shown view.now) }
        ensures count { RisesBelow steps.old steps.new (looks kind + 3 * size_of (shown view.now)) };

    /// Reads a value from a node.
    ///
    /// The number of node accesses is at most three times the number of values in the node, itself included.
    ///
    /// # Errors
    ///
    /// Returns a [`Fault`](openapi_node::Fault) at the location of a value that breaks a rule of the field tables. Such
    /// a fault comes only if the node does not conform to the kind of the type. If an allocation fails, the fault has
    /// [`Cause::Memory`](openapi_node::Cause::Memory) and the empty location.
    fn from_node(alloc: Global, node: &Node, steps: &mut Steps) -> Result<Self>
        ensures reads { ReadAs form_of result kind node.now }
        ensures refuses { Refuses result kind node.now }
        ensures rises { steps.old + 1 ≤ steps.new }
        ensures count { steps.new ≤ steps.old + 3 * size_of node.now }
    {
        let view = node.open(steps);
        Self::from_view(alloc, &view, steps)
    }

    /// The kind is well made.
    ghost well_made: { sound final_tables kind ≡ true };
}
