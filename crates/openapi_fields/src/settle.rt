//! Nodes in stable form: read, written, read again and written again. Doing so once more changes nothing.
ghost use Rattle.std.specs.Prelude.{◌≡◌, ◌+◌, ◌*◌, ◌≤◌};
ghost use Rattle.openapi_node.specs.Tree.{size_of};
ghost use Rattle.openapi_fields.specs.Returned.{Refuses};
ghost use Rattle.openapi_fields.specs.Settled.{CleanedAs, SettledAs, IsCounted};

use crate::{FromNode, ToNode};
use openapi_node::{Node, Result, Steps};
use std::alloc::Global;

/// Reads a value from a node, and writes it.
fn cleaned<T: ToNode + Drop>(alloc: Global, node: &Node, steps: &mut Steps) -> Result<Node>
    ensures gives { CleanedAs result T.FromNode.kind node.now }
    ensures refuses { Refuses result T.FromNode.kind node.now }
    ensures rises { steps.old + 1 ≤ steps.new }
    ensures count { steps.new ≤ steps.old + 3 * size_of node.now }
{
    match T::from_node(alloc, node, steps) {
        Ok(value) => value.to_node(alloc),
        Err(fault) => Err(fault),
    }
}

/// Reads a value from a node, writes it, and reads and writes the result once more.
fn cleaned_twice<T: ToNode + Drop>(alloc: Global, node: &Node, steps: &mut Steps) -> Result<Node>
    ensures gives { SettledAs result T.FromNode.kind node.now }
    ensures refuses { Refuses result T.FromNode.kind node.now }
    ensures rises { steps.old + 1 ≤ steps.new }
    ensures count { IsCounted T.FromNode.kind node.now steps.old steps.new }
{
    match cleaned::<T>(alloc, node, steps) {
        Ok(once) => cleaned::<T>(alloc, &once, steps),
        Err(fault) => Err(fault),
    }
}

/// A type whose nodes can be brought into stable form: every type that is read and written.
pub trait Settle: ToNode + Drop {
    /// Brings a node into stable form: reads it as a value of the type, writes that, and does both again.
    ///
    /// Settling the stable form again changes nothing. Two nodes have the same stable form if and only if the same
    /// value is read of what each is first written as.
    ///
    /// # Errors
    ///
    /// Returns a [`Fault`](openapi_node::Fault) at the location of a value that breaks a rule of the field tables. Such
    /// a fault comes only if the node does not conform to the kind of the type. If an allocation fails, the fault has
    /// [`Cause::Memory`](openapi_node::Cause::Memory) and the empty location.
    fn settle(alloc: Global, node: &Node, steps: &mut Steps) -> Result<Node>
        ensures gives { SettledAs result Self.FromNode.kind node.now }
        ensures refuses { Refuses result Self.FromNode.kind node.now }
        ensures rises { steps.old + 1 ≤ steps.new }
        ensures count { IsCounted Self.FromNode.kind node.now steps.old steps.new }
    {
        cleaned_twice::<Self>(alloc, node, steps)
    }
}

impl<T: ToNode + Drop> Settle for T {}
