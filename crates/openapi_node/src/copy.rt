//! Copies of nodes, which are counted.
ghost use Rattle.std.specs.Prelude.{◌≡◌, ◌+◌, ◌≤◌, IfOk, OnOk, IfErr};
ghost use Rattle.openapi_node.specs.Fault.{IsMemory};
ghost use Rattle.openapi_node.specs.View.{shown};
ghost use Rattle.openapi_node.specs.Tree.{size_of, items_size, members_size, items_of, members_of};

use crate::fault::{Fault, Result};
use crate::node::{Node, View};
use crate::steps::Steps;
use openapi_map::OrderedMap;
use std::alloc::{AllocError, Global};

impl Node {
    /// Copies the node, with the members of each object in their order.
    ///
    /// The access count rises by the number of values in the node, itself included. On an error it rises by at most
    /// that.
    ///
    /// # Errors
    ///
    /// Returns a fault with [`Cause::Memory`](crate::Cause::Memory) and the empty location if an allocation fails.
    pub fn copy(&self, alloc: Global, steps: &mut Steps) -> Result<Node>
        ensures ok { IfOk result (λ n. n ≡ self.now) }
        ensures counted { OnOk result (steps.new ≡ steps.old + size_of self.now) }
        ensures rises { steps.old ≤ steps.new }
        ensures bound { steps.new ≤ steps.old + size_of self.now }
        ensures memory { IfErr result IsMemory }
    {
        match copy_node(alloc, self, steps) {
            Ok(node) => Ok(node),
            Err(_) => Err(Fault::memory(alloc)),
        }
    }
}

/// Copies the node that a view shows, which was accessed already.
///
/// The access count rises by the number of values inside the node. On an error it rises by at most that.
///
/// # Errors
///
/// Returns a fault with [`Cause::Memory`](crate::Cause::Memory) and the empty location if an allocation fails.
pub fn copy_shown(alloc: Global, view: &View<'_>, steps: &mut Steps) -> Result<Node>
    ensures ok { IfOk result (λ n. n ≡ shown view.now) }
    ensures counted { OnOk result (steps.new + 1 ≡ steps.old + size_of (shown view.now)) }
    ensures rises { steps.old ≤ steps.new }
    ensures bound { steps.new + 1 ≤ steps.old + size_of (shown view.now) }
    ensures memory { IfErr result IsMemory }
{
    match copy_view(alloc, view, steps) {
        Ok(node) => Ok(node),
        Err(_) => Err(Fault::memory(alloc)),
    }
}

#[cycle(copy)]
fn copy_node(alloc: Global, node: &Node, steps: &mut Steps) -> Result<Node, AllocError>
    ensures ok { IfOk result (λ n. n ≡ node.now) }
    ensures counted { OnOk result (steps.new ≡ steps.old + size_of node.now) }
    ensures rises { steps.old ≤ steps.new }
    ensures bound { steps.new ≤ steps.old + size_of node.now }
{
    let view = node.open(steps);
    copy_view(alloc, &view, steps)
}

#[cycle(copy)]
fn copy_view(alloc: Global, view: &View<'_>, steps: &mut Steps) -> Result<Node, AllocError>
    ensures ok { IfOk result (λ n. n ≡ shown view.now) }
    ensures counted { OnOk result (steps.new + 1 ≡ steps.old + size_of (shown view.now)) }
    ensures rises { steps.old ≤ steps.new }
    ensures bound { steps.new + 1 ≤ steps.old + size_of (shown view.now) }
{
    match view {
        View::Null => Ok(Node::null()),
        View::Flag(value) => Ok(Node::flag(*value)),
        View::Whole(value) => Ok(Node::whole(*value)),
        View::Text(value) => Ok(Node::text(String::from_str(alloc, value)?)),
        View::List(items) => Ok(Node::list(copy_items(alloc, items, steps)?)),
        View::Object(members) => Ok(Node::object(copy_members(alloc, members, steps)?)),
    }
}

#[cycle(copy)]
fn copy_items(alloc: Global, items: &[Node], steps: &mut Steps) -> Result<Vec<Node>, AllocError>
    ensures ok { IfOk result (λ v. v.items ≡ items.now) }
    ensures counted { OnOk result (steps.new ≡ steps.old + items_size (items_of items.now)) }
    ensures rises { steps.old ≤ steps.new }
    ensures bound { steps.new ≤ steps.old + items_size (items_of items.now) }
{
    let mut copies = Vec::with_capacity(alloc, items.len())?;
    for item in items {
        copies.push(copy_node(alloc, item, steps)?)?;
    }
    Ok(copies)
}

#[cycle(copy)]
fn copy_members(
    alloc: Global,
    members: &OrderedMap<Node>,
    steps: &mut Steps,
) -> Result<OrderedMap<Node>, AllocError>
    ensures ok { IfOk result (λ m. m ≡ members.now) }
    ensures counted { OnOk result (steps.new ≡ steps.old + members_size (members_of members.now)) }
    ensures rises { steps.old ≤ steps.new }
    ensures bound { steps.new ≤ steps.old + members_size (members_of members.now) }
{
    let mut copies = OrderedMap::with_capacity(alloc, members.len())?;
    for i in 0..members.len() {
        let (name, member) = members.entry_at(i);
        let name = String::from_str(alloc, name)?;
        copies.push_new(name, copy_node(alloc, member, steps)?)?;
    }
    Ok(copies)
}
