//! Clones of nodes, which are not counted. They are for the clones of document types and for writers.
ghost use Rattle.std.specs.Prelude.{◌≡◌, IfOk};

use crate::node::{Node, Shape};
use openapi_map::OrderedMap;
use std::alloc::AllocError;

impl Clone for Node {
    ghost is_clone = { λ n m. m ≡ n };

    fn clone(&self) -> Result<Node, AllocError> {
        clone_node(self)
    }
}

// An equal node, with the members of each object in their order. The error: a growth was refused.
#[cycle(clone)]
fn clone_node(node: &Node) -> Result<Node, AllocError>
    ensures { IfOk result (λ n. n ≡ node.now) }
{
    match &node.shape {
        Shape::Null => Ok(Node::null()),
        Shape::Flag(value) => Ok(Node::flag(*value)),
        Shape::Whole(value) => Ok(Node::whole(*value)),
        Shape::Text(value) => Ok(Node::text(value.clone()?)),
        Shape::List(items) => Ok(Node::list(clone_items(items)?)),
        Shape::Object(members) => Ok(Node::object(clone_members(members)?)),
    }
}

#[cycle(clone)]
fn clone_items(items: &Vec<Node>) -> Result<Vec<Node>, AllocError>
    ensures { IfOk result (λ v. v.items ≡ items.now.items) }
{
    let mut clones = Vec::with_capacity(*items.allocator(), items.len())?;
    for item in items {
        clones.push(clone_node(item)?)?;
    }
    Ok(clones)
}

#[cycle(clone)]
fn clone_members(members: &OrderedMap<Node>) -> Result<OrderedMap<Node>, AllocError>
    ensures { IfOk result (λ m. m ≡ members.now) }
{
    let mut clones = OrderedMap::with_capacity(*members.allocator(), members.len())?;
    for i in 0..members.len() {
        let (name, member) = members.entry_at(i);
        let name = String::from_str(*members.allocator(), name)?;
        clones.push_new(name, clone_node(member)?)?;
    }
    Ok(clones)
}
