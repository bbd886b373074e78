//! Equality of nodes as JSON values: the order of an object's members does not count. It is not counted.
ghost use Rattle.std.specs.Prelude.{◌≡◌, ◌↔◌, IsTrue};
ghost use Rattle.openapi_node.specs.Equal.{same_value, same_value-per};
ghost use Rattle.openapi_node.specs.Json.{data_of};
ghost use Rattle.openapi_node.specs.Tree.{list, object, items_of, members_of};

use crate::node::{Node, Shape};
use openapi_map::OrderedMap;

impl PartialEq for Node {
    ghost eq = { same_value };

    ghost laws = { same_value-per };

    fn eq(&self, other: &Node) -> bool {
        equal_nodes(self, other)
    }
}

#[cycle(equal)]
fn equal_nodes(node: &Node, other: &Node) -> bool
    ensures { IsTrue result ↔ (data_of node.now ≡ data_of other.now) }
{
    match (&node.shape, &other.shape) {
        (Shape::Null, Shape::Null) => true,
        (Shape::Flag(value), Shape::Flag(other)) => value == other,
        (Shape::Whole(value), Shape::Whole(other)) => value == other,
        (Shape::Text(value), Shape::Text(other)) => value == other,
        (Shape::List(items), Shape::List(others)) => equal_items(items, others),
        (Shape::Object(members), Shape::Object(others)) => equal_members(members, others),
        _ => false,
    }
}

#[cycle(equal)]
fn equal_items(items: &Vec<Node>, others: &Vec<Node>) -> bool
    ensures { IsTrue result
        ↔ (data_of (list (items_of items.now.items)) ≡ data_of (list (items_of others.now.items))) }
{
    if items.len() != others.len() {
        return false;
    }
    for i in 0..items.len() {
        if !equal_nodes(&items[i], &others[i]) {
            return false;
        }
    }
    true
}

#[cycle(equal)]
fn equal_members(members: &OrderedMap<Node>, others: &OrderedMap<Node>) -> bool
    ensures { IsTrue result
        ↔ (data_of (object (members_of members.now)) ≡ data_of (object (members_of others.now))) }
{
    if members.len() != others.len() {
        return false;
    }
    for i in 0..members.len() {
        let (name, member) = members.entry_at(i);
        let Some(other) = others.get(name) else {
            return false;
        };
        if !equal_nodes(member, other) {
            return false;
        }
    }
    true
}
