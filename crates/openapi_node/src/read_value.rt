//! Nodes from the values of `serde_json`.
ghost use Rattle.std.specs.Prelude.{◌≡◌, ◌⊎◌, ◌++◌, ◌∷◌, [], IfOk, OnOk, IfErr, None, string_bytes};
ghost use Rattle.serde_json.specs.Data.{array, object};
ghost use Rattle.serde_json.specs.Find.{as_integer};
ghost use Rattle.serde_json.specs.View.{view, number_view, items_view, members_view};
ghost use Rattle.openapi_map.specs.Entries.{get};
ghost use Rattle.openapi_node.specs.Fault.{IsMemory};
ghost use Rattle.openapi_node.specs.Json.{IsTreeOf, IsNotWhole};
ghost use Rattle.openapi_node.specs.Tree.{list, items_of, members_of, text as text_tree, object as object_tree};

use crate::fault::{Cause, Fault, Result};
use crate::node::Node;
use crate::whole::Whole;
use openapi_map::OrderedMap;
use serde_json::{Map, Number, Value};
use std::alloc::Global;

impl Node {
    /// Creates the node of a value of `serde_json`, with the members of each object in the order of that value.
    ///
    /// # Errors
    ///
    /// Returns a fault with [`Cause::NotWhole`] at the location of a number that `serde_json` returns neither as an
    /// `i64` nor as a `u64`. Such numbers are `1.0`, `1e2` and `-0`. If an allocation fails, the fault has
    /// [`Cause::Memory`] and the empty location.
    pub fn from_value(alloc: Global, value: &Value) -> Result<Node>
        ensures ok { IfOk result (IsTreeOf (view value.now)) }
        ensures err { IfErr result (λ f. IsMemory f ⊎ IsNotWhole (view value.now) f) }
    {
        read_node(alloc, value)
    }
}

/// Returns the number, or `None` if it fits neither an `i64` nor a `u64`.
fn read_whole(number: &Number) -> Option<Whole>
    ensures { result ≡ as_integer (number_view number.now) }
{
    match number.as_u64() {
        Some(n) => Some(Whole::from(n)),
        None => match number.as_i64() {
            Some(n) => Some(Whole::from(n)),
            None => None,
        },
    }
}

/// Returns a node with a copy of the text.
fn read_text(alloc: Global, text: &String) -> Result<Node>
    ensures ok { IfOk result (λ n. n ≡ text_tree (string_bytes text.now)) }
    ensures err { IfErr result IsMemory }
{
    match text.clone() {
        Ok(text) => Ok(Node::text(text)),
        Err(_) => Err(Fault::memory(alloc)),
    }
}

/// Puts a node last in a list.
fn push_node(alloc: Global, nodes: &mut Vec<Node>, node: Node) -> Result<()>
    ensures ok { OnOk result (nodes.new.items ≡ nodes.old.items ++ node ∷ []) }
    ensures err { IfErr result IsMemory }
{
    match nodes.push(node) {
        Ok(()) => Ok(()),
        Err(_) => Err(Fault::memory(alloc)),
    }
}

/// Puts a node last in an object, at a copy of a name that the object lacks.
fn push_member(alloc: Global, nodes: &mut OrderedMap<Node>, name: &String, node: Node) -> Result<()>
    requires { get (string_bytes name.now) nodes.old ≡ None }
    ensures ok { OnOk result (nodes.new ≡ nodes.old ++ (string_bytes name.now, node) ∷ []) }
    ensures err { IfErr result IsMemory }
{
    let Ok(name) = name.clone() else {
        return Err(Fault::memory(alloc));
    };
    match nodes.push_new(name, node) {
        Ok(()) => Ok(()),
        Err(_) => Err(Fault::memory(alloc)),
    }
}

#[cycle(read)]
fn read_node(alloc: Global, value: &Value) -> Result<Node>
    ensures ok { IfOk result (IsTreeOf (view value.now)) }
    ensures err { IfErr result (λ f. IsMemory f ⊎ IsNotWhole (view value.now) f) }
{
    match value {
        Value::Null => Ok(Node::null()),
        Value::Bool(flag) => Ok(Node::flag(*flag)),
        Value::Number(number) => match read_whole(number) {
            Some(whole) => Ok(Node::whole(whole)),
            None => Err(Fault::new(alloc, Cause::NotWhole)),
        },
        Value::String(text) => read_text(alloc, text),
        Value::Array(items) => match read_items(alloc, items) {
            Ok(items) => Ok(Node::list(items)),
            Err(fault) => Err(fault),
        },
        Value::Object(members) => match read_members(alloc, members) {
            Ok(members) => Ok(Node::object(members)),
            Err(fault) => Err(fault),
        },
    }
}

#[cycle(read)]
fn read_items(alloc: Global, items: &Vec<Value>) -> Result<Vec<Node>>
    ensures ok { IfOk result (λ v. IsTreeOf (array (items_view items.now.items)) (list (items_of v.items))) }
    ensures err { IfErr result (λ f. IsMemory f ⊎ IsNotWhole (array (items_view items.now.items)) f) }
{
    let Ok(mut nodes) = Vec::with_capacity(alloc, items.len()) else {
        return Err(Fault::memory(alloc));
    };
    for (index, item) in items.iter().enumerate() {
        match read_node(alloc, item) {
            Ok(node) => push_node(alloc, &mut nodes, node)?,
            Err(fault) => return Err(fault.at_index(alloc, index)),
        }
    }
    Ok(nodes)
}

#[cycle(read)]
fn read_members(alloc: Global, members: &Map<String, Value>) -> Result<OrderedMap<Node>>
    ensures ok { IfOk result (λ m. IsTreeOf (object (members_view members.now.entries)) (object_tree (members_of m))) }
    ensures err { IfErr result (λ f. IsMemory f ⊎ IsNotWhole (object (members_view members.now.entries)) f) }
{
    let Ok(mut nodes) = OrderedMap::with_capacity(alloc, members.len()) else {
        return Err(Fault::memory(alloc));
    };
    for (name, member) in members.iter() {
        match read_node(alloc, member) {
            Ok(node) => push_member(alloc, &mut nodes, name, node)?,
            Err(fault) => return Err(fault.at_name(alloc, name.as_str())),
        }
    }
    Ok(nodes)
}
