//! Nodes to the values of `serde_json`.
ghost use Rattle.std.specs.Prelude.{◌≡◌, ◌+◌, ◌≤◌, map, IfOk, OnOk, IfErr};
ghost use Rattle.serde_json.specs.Data.{number, no_members};
ghost use Rattle.serde_json.specs.Find.{of_integer};
ghost use Rattle.serde_json.specs.View.{view, items_view, members_view};
ghost use Rattle.openapi_node.specs.Fault.{IsMemory};
ghost use Rattle.openapi_node.specs.Json.{data_of, items_data, members_data};
ghost use Rattle.openapi_node.specs.Pairs.{pair_view, pair_data, put_all};
ghost use Rattle.openapi_node.specs.Tree.{items_of, members_of, size_of, items_size, members_size};

use crate::fault::{Fault, Result};
use crate::node::{Node, View};
use crate::steps::Steps;
use crate::whole::Whole;
use openapi_map::OrderedMap;
use serde_json::{Map, Value};
use std::alloc::{AllocError, Global};

impl Node {
    /// Creates the same value for `serde_json`, which keeps the members of an object in the order of their names.
    ///
    /// The access count rises by the number of values in the node, itself included. On an error it rises by at most
    /// that.
    ///
    /// # Errors
    ///
    /// Returns a fault with [`Cause::Memory`](crate::Cause::Memory) and the empty location if an allocation fails.
    pub fn to_value(&self, alloc: Global, steps: &mut Steps) -> Result<Value>
        ensures ok { IfOk result (λ v. view v ≡ data_of self.now) }
        ensures counted { OnOk result (steps.new ≡ steps.old + size_of self.now) }
        ensures rises { steps.old ≤ steps.new }
        ensures bound { steps.new ≤ steps.old + size_of self.now }
        ensures memory { IfErr result IsMemory }
    {
        match write_node(alloc, self, steps) {
            Ok(value) => Ok(value),
            Err(_) => Err(Fault::memory(alloc)),
        }
    }
}

/// Returns the number as `serde_json` keeps it.
fn write_whole(whole: Whole) -> Value
    ensures { view result ≡ number (of_integer whole) }
{
    match whole.as_u64() {
        Some(n) => Value::from(n),
        None => Value::from(whole.value() as i64),
    }
}

/// Returns the map of all pairs.
fn map_of(alloc: Global, pairs: Vec<(String, Value)>) -> Result<Map<String, Value>, AllocError>
    ensures { IfOk result (λ m. members_view m.entries ≡ put_all no_members (map pair_view pairs.items)) }
{
    pairs.into_iter().collect(alloc)
}

#[cycle(write)]
fn write_node(alloc: Global, node: &Node, steps: &mut Steps) -> Result<Value, AllocError>
    ensures ok { IfOk result (λ v. view v ≡ data_of node.now) }
    ensures counted { OnOk result (steps.new ≡ steps.old + size_of node.now) }
    ensures rises { steps.old ≤ steps.new }
    ensures bound { steps.new ≤ steps.old + size_of node.now }
{
    match node.open(steps) {
        View::Null => Ok(Value::Null),
        View::Flag(value) => Ok(Value::Bool(value)),
        View::Whole(value) => Ok(write_whole(value)),
        View::Text(value) => Ok(Value::String(String::from_str(alloc, value)?)),
        View::List(items) => Ok(Value::Array(write_items(alloc, items, steps)?)),
        View::Object(members) => Ok(Value::Object(write_members(alloc, members, steps)?)),
    }
}

#[cycle(write)]
fn write_items(alloc: Global, items: &[Node], steps: &mut Steps) -> Result<Vec<Value>, AllocError>
    ensures ok { IfOk result (λ v. items_view v.items ≡ items_data (items_of items.now)) }
    ensures counted { OnOk result (steps.new ≡ steps.old + items_size (items_of items.now)) }
    ensures rises { steps.old ≤ steps.new }
    ensures bound { steps.new ≤ steps.old + items_size (items_of items.now) }
{
    let mut values = Vec::with_capacity(alloc, items.len())?;
    for item in items {
        values.push(write_node(alloc, item, steps)?)?;
    }
    Ok(values)
}

#[cycle(write)]
fn write_members(
    alloc: Global,
    members: &OrderedMap<Node>,
    steps: &mut Steps,
) -> Result<Map<String, Value>, AllocError>
    ensures ok { IfOk result (λ m. members_view m.entries ≡ members_data (members_of members.now) no_members) }
    ensures counted { OnOk result (steps.new ≡ steps.old + members_size (members_of members.now)) }
    ensures rises { steps.old ≤ steps.new }
    ensures bound { steps.new ≤ steps.old + members_size (members_of members.now) }
{
    map_of(alloc, write_pairs(alloc, members, steps)?)
}

#[cycle(write)]
fn write_pairs(
    alloc: Global,
    members: &OrderedMap<Node>,
    steps: &mut Steps,
) -> Result<Vec<(String, Value)>, AllocError>
    ensures ok { IfOk result (λ v. map pair_view v.items ≡ map pair_data members.now) }
    ensures counted { OnOk result (steps.new ≡ steps.old + members_size (members_of members.now)) }
    ensures rises { steps.old ≤ steps.new }
    ensures bound { steps.new ≤ steps.old + members_size (members_of members.now) }
{
    let mut pairs = Vec::with_capacity(alloc, members.len())?;
    for i in 0..members.len() {
        let (name, member) = members.entry_at(i);
        let name = String::from_str(alloc, name)?;
        pairs.push((name, write_node(alloc, member, steps)?))?;
    }
    Ok(pairs)
}
