//! Nodes from JSON text, with the members of each object in the order of the text.
ghost use Rattle.std.specs.Prelude.{◌≡◌, ◌&&◌, [], None, Some, Err, IfOk, IfErr, OnOk};
ghost use Rattle.json.specs.Value.{value_view, items_view, members_view};
ghost use Rattle.openapi_json.specs.Ordered.{all_whole, entries_of, IsTreeInOrder, items_whole, members_whole, parsed};
ghost use Rattle.openapi_json.specs.Ordered.{tree_of, tree_of_number, trees_of, writes_whole};
ghost use Rattle.openapi_json.specs.Reading.{Explains};

use crate::by_value::node_from_json;
use crate::fault::JsonFault;
use crate::number::whole_of;
use crate::read::MAX_DEPTH;
use crate::unread::Unread;
use json::{Error, Reader, Scratch, Value};
use openapi_map::OrderedMap;
use openapi_node::{Node, Whole};
use std::alloc::{AllocError, Global};

/// Reads JSON text as a node, with the members of each object in the order of the text.
///
/// If a name comes again in an object, its last value counts, at the position of the first. The values are those that
/// [`node_from_json`] reads.
///
/// # Errors
///
/// Returns [`JsonFault::NotJson`] if the bytes are not UTF-8, or no JSON as `serde_json` reads it. Returns
/// [`JsonFault::NotWhole`] with the location of a number that a node can't hold, and [`JsonFault::Memory`] if an
/// allocation fails.
pub fn node_from_json_in_order(alloc: Global, bytes: &[u8]) -> Result<Node, JsonFault>
    ensures ok { IfOk result (IsTreeInOrder bytes.now) }
    ensures err { IfErr result (Explains bytes.now) }
{
    let Ok(text) = simdutf8::compat::from_utf8(bytes) else {
        return Err(JsonFault::NotJson);
    };
    let mut scratch = Scratch::new(alloc);
    let value = match read_value(alloc, text, &mut scratch) {
        Ok(value) => value,
        Err(Unread::Memory) => return Err(JsonFault::Memory),
        Err(Unread::Other) => return Err(JsonFault::NotJson),
    };
    let mut whole = true;
    let Ok(node) = node_of(alloc, &value, &mut whole) else {
        return Err(JsonFault::Memory);
    };
    if whole {
        return Ok(node);
    }
    // A number that is not whole is no fault where its name comes again.
    match node_from_json(alloc, bytes) {
        Ok(_) => Ok(node),
        Err(fault) => Err(fault),
    }
}

/// Reads the value of a whole text.
pub(crate) fn read_value<'a>(
    alloc: Global,
    text: &'a str,
    scratch: &'a mut Scratch,
) -> Result<Value<'a>, Unread>
    ensures ok { IfOk result (λ v. parsed text.now ≡ Some (value_view v)) }
    ensures other { result ≡ Err Unread.Other → parsed text.now ≡ None }
{
    let Ok(mut reader) = Reader::new(text, scratch) else {
        return Err(Unread::Memory);
    };
    let value = match Value::read(alloc, &mut reader, MAX_DEPTH) {
        Ok(value) => value,
        Err(Error::Invalid) => return Err(Unread::Other),
        Err(_) => return Err(Unread::Memory),
    };
    if reader.next().is_some() {
        return Err(Unread::Other);
    }
    Ok(value)
}

/// Returns the node of the text of a number. If the number is not whole, it is 0, and `whole` becomes false.
fn node_of_number(text: &str, whole: &mut bool) -> Node
    ensures node { result ≡ tree_of_number text.now }
    ensures whole { whole.new ≡ (whole.old && writes_whole text.now) }
{
    match whole_of(text) {
        Some(value) => Node::whole(value),
        None => {
            *whole = false;
            Node::whole(Whole::from(0u64))
        }
    }
}

/// Returns the node of a value, with 0 in place of each number that is not whole. `whole` becomes false if there is one.
#[cycle(make)]
pub(crate) fn node_of(
    alloc: Global,
    value: &Value<'_>,
    whole: &mut bool,
) -> Result<Node, AllocError>
    ensures node { IfOk result (λ n. n ≡ tree_of (value_view value.now)) }
    ensures whole { OnOk result (whole.new ≡ (whole.old && all_whole (value_view value.now))) }
{
    match value {
        Value::Null => Ok(Node::null()),
        Value::Bool(flag) => Ok(Node::flag(*flag)),
        Value::Number(text) => Ok(node_of_number(text, whole)),
        Value::String(text) => Ok(Node::text(String::from_str(alloc, text)?)),
        Value::Array(values) => Ok(Node::list(nodes_of(alloc, values, whole)?)),
        Value::Object(members) => Ok(Node::object(members_of(alloc, members, whole)?)),
    }
}

/// Returns the nodes of the values of an array.
#[cycle(make)]
fn nodes_of(
    alloc: Global,
    values: &Vec<Value<'_>>,
    whole: &mut bool,
) -> Result<Vec<Node>, AllocError>
    ensures nodes { IfOk result (λ v. v.items ≡ trees_of (items_view values.now.items)) }
    ensures whole { OnOk result (whole.new ≡ (whole.old && items_whole (items_view values.now.items))) }
{
    let mut nodes = Vec::with_capacity(alloc, values.len())?;
    for value in values {
        let node = node_of(alloc, value, whole)?;
        nodes.push(node)?;
    }
    Ok(nodes)
}

/// Returns the members of an object, of one name the last in the place of the first.
#[cycle(make)]
fn members_of(
    alloc: Global,
    members: &Vec<(&str, Value<'_>)>,
    whole: &mut bool,
) -> Result<OrderedMap<Node>, AllocError>
    ensures nodes { IfOk result (λ m. m ≡ entries_of (members_view members.now.items) []) }
    ensures whole { OnOk result (whole.new ≡ (whole.old && members_whole (members_view members.now.items))) }
{
    let mut nodes = OrderedMap::with_capacity(alloc, members.len())?;
    for member in members {
        let name = String::from_str(alloc, member.0)?;
        let node = node_of(alloc, &member.1, whole)?;
        drop(nodes.insert(name, node)?);
    }
    Ok(nodes)
}
