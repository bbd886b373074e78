//! Nodes from JSON text with numbers that a node can't hold.
ghost use Rattle.std.specs.Prelude.{◌≡◌, ◌∷◌, ◌++◌, [], IfErr, IfOk, OnOk, map};
ghost use Rattle.json.specs.Value.{items_view, members_view, value_view};
ghost use Rattle.openapi_node.specs.Fault.{step_of};
ghost use Rattle.openapi_json.specs.Ordered.{tree_of};
ghost use Rattle.openapi_json.specs.Zeros.{ExplainsNoTree, HasData, IsTreeWithZeros, numbers_in, numbers_in_items, numbers_in_members};
ghost use Rattle.openapi_json.specs.Zeros.{numbers_of_entry, of_all, replaced_of, unless_whole};

use crate::copy::copied_place;
use crate::fault::JsonFault;
use crate::in_order::{node_from_json_in_order, node_of, read_value};
use crate::number::whole_of;
use crate::unread::Unread;
use json::{Scratch, Value};
use openapi_map::OrderedMap;
use openapi_node::{Node, PlaceStep};
use std::alloc::{AllocError, Global};

/// A number that a [`Node`] can't hold: one with a fraction or an exponent, one out of the range of 64 bits, or `-0`.
#[derive(Debug, Drop)]
pub struct ReplacedNumber {
    /// The location of the number.
    pub place: Vec<PlaceStep>,
    /// The number as it is written.
    pub text: String,
}

/// The value of a JSON text, with 0 instead of each number that a [`Node`] can't hold.
#[derive(Drop)]
pub struct WithZeros {
    /// The value.
    pub node: Node,
    /// The numbers that are replaced, in the order of the values in `node`.
    pub numbers: Vec<ReplacedNumber>,
}

/// Reads JSON text as [`node_from_json_in_order`] does, but with 0 instead of each number that a [`Node`] can't hold.
///
/// These numbers are returned with their locations. If a name comes again in an object, its last value counts, so a
/// number in an earlier value is not returned.
///
/// A text without such numbers costs as much as with [`node_from_json_in_order`], and any other text about four times
/// as much.
///
/// # Errors
///
/// Returns [`JsonFault::NotJson`] if the bytes are not UTF-8, or no JSON as `serde_json` reads it, and
/// [`JsonFault::Memory`] if an allocation fails. It never returns [`JsonFault::NotWhole`].
pub fn node_with_zeros_in_order(alloc: Global, bytes: &[u8]) -> Result<WithZeros, JsonFault>
    ensures ok { IfOk result (λ w. IsTreeWithZeros bytes.now w.node (map replaced_of w.numbers.items)) }
    ensures err { IfErr result (ExplainsNoTree bytes.now) }
{
    match node_from_json_in_order(alloc, bytes) {
        Ok(node) => Ok(WithZeros {
            node,
            numbers: Vec::new(alloc),
        }),
        Err(JsonFault::NotJson) => Err(JsonFault::NotJson),
        Err(JsonFault::Memory) => Err(JsonFault::Memory),
        Err(JsonFault::NotWhole(_)) => with_zeros(alloc, bytes),
    }
}

/// Reads a JSON text in which a number may not be whole.
fn with_zeros(alloc: Global, bytes: &[u8]) -> Result<WithZeros, JsonFault>
    requires { HasData bytes.now }
    ensures ok { IfOk result (λ w. IsTreeWithZeros bytes.now w.node (map replaced_of w.numbers.items)) }
    ensures err { IfErr result (ExplainsNoTree bytes.now) }
{
    let Ok(text) = simdutf8::compat::from_utf8(bytes) else {
        return Err(JsonFault::NotJson);
    };
    let mut scratch = Scratch::new(alloc);
    let value = match read_value(alloc, text, &mut scratch) {
        Ok(value) => value,
        Err(Unread::Memory) => return Err(JsonFault::Memory),
        Err(Unread::Other) => return Err(JsonFault::NotJson),
    };
    match parts_of(alloc, &value) {
        Ok(parts) => Ok(parts),
        Err(_) => Err(JsonFault::Memory),
    }
}

/// Returns the node of a value, and the numbers that are replaced in it.
fn parts_of(alloc: Global, value: &Value<'_>) -> Result<WithZeros, AllocError>
    ensures node { IfOk result (λ w. w.node ≡ tree_of (value_view value.now)) }
    ensures numbers { IfOk result (λ w. map replaced_of w.numbers.items ≡ numbers_in [] (value_view value.now)) }
{
    let mut place = Vec::new(alloc);
    let numbers = numbers_of(alloc, value, &mut place)?;
    let mut whole = true;
    let node = node_of(alloc, value, &mut whole)?;
    Ok(WithZeros { node, numbers })
}

/// Returns the numbers that are not whole in the value at a location.
#[cycle(numbers)]
fn numbers_of(
    alloc: Global,
    value: &Value<'_>,
    place: &mut Vec<PlaceStep>,
) -> Result<Vec<ReplacedNumber>, AllocError>
    ensures place { OnOk result (place.new.items ≡ place.old.items) }
    ensures numbers { IfOk result (λ v. map replaced_of v.items ≡ numbers_in (map step_of place.old.items) (value_view value.now)) }
{
    match value {
        Value::Null | Value::Bool(_) | Value::String(_) => Ok(Vec::new(alloc)),
        Value::Number(text) => number_at(alloc, text, place.as_slice()),
        Value::Array(values) => numbers_of_items(alloc, values, place),
        Value::Object(members) => numbers_of_members(alloc, members, place),
    }
}

/// Returns the numbers that are not whole in the items of the array at a location.
#[cycle(numbers)]
fn numbers_of_items(
    alloc: Global,
    values: &Vec<Value<'_>>,
    place: &mut Vec<PlaceStep>,
) -> Result<Vec<ReplacedNumber>, AllocError>
    ensures place { OnOk result (place.new.items ≡ place.old.items) }
    ensures numbers { IfOk result (λ v.
        map replaced_of v.items ≡ numbers_in_items (map step_of place.old.items) 0 (items_view values.now.items)) }
{
    let mut numbers = Vec::new(alloc);
    for index in 0..values.len() {
        let value = &values[index];
        let mut more = numbers_below(alloc, PlaceStep::Index(index), value, place)?;
        numbers.append(&mut more)?;
    }
    Ok(numbers)
}

/// Returns the numbers that are not whole in the members of the object at a location. Of one name they are those of the last member.
#[cycle(numbers)]
fn numbers_of_members(
    alloc: Global,
    members: &Vec<(&str, Value<'_>)>,
    place: &mut Vec<PlaceStep>,
) -> Result<Vec<ReplacedNumber>, AllocError>
    ensures place { OnOk result (place.new.items ≡ place.old.items) }
    ensures numbers { IfOk result (λ v.
        map replaced_of v.items ≡ of_all (numbers_in_members (map step_of place.old.items) (members_view members.now.items) [])) }
{
    let mut found = OrderedMap::with_capacity(alloc, members.len())?;
    for member in members {
        let step = PlaceStep::Name(String::from_str(alloc, member.0)?);
        let numbers = numbers_below(alloc, step, &member.1, place)?;
        let name = String::from_str(alloc, member.0)?;
        drop(found.insert(name, numbers)?);
    }
    all_numbers(alloc, found)
}

/// Returns the numbers that are not whole in the value one step below a location.
#[cycle(numbers)]
fn numbers_below(
    alloc: Global,
    step: PlaceStep,
    value: &Value<'_>,
    place: &mut Vec<PlaceStep>,
) -> Result<Vec<ReplacedNumber>, AllocError>
    ensures place { OnOk result (place.new.items ≡ place.old.items) }
    ensures numbers { IfOk result (λ v.
        map replaced_of v.items ≡ numbers_in (map step_of place.old.items ++ step_of step ∷ []) (value_view value.now)) }
{
    place.push(step)?;
    let numbers = numbers_of(alloc, value, place)?;
    place.pop();
    Ok(numbers)
}

/// Returns the numbers of all entries, in their order.
fn all_numbers(
    alloc: Global,
    found: OrderedMap<Vec<ReplacedNumber>>,
) -> Result<Vec<ReplacedNumber>, AllocError>
    ensures { IfOk result (λ v. map replaced_of v.items ≡ of_all (map numbers_of_entry found)) }
{
    let mut all = Vec::new(alloc);
    for (_, mut numbers) in found {
        all.append(&mut numbers)?;
    }
    Ok(all)
}

/// Returns the number at a location, unless it is whole.
fn number_at(
    alloc: Global,
    text: &str,
    place: &[PlaceStep],
) -> Result<Vec<ReplacedNumber>, AllocError>
    ensures { IfOk result (λ v. map replaced_of v.items ≡ unless_whole (map step_of place.now) text.now) }
{
    match whole_of(text) {
        Some(_) => Ok(Vec::new(alloc)),
        None => one_number(alloc, text, place),
    }
}

/// Returns a list of the number at a location.
fn one_number(
    alloc: Global,
    text: &str,
    place: &[PlaceStep],
) -> Result<Vec<ReplacedNumber>, AllocError>
    ensures { IfOk result (λ v. map replaced_of v.items ≡ (map step_of place.now, text.now) ∷ []) }
{
    let place = copied_place(alloc, place)?;
    let text = String::from_str(alloc, text)?;
    let mut numbers = Vec::new(alloc);
    numbers.push(ReplacedNumber { place, text })?;
    Ok(numbers)
}
