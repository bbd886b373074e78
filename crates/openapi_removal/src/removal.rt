//! A document without the members that reading drops.
ghost use Rattle.std.specs.Prelude.{◌≡◌, [], Some, IfErr, IfOk, IsTrue, string_bytes};
ghost use Rattle.json.specs.Json.{Json};
ghost use Rattle.json.specs.Value.{value_view};
ghost use Rattle.openapi_json.specs.Ordered.{parsed};
ghost use Rattle.openapi_removal.specs.Below.{places_of};
ghost use Rattle.openapi_removal.specs.Cleaned.{IsCut, IsTreeOfText, IsWithoutDropped, places_in};
ghost use Rattle.openapi_removal.specs.Faults.{Explains};
ghost use Rattle.openapi_removal.specs.Without.{json_without};

use crate::compare::is_without;
use crate::cut::cut;
use crate::fault::{CleanFault, Failure};
use crate::gaps::gaps_of;
use crate::value::read_value;
use json::{Scratch, Value};
use openapi_faults::laws::dropped_ignored;
use openapi_faults::{Dropped, Kind, TableName, dropped_members};
use openapi_json::{JsonFault, node_with_zeros_in_order};
use openapi_node::{Node, PlaceStep, Steps};
use std::alloc::{AllocError, Global};

/// The kind of a whole document.
const DOCUMENT: Kind = Kind::Object(TableName::OpenAPI);

/// A document without the members that reading drops.
#[derive(Debug, Drop)]
pub struct Cleaned {
    /// The text of the document. Nothing of it is new, and what is left of the source is in its order.
    pub text: String,
    /// The members that were removed, as [`dropped_members`] returns them.
    pub dropped: Vec<Dropped>,
}

/// Returns the text of an OpenAPI document in JSON without the members that reading drops.
///
/// These are the members that [`dropped_members`] returns for the document: unknown ones, those beside `$ref`, and the
/// second of two that exclude each other. If the name of such a member comes again in its object, every member of that
/// name is removed. All other bytes stay as they are. The same is read of the document without these members, and
/// reading the result drops nothing.
///
/// The result is read again and compared with the source before it is returned. That reads the text three times.
///
/// # Errors
///
/// Returns [`CleanFault::NotJson`] if the bytes are not JSON in UTF-8, and [`CleanFault::Memory`] if an allocation
/// fails. Returns [`CleanFault::Internal`] if the result does not read as the source without these members, which is a
/// bug.
pub fn without_dropped(
    alloc: Global,
    bytes: &[u8],
    steps: &mut Steps,
) -> Result<Cleaned, CleanFault>
    ensures ok { IfOk result (IsWithoutDropped bytes.now) }
    ensures err { IfErr result (Explains bytes.now) }
{
    let node = read_node(alloc, bytes)?;
    node.names_differ();
    dropped_ignored();
    let dropped = dropped_members(alloc, DOCUMENT, &node, steps)?;
    let text = text_without(alloc, bytes, dropped.as_slice())?;
    Ok(Cleaned { text, dropped })
}

/// Reads a document, with 0 in place of each number that a [`Node`] can't hold.
fn read_node(alloc: Global, bytes: &[u8]) -> Result<Node, CleanFault>
    ensures ok { IfOk result (IsTreeOfText bytes.now) }
    ensures err { IfErr result (Explains bytes.now) }
{
    match node_with_zeros_in_order(alloc, bytes) {
        Ok(document) => Ok(document.node),
        Err(JsonFault::NotJson | JsonFault::NotWhole(_)) => Err(CleanFault::NotJson),
        Err(JsonFault::Memory) => Err(CleanFault::Memory),
    }
}

/// Returns the text of a document without some members.
fn text_without(alloc: Global, bytes: &[u8], dropped: &[Dropped]) -> Result<String, Failure>
    ensures text { (j : Json) → parsed bytes.now ≡ Some j
        → IfOk result (λ s. parsed (string_bytes s) ≡ Some (json_without (places_in dropped.now) j)) }
    ensures cut { IfOk result (λ s. IsCut bytes.now (string_bytes s)) }
    ensures unchanged { dropped.now ≡ [] → IfOk result (λ s. string_bytes s ≡ bytes.now) }
{
    let Ok(source) = simdutf8::compat::from_utf8(bytes) else {
        return Err(Failure::Internal);
    };
    let places = places_of(alloc, dropped)?;
    let mut scratch = Scratch::new(alloc);
    let value = read_value(alloc, source, &mut scratch)?;
    let gaps = gaps_of(alloc, source, &value, places.as_slice())?;
    let bytes = cut(alloc, bytes, gaps.as_slice())?;
    let Ok(text) = String::from_utf8(bytes) else {
        return Err(Failure::Internal);
    };
    if !reads_without(alloc, text.as_str(), &value, places.as_slice())? {
        return Err(Failure::Internal);
    }
    Ok(text)
}

/// Returns the locations of members.
fn places_of(alloc: Global, dropped: &[Dropped]) -> Result<Vec<&[PlaceStep]>, AllocError>
    ensures { IfOk result (λ v. places_of v.items ≡ places_in dropped.now) }
{
    let mut places = Vec::with_capacity(alloc, dropped.len())?;
    for member in dropped {
        places.push(member.place.as_slice())?;
    }
    Ok(places)
}

/// Returns whether a text reads as a value without the members at some locations.
fn reads_without(
    alloc: Global,
    text: &str,
    value: &Value<'_>,
    places: &[&[PlaceStep]],
) -> Result<bool, Failure>
    ensures { IfOk result (λ is. IsTrue is
        → parsed text.now ≡ Some (json_without (places_of places.now) (value_view value.now))) }
{
    let mut scratch = Scratch::new(alloc);
    let found = read_value(alloc, text, &mut scratch)?;
    let is = is_without(alloc, value, places, &found)?;
    Ok(is)
}
