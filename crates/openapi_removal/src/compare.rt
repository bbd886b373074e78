//! Whether a JSON value is another one without the members at some locations.
ghost use Rattle.std.specs.Prelude.{◌≡◌, IfOk, IsTrue};
ghost use Rattle.json.specs.Value.{items_view, members_view, value_view};
ghost use Rattle.openapi_removal.specs.Below.{places_of};
ghost use Rattle.openapi_removal.specs.Without.{items_without, json_without, members_without};

use crate::below::{below_item, by_index};
use crate::plan::plans_of;
use json::Value;
use openapi_node::PlaceStep;
use std::alloc::{AllocError, Global};

/// Returns whether `found` is a value without the members at some locations. Numbers are compared as they are written.
///
/// # Errors
///
/// Returns [`AllocError`] if an allocation fails.
#[cycle(compare)]
pub(crate) fn is_without(
    alloc: Global,
    value: &Value<'_>,
    places: &[&[PlaceStep]],
    found: &Value<'_>,
) -> Result<bool, AllocError>
    ensures { IfOk result (λ is. IsTrue is → value_view found.now ≡ json_without (places_of places.now) (value_view value.now)) }
{
    match (value, found) {
        (Value::Null, Value::Null) => Ok(true),
        (Value::Bool(a), Value::Bool(b)) => Ok(*a == *b),
        (Value::Number(a), Value::Number(b)) => Ok(*a == *b),
        (Value::String(a), Value::String(b)) => Ok(*a == *b),
        (Value::Array(a), Value::Array(b)) => items_are_without(alloc, a, places, b),
        (Value::Object(a), Value::Object(b)) => members_are_without(alloc, a, places, b),
        _ => Ok(false),
    }
}

/// Returns whether `found` has the items of an array without the members at some locations.
#[cycle(compare)]
fn items_are_without(
    alloc: Global,
    values: &Vec<Value<'_>>,
    places: &[&[PlaceStep]],
    found: &Vec<Value<'_>>,
) -> Result<bool, AllocError>
    ensures { IfOk result (λ is. IsTrue is
        → items_view found.now.items ≡ items_without (places_of places.now) 0 (items_view values.now.items)) }
{
    if found.len() != values.len() {
        return Ok(false);
    }
    let groups = by_index(alloc, places)?;
    let mut left = values.len();
    while left > 0 {
        left -= 1;
        let inside = below_item(&groups, left, &[]);
        if !is_without(alloc, &values[left], inside, &found[left])? {
            return Ok(false);
        }
    }
    Ok(true)
}

/// Returns whether `found` has the members of an object without the members at some locations.
#[cycle(compare)]
fn members_are_without(
    alloc: Global,
    members: &Vec<(&str, Value<'_>)>,
    places: &[&[PlaceStep]],
    found: &Vec<(&str, Value<'_>)>,
) -> Result<bool, AllocError>
    ensures { IfOk result (λ is. IsTrue is
        → members_view found.now.items ≡ members_without (places_of places.now) (members_view members.now.items)) }
{
    let plans = plans_of(alloc, members, places)?;
    let mut left = members.len();
    let mut rest = found.len();
    while left > 0 {
        left -= 1;
        if let Some(inside) = &plans[left] {
            if rest == 0 {
                return Ok(false);
            }
            rest -= 1;
            let (name, value) = &members[left];
            let (found_name, found_value) = &found[rest];
            if *found_name != *name {
                return Ok(false);
            }
            if !is_without(alloc, value, inside.as_slice(), found_value)? {
                return Ok(false);
            }
        }
    }
    Ok(rest == 0)
}
