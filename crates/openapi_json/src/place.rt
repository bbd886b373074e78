//! How many tokens of a JSON value come before the one at a place in it.
ghost use Rattle.std.specs.Prelude.{◌≡◌, ◌<◌, ◌+◌, ◌^◌, length, map, None, IfSome};
ghost use Rattle.json.specs.Find.{get_member};
ghost use Rattle.json.specs.Json.{array, object};
ghost use Rattle.json.specs.Tree.{json_tokens};
ghost use Rattle.json.specs.Value.{value_view, items_view, members_view};
ghost use Rattle.openapi_node.specs.Fault.{step_of};
ghost use Rattle.openapi_node.specs.Place.{indexed, named};
ghost use Rattle.openapi_json.specs.Positions.{child, flat, IsLastNamed, item_tokens, member_tokens, StepsTo, tokens_before};

use json::Value;
use openapi_node::PlaceStep;

/// A value inside another one.
#[derive(Clone, Copy, Drop)]
struct Inside<'v, 'a> {
    /// The value.
    value: &'v Value<'a>,
    /// How many tokens of the other one come before it.
    number: usize,
}

/// Returns how many tokens of a value come before the one at a place in it.
pub(crate) fn number_at(value: &Value<'_>, place: &[PlaceStep]) -> Option<usize>
    requires { length (json_tokens (value_view value.now)) < 2 ^ 64 }
    ensures { result ≡ tokens_before (map step_of place.now) (value_view value.now) }
{
    let [step, more @ ..] = place else {
        return Some(0);
    };
    let inside = step_into(value, step)?;
    let number = number_at(inside.value, more)?;
    Some(inside.number + number)
}

/// Returns the value to which a step leads.
fn step_into<'v, 'a>(value: &'v Value<'a>, step: &PlaceStep) -> Option<Inside<'v, 'a>>
    requires { length (json_tokens (value_view value.now)) < 2 ^ 64 }
    ensures some { IfSome result (λ it.
        StepsTo (step_of step.now) (value_view value.now) it.number (value_view it.value.now)) }
    ensures none { result ≡ None → child (step_of step.now) (value_view value.now) ≡ None }
{
    match (value, step) {
        (Value::Object(members), PlaceStep::Name(name)) => member(
            members.as_slice(),
            name.as_str(),
        ),
        (Value::Array(values), PlaceStep::Index(index)) => item(values.as_slice(), *index),
        _ => None,
    }
}

/// Returns the value of the last member of a name.
fn member<'v, 'a>(members: &'v [(&'a str, Value<'a>)], name: &str) -> Option<Inside<'v, 'a>>
    requires { length (flat member_tokens members.now) + 2 < 2 ^ 64 }
    ensures some { IfSome result (λ it.
        StepsTo (named name.now) (object (members_view members.now)) it.number (value_view it.value.now)) }
    ensures none { result ≡ None → child (named name.now) (object (members_view members.now)) ≡ None }
{
    let index = last_named(members, name)?;
    Some(Inside {
        value: &members[index].1,
        number: 2 + count_members(&members[..index]),
    })
}

/// Returns the index of the last member of a name.
pub(crate) fn last_named(members: &[(&str, Value<'_>)], name: &str) -> Option<usize>
    ensures some { IfSome result (IsLastNamed name.now members.now) }
    ensures none { result ≡ None → get_member name.now (members_view members.now) ≡ None }
{
    let mut left = members.len();
    while left > 0 {
        left -= 1;
        if members[left].0 == name {
            return Some(left);
        }
    }
    None
}

/// Returns the value at an index.
fn item<'v, 'a>(values: &'v [Value<'a>], index: usize) -> Option<Inside<'v, 'a>>
    requires { length (flat item_tokens values.now) + 2 < 2 ^ 64 }
    ensures some { IfSome result (λ it.
        StepsTo (indexed index) (array (items_view values.now)) it.number (value_view it.value.now)) }
    ensures none { result ≡ None → child (indexed index) (array (items_view values.now)) ≡ None }
{
    if index >= values.len() {
        return None;
    }
    Some(Inside {
        value: &values[index],
        number: 1 + count_items(&values[..index]),
    })
}

/// Returns how many tokens a value has.
#[cycle(count)]
fn count(value: &Value<'_>) -> usize
    requires { length (json_tokens (value_view value.now)) < 2 ^ 64 }
    ensures { result ≡ length (json_tokens (value_view value.now)) }
{
    match value {
        Value::Null | Value::Bool(_) | Value::Number(_) | Value::String(_) => 1,
        Value::Array(values) => 2 + count_items(values.as_slice()),
        Value::Object(members) => 2 + count_members(members.as_slice()),
    }
}

/// Returns how many tokens the values of an array have.
#[cycle(count)]
fn count_items(values: &[Value<'_>]) -> usize
    requires { length (flat item_tokens values.now) < 2 ^ 64 }
    ensures { result ≡ length (flat item_tokens values.now) }
{
    let mut sum = 0;
    for value in values {
        sum += count(value);
    }
    sum
}

/// Returns how many tokens the members of an object have.
#[cycle(count)]
fn count_members(members: &[(&str, Value<'_>)]) -> usize
    requires { length (flat member_tokens members.now) < 2 ^ 64 }
    ensures { result ≡ length (flat member_tokens members.now) }
{
    let mut sum = 0;
    for member in members {
        sum += 1 + count(&member.1);
    }
    sum
}
