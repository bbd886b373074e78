//! The numbers of the first tokens of a JSON value and of all values in it.
ghost use Rattle.std.specs.Prelude.{◌≡◌, ◌<◌, ◌+◌, ◌^◌, length, map, None, IfOk, IfSome, OnOk, option_map};
ghost use Rattle.json.specs.Json.{array, object};
ghost use Rattle.json.specs.Tree.{json_tokens, items_tokens, members_tokens};
ghost use Rattle.json.specs.Value.{value_view, items_view, members_view};
ghost use Rattle.openapi_node.specs.Fault.{step_of};
ghost use Rattle.openapi_node.specs.Place.{indexed, named};
ghost use Rattle.openapi_json.specs.FirstTokens.{below_of, IsFirst, ItemsAreFirst, LeadsFrom, MembersAreFirst, number_of};
ghost use Rattle.openapi_json.specs.Positions.{child, tokens_before};

use crate::place::last_named;
use json::Value;
use openapi_node::PlaceStep;
use std::alloc::{AllocError, Global};

/// The first token of a value, and those of the values in it.
#[derive(Drop)]
pub(crate) struct FirstToken {
    /// How many tokens of the text come before it.
    number: usize,
    /// The first tokens of the items of an array, or of the values of an object's members.
    below: Vec<FirstToken>,
}

/// A value beside its first token.
#[derive(Clone, Copy, Drop)]
struct Numbered<'v, 'a> {
    /// The value.
    value: &'v Value<'a>,
    /// Its first token.
    token: &'v FirstToken,
}

/// Returns the first tokens of a value and of all values in it. `next` becomes the number of the token after the value.
///
/// # Errors
///
/// Returns [`AllocError`] if an allocation fails.
#[cycle(tokens)]
pub(crate) fn first_tokens(
    alloc: Global,
    value: &Value<'_>,
    next: &mut usize,
) -> Result<FirstToken, AllocError>
    requires { next.old + length (json_tokens (value_view value.now)) < 2 ^ 64 }
    ensures first { IfOk result (IsFirst (value_view value.now) next.old) }
    ensures next { OnOk result (next.new ≡ next.old + length (json_tokens (value_view value.now))) }
{
    let number = *next;
    *next += 1;
    let below = match value {
        Value::Null | Value::Bool(_) | Value::Number(_) | Value::String(_) => Vec::new(alloc),
        Value::Array(values) => of_items(alloc, values, next)?,
        Value::Object(members) => of_members(alloc, members, next)?,
    };
    Ok(FirstToken { number, below })
}

/// Returns the first tokens of the items of an array. `next` becomes the number of the token after the array.
#[cycle(tokens)]
fn of_items(
    alloc: Global,
    values: &Vec<Value<'_>>,
    next: &mut usize,
) -> Result<Vec<FirstToken>, AllocError>
    requires { next.old + length (items_tokens (items_view values.now.items)) < 2 ^ 64 }
    ensures first { IfOk result (λ v. ItemsAreFirst (items_view values.now.items) next.old v.items) }
    ensures next { OnOk result (next.new ≡ next.old + length (items_tokens (items_view values.now.items))) }
{
    let mut tokens = Vec::with_capacity(alloc, values.len())?;
    for value in values {
        let token = first_tokens(alloc, value, next)?;
        tokens.push(token)?;
    }
    *next += 1;
    Ok(tokens)
}

/// Returns the first tokens of the values of an object's members. `next` becomes the number of the token after the object.
#[cycle(tokens)]
fn of_members(
    alloc: Global,
    members: &Vec<(&str, Value<'_>)>,
    next: &mut usize,
) -> Result<Vec<FirstToken>, AllocError>
    requires { next.old + length (members_tokens (members_view members.now.items)) < 2 ^ 64 }
    ensures first { IfOk result (λ v. MembersAreFirst (members_view members.now.items) next.old v.items) }
    ensures next { OnOk result (next.new ≡ next.old + length (members_tokens (members_view members.now.items))) }
{
    let mut tokens = Vec::with_capacity(alloc, members.len())?;
    for member in members {
        // The name of a member is a token too.
        *next += 1;
        let token = first_tokens(alloc, &member.1, next)?;
        tokens.push(token)?;
    }
    *next += 1;
    Ok(tokens)
}

/// Returns the number of the first token of the value at a location in another value.
pub(crate) fn number_below<'v>(
    value: &'v Value<'_>,
    token: &'v FirstToken,
    place: &[PlaceStep],
) -> Option<usize>
    requires { IsFirst (value_view value.now) (number_of token.now) token.now }
    ensures { result ≡ option_map (λ n. number_of token.now + n) (tokens_before (map step_of place.now) (value_view value.now)) }
{
    let [step, more @ ..] = place else {
        return Some(token.number);
    };
    let inside = step_into(value, token, step)?;
    number_below(inside.value, inside.token, more)
}

/// Returns the value to which a step leads.
fn step_into<'v, 'a>(
    value: &'v Value<'a>,
    token: &'v FirstToken,
    step: &PlaceStep,
) -> Option<Numbered<'v, 'a>>
    requires { IsFirst (value_view value.now) (number_of token.now) token.now }
    ensures some { IfSome result (λ it.
        LeadsFrom (number_of token.now) (step_of step.now) (value_view value.now) it.token.now (value_view it.value.now)) }
    ensures none { result ≡ None → child (step_of step.now) (value_view value.now) ≡ None }
{
    match (value, step) {
        (Value::Object(members), PlaceStep::Name(name)) => {
            member(members.as_slice(), token, name.as_str())
        }
        (Value::Array(values), PlaceStep::Index(index)) => item(values.as_slice(), token, *index),
        _ => None,
    }
}

/// Returns the value of the last member of a name in an object with this first token.
fn member<'v, 'a>(
    members: &'v [(&'a str, Value<'a>)],
    token: &'v FirstToken,
    name: &str,
) -> Option<Numbered<'v, 'a>>
    requires { MembersAreFirst (members_view members.now) (number_of token.now + 1) (below_of token.now) }
    ensures some { IfSome result (λ it.
        LeadsFrom (number_of token.now) (named name.now) (object (members_view members.now)) it.token.now (value_view it.value.now)) }
    ensures none { result ≡ None → child (named name.now) (object (members_view members.now)) ≡ None }
{
    let index = last_named(members, name)?;
    Some(Numbered {
        value: &members[index].1,
        token: &token.below[index],
    })
}

/// Returns the value at an index in an array with this first token.
fn item<'v, 'a>(
    values: &'v [Value<'a>],
    token: &'v FirstToken,
    index: usize,
) -> Option<Numbered<'v, 'a>>
    requires { ItemsAreFirst (items_view values.now) (number_of token.now + 1) (below_of token.now) }
    ensures some { IfSome result (λ it.
        LeadsFrom (number_of token.now) (indexed index) (array (items_view values.now)) it.token.now (value_view it.value.now)) }
    ensures none { result ≡ None → child (indexed index) (array (items_view values.now)) ≡ None }
{
    if index >= values.len() {
        return None;
    }
    Some(Numbered {
        value: &values[index],
        token: &token.below[index],
    })
}
