//! The positions of the values at several locations of a JSON text.
ghost use Rattle.std.specs.Prelude.{◌≡◌, ◌≤◌, ◌<◌, ◌-◌, All, cond, IfOk, IsTrue, length, map, None, slice_get, Some};
ghost use Rattle.std.specs.List.{AllZip};
ghost use Rattle.json.specs.Tree.{json_tokens};
ghost use Rattle.json.specs.Value.{value_view};
ghost use Rattle.openapi_node.specs.Fault.{step_of};
ghost use Rattle.openapi_json.specs.FirstTokens.{IsFirst};
ghost use Rattle.openapi_json.specs.Points.{IsPositionAmong};
ghost use Rattle.openapi_json.specs.Positions.{IsPositionAt};

use crate::first_tokens::{FirstToken, first_tokens, number_below};
use crate::in_order::read_value;
use crate::points::token_points;
use crate::position::{Point, Position, ends_with_name};
use crate::unread::Unread;
use json::{Scratch, Value};
use openapi_node::PlaceStep;
use std::alloc::{AllocError, Global};

/// Returns where the values at several locations of a JSON text begin, in the order of the locations.
///
/// The entry of each location is what [`position_of`] returns for it. The text is read once, whatever the number of
/// locations. The cost of each location is that of a lookup. An index is found immediately, and a name by a search
/// through the members of its object.
///
/// # Errors
///
/// Returns [`AllocError`] if an allocation fails.
///
/// [`position_of`]: crate::position_of
pub fn positions_of(
    alloc: Global,
    bytes: &[u8],
    places: &[&[PlaceStep]],
) -> Result<Vec<Option<Position>>, AllocError>
    ensures { IfOk result (λ v. AllZip (IsPositionAt bytes.now) (map (λ p. map step_of p.now) places.now) v.items) }
{
    let Ok(text) = simdutf8::compat::from_utf8(bytes) else {
        return no_positions(alloc, places.len());
    };
    let mut scratch = Scratch::new(alloc);
    let value = match read_value(alloc, text, &mut scratch) {
        Ok(value) => value,
        Err(Unread::Memory) => return Err(AllocError),
        Err(Unread::Other) => return no_positions(alloc, places.len()),
    };
    let mut next = 0;
    let token = first_tokens(alloc, &value, &mut next)?;
    let points = token_points(alloc, bytes)?;
    positions_among(alloc, &value, &token, points.as_slice(), places)
}

/// Returns a list of `count` times `None`.
fn no_positions(alloc: Global, count: usize) -> Result<Vec<Option<Position>>, AllocError>
    ensures length { IfOk result (λ v. length v.items ≡ count) }
    ensures none { IfOk result (λ v. All (λ o. o ≡ None) v.items) }
{
    let mut entries = Vec::with_capacity(alloc, count)?;
    for _ in 0..count {
        entries.push(None)?;
    }
    Ok(entries)
}

/// Returns the positions of the values at several locations. `token` is the first token of `value`, and `points` has the points of
/// all its tokens.
fn positions_among(
    alloc: Global,
    value: &Value<'_>,
    token: &FirstToken,
    points: &[Point],
    places: &[&[PlaceStep]],
) -> Result<Vec<Option<Position>>, AllocError>
    requires first { IsFirst (value_view value.now) 0 token.now }
    requires points { length (json_tokens (value_view value.now)) ≤ length points.now }
    ensures { IfOk result (λ v.
        AllZip (IsPositionAmong points.now (value_view value.now)) (map (λ p. map step_of p.now) places.now) v.items) }
{
    let mut positions = Vec::with_capacity(alloc, places.len())?;
    for place in places {
        positions.push(position_among(value, token, points, place))?;
    }
    Ok(positions)
}

/// Returns the position of the value at one location, by the same first token and points.
fn position_among(
    value: &Value<'_>,
    token: &FirstToken,
    points: &[Point],
    place: &[PlaceStep],
) -> Option<Position>
    requires first { IsFirst (value_view value.now) 0 token.now }
    requires points { length (json_tokens (value_view value.now)) ≤ length points.now }
    ensures { IsPositionAmong points.now (value_view value.now) (map step_of place.now) result }
{
    let number = number_below(value, token, place)?;
    Some(position_with(points, number, ends_with_name(place)))
}

/// Returns the position of the value whose first token has a number. The name of a member is the token before its value.
fn position_with(points: &[Point], number: usize, is_member: bool) -> Position
    requires within { number < length points.now }
    requires after_name { IsTrue is_member → 1 ≤ number }
    ensures value { slice_get points.now number ≡ Some result.value }
    ensures name { result.name ≡ cond is_member (slice_get points.now (number - 1)) None }
{
    let name = if is_member {
        Some(points[number - 1])
    } else {
        None
    };
    Position {
        value: points[number],
        name,
    }
}
