//! The position of the value at a location of a JSON text.
ghost use Rattle.std.specs.Prelude.{◌≡◌, ◌≤◌, ◌-◌, is_some, length, map, None, IfOk};
ghost use Rattle.std.specs.Prelude.{IfSome, IsFalse, IsSomeAnd, IsTrue};
ghost use Rattle.openapi_node.specs.Fault.{step_of};
ghost use Rattle.openapi_json.specs.Positions.{IsBehind, IsPositionAt, IsToken, last_name};
ghost use Rattle.openapi_json.specs.Scanned.{starts};

use crate::in_order::read_value;
use crate::place::number_at;
use crate::scan::offset_of;
use crate::unread::Unread;
use json::Scratch;
use openapi_node::PlaceStep;
use std::alloc::{AllocError, Global};

/// A point of a text in UTF-8, with its line and column as editors count them.
#[derive(Clone, Copy, Debug, Drop, PartialEq, Eq)]
pub struct Point {
    /// The number of bytes before it.
    pub offset: usize,
    /// The number of its line, from 1. A line ends with a line feed.
    pub line: usize,
    /// The number of its character in the line, from 1.
    pub column: usize,
}

/// The position of a value in a JSON text.
#[derive(Clone, Copy, Debug, Drop, PartialEq, Eq)]
pub struct Position {
    /// The point at which the value begins.
    pub value: Point,
    /// The point at which the name begins, if the value is that of a member.
    pub name: Option<Point>,
}

/// Returns where the value at a location of a JSON text begins, and where its name does if it is the value of a member.
///
/// If a name comes again in an object, its last value counts, so an equal value elsewhere is never taken for it. The
/// result is `None` if the bytes are no JSON text in UTF-8, or if the text has no value at the location. Numbers need
/// not be whole.
///
/// # Errors
///
/// Returns [`AllocError`] if an allocation fails.
///
/// # Examples
///
/// ```rust
/// let text = "{\n  \"info\": {}\n}";
/// let place = [PlaceStep::Name(String::from_str(rt.alloc(), "info")?)];
/// let position = position_of(rt.alloc(), text.as_bytes(), &place)?;
/// let found = position.map(|it| (it.value.line, it.value.column));
/// assert_eq!(rt; found, Some((2, 11)));
/// ```
pub fn position_of(
    alloc: Global,
    bytes: &[u8],
    place: &[PlaceStep],
) -> Result<Option<Position>, AllocError>
    ensures { IfOk result (IsPositionAt bytes.now (map step_of place.now)) }
{
    let Ok(text) = simdutf8::compat::from_utf8(bytes) else {
        return Ok(None);
    };
    let mut scratch = Scratch::new(alloc);
    let value = match read_value(alloc, text, &mut scratch) {
        Ok(value) => value,
        Err(Unread::Memory) => return Err(AllocError),
        Err(Unread::Other) => return Ok(None),
    };
    let Some(number) = number_at(&value, place) else {
        return Ok(None);
    };
    Ok(position_at(bytes, number, ends_with_name(place)))
}

/// Returns whether the last step of a place is a name.
pub(crate) fn ends_with_name(place: &[PlaceStep]) -> bool
    ensures { result ≡ is_some (last_name (map step_of place.now)) }
{
    match place {
        [] => false,
        [step] => matches!(step, PlaceStep::Name(_)),
        [_, more @ ..] => ends_with_name(more),
    }
}

/// Returns the position of the value that begins with a token. The name of a member is the token before its value.
fn position_at(bytes: &[u8], number: usize, is_member: bool) -> Option<Position>
    requires { IsTrue is_member → 1 ≤ number }
    ensures value { IfSome result (λ p. IsToken bytes.now number p.value) }
    ensures unnamed { IfSome result (λ p. IsFalse is_member → p.name ≡ None) }
    ensures named { IfSome result (λ p. IsTrue is_member → IsSomeAnd p.name (IsToken bytes.now (number - 1))) }
    ensures none { result ≡ None → length (starts bytes.now) ≤ number }
{
    let value = point_of(bytes, number)?;
    let name = if is_member {
        Some(point_of(bytes, number - 1)?)
    } else {
        None
    };
    Some(Position { value, name })
}

/// Returns the point at which a token of a text begins. The first token has the number 0.
fn point_of(bytes: &[u8], number: usize) -> Option<Point>
    ensures some { IfSome result (IsToken bytes.now number) }
    ensures none { result ≡ None → length (starts bytes.now) ≤ number }
{
    let offset = offset_of(bytes, number)?;
    Some(point_behind(&bytes[..offset]))
}

/// Returns the point behind some bytes.
fn point_behind(bytes: &[u8]) -> Point
    ensures { IsBehind bytes.now result }
{
    let mut line = 1;
    let mut column = 1;
    for byte in bytes {
        match *byte {
            b'\n' => {
                line += 1;
                column = 1;
            }
            0x80..=0xBF => {}
            _ => column += 1,
        }
    }
    Point {
        offset: bytes.len(),
        line,
        column,
    }
}
