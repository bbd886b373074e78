//! The points at which the tokens of a JSON text begin.
ghost use Rattle.std.specs.Prelude.{◌≡◌, ◌<◌, ◌+◌, ◌^◌, IfOk};
ghost use Rattle.openapi_json.specs.Points.{next_point, points};

use crate::position::Point;
use crate::scan::{Mode, begins_token, mode_after};
use std::alloc::{AllocError, Global};

/// Returns the points at which the tokens of a text begin, one after another.
///
/// # Errors
///
/// Returns [`AllocError`] if an allocation fails.
pub(crate) fn token_points(alloc: Global, text: &[u8]) -> Result<Vec<Point>, AllocError>
    ensures { IfOk result (λ v. v.items ≡ points text.now) }
{
    let mut points = Vec::new(alloc);
    let mut mode = Mode::Between;
    let mut point = Point {
        offset: 0,
        line: 1,
        column: 1,
    };
    for byte in text {
        if begins_token(mode, *byte) {
            points.push(point)?;
        }
        mode = mode_after(mode, *byte);
        point = point_after(point, *byte);
    }
    Ok(points)
}

/// Returns the point behind one more byte.
fn point_after(point: Point, byte: u8) -> Point
    requires offset { point.offset + 1 < 2 ^ 64 }
    requires line { point.line + 1 < 2 ^ 64 }
    requires column { point.column + 1 < 2 ^ 64 }
    ensures { result ≡ next_point point byte }
{
    let offset = point.offset + 1;
    match byte {
        b'\n' => Point {
            offset,
            line: point.line + 1,
            column: 1,
        },
        0x80..=0xBF => Point { offset, ..point },
        _ => Point {
            offset,
            column: point.column + 1,
            ..point
        },
    }
}
