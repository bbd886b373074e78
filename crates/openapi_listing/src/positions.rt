//! The positions of locations.
ghost use Rattle.std.specs.Prelude.{◌≡◌, IfOk, map};
ghost use Rattle.std.specs.List.{AllZip};
ghost use Rattle.openapi_node.specs.Fault.{step_of};
ghost use Rattle.openapi_node.specs.Place.{Place};
ghost use Rattle.openapi_json.specs.Positions.{IsPositionAt};

use openapi_json::{Position, positions_of};
use openapi_node::PlaceStep;
use std::alloc::{AllocError, Global};

/// What is at a location of a text.
pub(crate) trait Located {
    ghost use Rattle.std.specs.Prelude.{◌≡◌, map};
    ghost use Rattle.openapi_node.specs.Fault.{step_of};
    ghost use Rattle.openapi_node.specs.Place.{Place};

    /// The location.
    ghost place_in: { Self → Place };

    /// Returns the location.
    fn place(&self) -> &[PlaceStep]
        ensures { map step_of result.now ≡ place_in self.now };
}

/// Returns the position of each of some locations in a text.
pub(crate) fn positions_for<T: Located>(
    alloc: Global,
    bytes: &[u8],
    located: &[T],
) -> Result<Vec<Option<Position>>, AllocError>
    ensures { IfOk result (λ v. AllZip (IsPositionAt bytes.now) (map T.place_in located.now) v.items) }
{
    let mut places: Vec<&[PlaceStep]> = Vec::with_capacity(alloc, located.len())?;
    for it in located {
        places.push(it.place())?;
    }
    positions_of(alloc, bytes, places.as_slice())
}
