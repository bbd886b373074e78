//! Copies of locations.
ghost use Rattle.std.specs.Prelude.{◌≡◌, IfOk, map};
ghost use Rattle.openapi_node.specs.Fault.{step_of};

use openapi_node::PlaceStep;
use std::alloc::{AllocError, Global};

/// Copies a location.
///
/// # Errors
///
/// Returns [`AllocError`] if an allocation fails.
pub fn copied_place(alloc: Global, place: &[PlaceStep]) -> Result<Vec<PlaceStep>, AllocError>
    ensures { IfOk result (λ p. map step_of p.items ≡ map step_of place.now) }
{
    let mut copy = Vec::with_capacity(alloc, place.len())?;
    for step in place {
        copy.push(copied_step(alloc, step)?)?;
    }
    Ok(copy)
}

/// Copies a step of a location.
fn copied_step(alloc: Global, step: &PlaceStep) -> Result<PlaceStep, AllocError>
    ensures { IfOk result (λ s. step_of s ≡ step_of step.now) }
{
    match step {
        PlaceStep::Name(name) => {
            let name = String::from_str(alloc, name.as_str())?;
            Ok(PlaceStep::Name(name))
        }
        PlaceStep::Index(index) => Ok(PlaceStep::Index(*index)),
    }
}
