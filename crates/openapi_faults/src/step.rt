//! The steps of a location.
ghost use Rattle.std.specs.Prelude.{◌≡◌, IfOk, map};
ghost use Rattle.openapi_node.specs.Fault as fault;
ghost use Rattle.openapi_faults.specs.Walk.{step_of};

use openapi_node::PlaceStep;
use std::alloc::{AllocError, Global};

/// A step of a location, from a value to one inside it, with a borrowed name.
#[derive(Clone, Copy, Debug)]
pub enum Step<'a> {
    /// To the member of an object with that name.
    Name(&'a str),
    /// To the item of an array at that index, from 0.
    Index(usize),
}

impl Step<'_> {
    /// Copies the step, with a name of its own.
    ///
    /// # Errors
    ///
    /// Returns [`AllocError`] if an allocation fails.
    pub(crate) fn owned(self, alloc: Global) -> Result<PlaceStep, AllocError>
        ensures { IfOk result (λ step. fault.step_of step ≡ step_of self.entry) }
    {
        match self {
            Step::Name(name) => {
                let name = String::from_str(alloc, name)?;
                Ok(PlaceStep::Name(name))
            }
            Step::Index(index) => Ok(PlaceStep::Index(index)),
        }
    }
}

/// Copies a location, with names of its own.
///
/// # Errors
///
/// Returns [`AllocError`] if an allocation fails.
pub(crate) fn owned_place(alloc: Global, place: &[Step<'_>]) -> Result<Vec<PlaceStep>, AllocError>
    ensures { IfOk result (λ steps. map fault.step_of steps.items ≡ map step_of place.now) }
{
    let mut steps = Vec::with_capacity(alloc, place.len())?;
    for step in place {
        steps.push(step.owned(alloc)?)?;
    }
    Ok(steps)
}
