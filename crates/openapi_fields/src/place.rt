//! Results of one step below, with the places of their faults led on.
ghost use Rattle.openapi_node.specs.Place.{named, indexed};
ghost use Rattle.openapi_fields.specs.Returned.{AtStep};

use openapi_node::Result;
use std::alloc::Global;

/// Returns what was read at the member of a name, with a location from the object.
///
/// # Errors
///
/// Returns the fault of `read`, with the name before its location. An allocation failure has `Cause::Memory` and the
/// empty location.
pub fn at_name<T>(alloc: Global, name: &str, read: Result<T>) -> Result<T>
    ensures { AtStep (named name.now) read result }
{
    match read {
        Ok(value) => Ok(value),
        Err(fault) => Err(fault.at_name(alloc, name)),
    }
}

/// Returns what was read at the element of an index, with a location from the list.
pub(crate) fn at_index<T>(alloc: Global, index: usize, read: Result<T>) -> Result<T>
    ensures { AtStep (indexed index) read result }
{
    match read {
        Ok(value) => Ok(value),
        Err(fault) => Err(fault.at_index(alloc, index)),
    }
}
