//! Items and references to them, and the boxes in which other items hold them.
ghost use Rattle.std.specs.Prelude.{◌≡◌, None};
ghost use Rattle.openapi_node.specs.Tree.{Tree};
ghost use Rattle.openapi_tables.specs.Form.{Form};
ghost use Rattle.openapi_tables.specs.Kind.{Kind, ref_to};
ghost use Rattle.openapi_fields.specs.Returned.{ReadAs};
ghost use Rattle.openapi_fields.specs.References.{reference_in};
ghost use Rattle.openapi_values.specs.Reference.{reference_form};

use crate::boxed;
use openapi_node::Result;
use openapi_values::ReferenceOr;
use std::alloc::Global;

/// Returns what was read of a value that is no reference but could be one. Like the boxes below, it has a function of
/// its own: no mutually recursive function then has space for a second copy of a large value.
///
/// # Errors
///
/// Returns the fault of `read`.
#[inline(never)]
pub fn as_item<T: Drop>(read: Result<T>) -> Result<ReferenceOr<T>>
    ensures { (view : T → Form) (k : Kind) (t : Tree) → reference_in t ≡ None → ReadAs view read k t
        → ReadAs (reference_form view) result (ref_to k) t }
{
    match read {
        Ok(value) => Ok(ReferenceOr::Item(value)),
        Err(fault) => Err(fault),
    }
}

/// Returns what was read, with an item in a box.
///
/// # Errors
///
/// Returns the fault of `read`, or `Cause::Memory` with the empty location if the allocation of the box fails.
#[inline(never)]
pub fn in_inner_box<T: Drop>(
    alloc: Global,
    read: Result<ReferenceOr<T>>,
) -> Result<ReferenceOr<Box<T>>>
    ensures { (view : T → Form) (k : Kind) (t : Tree) → ReadAs (reference_form view) read k t
        → ReadAs (reference_form (λ b. view b.value)) result k t }
{
    match read {
        Ok(value) => match value {
            ReferenceOr::Reference { reference } => Ok(ReferenceOr::Reference { reference }),
            ReferenceOr::Item(item) => match boxed(alloc, item) {
                Ok(item) => Ok(ReferenceOr::Item(item)),
                Err(fault) => Err(fault),
            },
        },
        Err(fault) => Err(fault),
    }
}

/// Returns what was read, in a box.
///
/// # Errors
///
/// Returns the fault of `read`, or `Cause::Memory` with the empty location if the allocation of the box fails.
#[inline(never)]
pub fn in_outer_box<T: Drop>(
    alloc: Global,
    read: Result<ReferenceOr<T>>,
) -> Result<Box<ReferenceOr<T>>>
    ensures { (view : T → Form) (k : Kind) (t : Tree) → ReadAs (reference_form view) read k t
        → ReadAs (λ b. reference_form view b.value) result k t }
{
    match read {
        Ok(value) => boxed(alloc, value),
        Err(fault) => Err(fault),
    }
}
