//! Allocations whose failure is a fault with the cause of out of memory.
ghost use Rattle.std.specs.Prelude.{◌≡◌, [], ◌++◌, ◌∷◌, IfOk, IfErr, OnOk};
ghost use Rattle.openapi_node.specs.Fault.{IsMemory};

use openapi_node::{Fault, Result};
use std::alloc::Global;

/// Moves a value into a box.
///
/// # Errors
///
/// Returns `Cause::Memory` with the empty location if the allocation fails.
pub fn boxed<T: Drop>(alloc: Global, value: T) -> Result<Box<T>>
    ensures ok { IfOk result (λ b. b.value ≡ value) }
    ensures err { IfErr result IsMemory }
{
    match Box::new(alloc, value) {
        Ok(value) => Ok(value),
        Err(_) => Err(Fault::memory(alloc)),
    }
}

/// Appends a value, which is moved after its space is reserved.
///
/// # Errors
///
/// Returns `Cause::Memory` with the empty location if the allocation fails.
pub fn push<T: Drop>(alloc: Global, values: &mut Vec<T>, value: T) -> Result<()>
    ensures ok { OnOk result (values.new.items ≡ values.old.items ++ value ∷ []) }
    ensures err { IfErr result IsMemory }
{
    match values.reserve(1) {
        Ok(()) => {
            values.push_reserved(value);
            Ok(())
        }
        Err(_) => Err(Fault::memory(alloc)),
    }
}
