//! How a caller proves a loop over the operations of a path item.
ghost use Rattle.std.specs.Prelude.{◌≡◌, IfOk, map};
ghost use Rattle.std.specs.Map.{keys_of, values_of};
ghost use Rattle.openapi_documents.specs.Present.{present_operations};

use openapiv3::{Operation, PathItem};
use std::alloc::{AllocError, Global};
use std::test::Fail;

/// Returns the methods of the operations that exist, in their order.
fn methods_of(alloc: Global, path_item: &PathItem) -> Result<Vec<&'static str>, AllocError>
    ensures { IfOk result (λ methods. map (λ m. m.now) methods.items ≡ keys_of (present_operations path_item.now)) }
{
    let mut methods = Vec::new(alloc);
    for (method, _) in path_item.iter() {
        methods.push(method)?;
    }
    Ok(methods)
}

/// Returns the operations that exist, in their order.
fn operations_of(alloc: Global, path_item: PathItem) -> Result<Vec<Operation>, AllocError>
    ensures { IfOk result (λ operations. operations.items ≡ values_of (present_operations path_item)) }
{
    let mut operations = Vec::new(alloc);
    for (_, operation) in path_item {
        operations.push(operation)?;
    }
    Ok(operations)
}

#[test]
fn loops_go_over_all_operations(rt: HostRuntime) -> Result<(), Fail> {
    let mut path_item = PathItem::new(rt.alloc());
    path_item.trace = Some(Operation::new(rt.alloc()));
    path_item.get = Some(Operation::new(rt.alloc()));
    let methods = methods_of(rt.alloc(), &path_item)?;
    if methods.as_slice() != ["get", "trace"].as_slice() {
        return Err(Fail::from("other methods"));
    }
    if operations_of(rt.alloc(), path_item)?.len() != 2 {
        return Err(Fail::from("not two operations"));
    }
    Ok(())
}
