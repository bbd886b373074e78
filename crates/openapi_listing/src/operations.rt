//! The operations of a document.
ghost use Rattle.std.specs.Prelude.{◌≡◌, IfErr, IfOk, map};
ghost use Rattle.openapi_documents.specs.Documents.{document_form};
ghost use Rattle.openapi_node.specs.Fault.{step_of};
ghost use Rattle.openapi_tables.specs.Kind.{by, open_api};
ghost use Rattle.openapi_tables.specs.Lists.{each};
ghost use Rattle.openapi_tables.specs.Operations.{ops};
ghost use Rattle.openapi_text.specs.Located.{IsRefusal};
ghost use Rattle.openapi_text.specs.Texts.{Explains};
ghost use Rattle.openapi_text.specs.declared.layout.Layout.TheVariants as layout;
ghost use Rattle.openapi_listing.specs.Listed.{AreOperations, listed_at, listed_of, place_at, stated_of};

use crate::positions::{Located, positions_for};
use openapi_documents::{OpenAPI, Operation};
use openapi_json::Position;
use openapi_node::{PlaceStep, Steps};
use openapi_text::{Layout, Refusal, RunFault, read_object, read_tree};
use std::alloc::{AllocError, Global};

/// An operation (OpenAPI 3.0.3, section 4.7.10) of a document.
#[derive(Debug, Drop)]
pub struct ListedOperation {
    /// The path, as it is written in the document.
    pub path: String,
    /// The method in lower case, as it is written in the document.
    pub method: String,
    /// The `operationId`, if there is one.
    pub operation_id: Option<String>,
    /// The location of the operation.
    pub place: Vec<PlaceStep>,
}

/// The operations of a document.
#[derive(Debug, Drop)]
pub struct OperationList {
    /// The operations, path by path in the order of the document.
    pub operations: Vec<ListedOperation>,
    /// The position of each.
    pub positions: Vec<Option<Position>>,
}

impl Located for ListedOperation {
    ghost use Rattle.openapi_listing.specs.Listed.{operation_place};

    ghost place_in = { operation_place };

    fn place(&self) -> &[PlaceStep] {
        self.place.as_slice()
    }
}

/// Returns the operations of a document, from the bytes of its JSON text. A path item that is a reference has none.
///
/// # Errors
///
/// Returns a [`Refusal`] if the bytes are not JSON, if a number is not whole, or if the document does not conform to
/// the field tables. An allocation failure is also a [`Refusal`].
pub fn list_operations(
    alloc: Global,
    bytes: &[u8],
    steps: &mut Steps,
) -> Result<OperationList, Refusal>
    ensures ok { IfOk result (λ l. AreOperations bytes.now l.operations.items l.positions.items) }
    ensures err { IfErr result (IsRefusal (by open_api) bytes.now) }
{
    match listed_or_fault(alloc, bytes, steps) {
        Ok(list) => Ok(list),
        Err(fault) => Err(Refusal::located(alloc, bytes, fault)),
    }
}

/// Returns the operations of a document, or why there are none.
fn listed_or_fault(
    alloc: Global,
    bytes: &[u8],
    steps: &mut Steps,
) -> Result<OperationList, RunFault>
    ensures ok { IfOk result (λ l. AreOperations bytes.now l.operations.items l.positions.items) }
    ensures err { IfErr result (Explains layout.InOrder (by open_api) bytes.now) }
{
    let node = read_tree(alloc, Layout::InOrder, bytes)?;
    let document = read_object::<OpenAPI>(alloc, node, steps)?;
    let listed = operations_of(alloc, &document);
    drop(document);
    let operations = listed?;
    let positions = positions_for(alloc, bytes, operations.as_slice())?;
    Ok(OperationList {
        operations,
        positions,
    })
}

/// Returns the operations of a document that was read.
fn operations_of(alloc: Global, document: &OpenAPI) -> Result<Vec<ListedOperation>, AllocError>
    ensures { IfOk result (λ v. map listed_of v.items ≡ each stated_of (ops (document_form document.now))) }
{
    let mut listed = Vec::new(alloc);
    for (path, method, operation) in document.operations() {
        let operation = listed_operation(alloc, path, method, operation)?;
        listed.push(operation)?;
    }
    Ok(listed)
}

/// Returns an operation of a document.
fn listed_operation(
    alloc: Global,
    path: &str,
    method: &str,
    operation: &Operation,
) -> Result<ListedOperation, AllocError>
    ensures { IfOk result (λ o. listed_of o ≡ listed_at path.now method.now) }
{
    let operation_id = match &operation.operation_id {
        Some(id) => Some(String::from_str(alloc, id.as_str())?),
        None => None,
    };
    let place = place_of(alloc, path, method)?;
    let path = String::from_str(alloc, path)?;
    let method = String::from_str(alloc, method)?;
    Ok(ListedOperation {
        path,
        method,
        operation_id,
        place,
    })
}

/// Returns the location of an operation.
fn place_of(alloc: Global, path: &str, method: &str) -> Result<Vec<PlaceStep>, AllocError>
    ensures { IfOk result (λ v. map step_of v.items ≡ place_at path.now method.now) }
{
    let paths = String::from_str(alloc, "paths")?;
    let path = String::from_str(alloc, path)?;
    let method = String::from_str(alloc, method)?;
    let mut place = Vec::with_capacity(alloc, 3)?;
    place.push(PlaceStep::Name(paths))?;
    place.push(PlaceStep::Name(path))?;
    place.push(PlaceStep::Name(method))?;
    Ok(place)
}
