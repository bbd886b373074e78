//! The references of a document.
ghost use Rattle.std.specs.Prelude.{◌≡◌, IfErr, IfOk};
ghost use Rattle.openapi_json.specs.Zeros.{ExplainsNoTree};
ghost use Rattle.openapi_listing.specs.Listed.{AreReferences, AreReferencesOf};

use crate::positions::{Located, positions_for};
use openapi_faults::{Kind, Reference, TableName, references};
use openapi_json::{JsonFault, Position, node_with_zeros_in_order};
use openapi_node::{Node, PlaceStep, Steps};
use std::alloc::{AllocError, Global};

/// The references of a document.
#[derive(Debug, Drop)]
pub struct ReferenceList {
    /// The references, in the order of the field tables.
    pub references: Vec<Reference>,
    /// The position of each.
    pub positions: Vec<Option<Position>>,
}

impl Located for Reference {
    ghost use Rattle.openapi_listing.specs.Listed.{reference_place};

    ghost place_in = { reference_place };

    fn place(&self) -> &[PlaceStep] {
        self.place.as_slice()
    }
}

/// Returns every reference of a document, from the bytes of its JSON text: each object with a string under `$ref` where
/// OpenAPI allows a reference. The document need not conform to the field tables, and its numbers need not be whole.
///
/// # Errors
///
/// Returns [`JsonFault::NotJson`] if the bytes are not JSON, or [`JsonFault::Memory`] if an allocation fails.
pub fn list_references(
    alloc: Global,
    bytes: &[u8],
    steps: &mut Steps,
) -> Result<ReferenceList, JsonFault>
    ensures ok { IfOk result (λ l. AreReferences bytes.now l.references.items l.positions.items) }
    ensures err { IfErr result (ExplainsNoTree bytes.now) }
{
    let read = node_with_zeros_in_order(alloc, bytes)?;
    match listed(alloc, bytes, &read.node, steps) {
        Ok(list) => Ok(list),
        Err(AllocError) => Err(JsonFault::Memory),
    }
}

/// Returns every reference of a document that was read of a text.
fn listed(
    alloc: Global,
    bytes: &[u8],
    document: &Node,
    steps: &mut Steps,
) -> Result<ReferenceList, AllocError>
    ensures { IfOk result (λ l. AreReferencesOf document.now bytes.now l.references.items l.positions.items) }
{
    let references = references(alloc, Kind::Object(TableName::OpenAPI), document, steps)?;
    let positions = positions_for(alloc, bytes, references.as_slice())?;
    Ok(ReferenceList {
        references,
        positions,
    })
}
