//! Schemas in boxes, and references to them, where a flag is allowed too.
ghost use Rattle.openapi_node.specs.Tree.{Members, object};
ghost use Rattle.openapi_fields.specs.Returned.{ReadAs};
ghost use Rattle.openapi_tables.specs.Kind.{a_schema, flag_or_schema, ref_to};
ghost use Rattle.openapi_schema.specs.Reading.{outer_box_form};
ghost use Rattle.openapi_schema.specs.SchemaForms.{additional_form};

use crate::schema::{AdditionalProperties, Schema};
use openapi_node::Result;
use openapi_values::ReferenceOr;

/// Returns what was read of an object, where a flag is allowed too.
pub(crate) fn in_additional(read: Result<Box<ReferenceOr<Schema>>>) -> Result<AdditionalProperties>
    ensures { (ms : Members) → ReadAs outer_box_form read (ref_to a_schema) (object ms)
        → ReadAs additional_form result flag_or_schema (object ms) }
{
    match read {
        Ok(value) => Ok(AdditionalProperties::Schema(value)),
        Err(fault) => Err(fault),
    }
}
