//! Schemas and their kinds, made from what was read of their parts.
//!
//! Functions with a stack frame for a whole schema are here and not among the mutually recursive readers. The readers
//! call them after all values below were read, so no level of a nested schema keeps that frame while it waits for the
//! next one.
ghost use Rattle.std.specs.Prelude.{◌≡◌, ◌+◌, ◌*◌, ◌≤◌, None};
ghost use Rattle.openapi_node.specs.Tree.{Members, members_of, object};
ghost use Rattle.openapi_tables.specs.ByRow.{rows_asked, rows_weight};
ghost use Rattle.openapi_tables.specs.Kind as kinds;
ghost use Rattle.openapi_tables.specs.Tables.{final_tables};
ghost use Rattle.openapi_fields.specs.Returned.{ReadAs, RisesBy};
ghost use Rattle.openapi_fields.specs.References.{reference_in};
ghost use Rattle.openapi_fields.specs.Reading.{PartReadAs};
ghost use Rattle.openapi_schema.specs.KindNames.{kind_forms};
ghost use Rattle.openapi_schema.specs.Kinds.{entries_left};
ghost use Rattle.openapi_schema.specs.RawSlots.{optional_rows};
ghost use Rattle.openapi_schema.specs.Reading.{KindReadAs, ref_form};
ghost use Rattle.openapi_schema.specs.SchemaForms.{schema_form};

use crate::kind_names::KindNames;
use crate::schema::{Schema, SchemaKind};
use crate::schema_kind::schema_kind;
use openapi_fields::{Record, as_item};
use openapi_node::{Members, Node, Result, Steps};
use openapi_schema_types::SchemaData;
use openapi_values::ReferenceOr;
use std::alloc::Global;

/// Returns the kind of a schema, by what was read under the kind names.
#[inline(never)]
pub(crate) fn kind_with(
    alloc: Global,
    names: Result<KindNames<'_>>,
    steps: &mut Steps,
) -> Result<SchemaKind>
    ensures reads { (ms : Members) → PartReadAs kind_forms names.entry kinds.a_schema_kind optional_rows ms
        → KindReadAs result ms }
    ensures count { RisesBy steps.old steps.new (2 * entries_left names.entry) }
{
    match names {
        Ok(names) => schema_kind(alloc, names, steps),
        Err(fault) => Err(fault),
    }
}

/// Reads the schema among the members of an object whose kind was read.
#[inline(never)]
pub(crate) fn schema_with(
    alloc: Global,
    members: &Members,
    kind: Result<SchemaKind>,
    steps: &mut Steps,
) -> Result<Schema>
    ensures reads { KindReadAs kind (members_of members.now)
        → ReadAs schema_form result kinds.a_schema (object (members_of members.now)) }
    ensures count { RisesBy steps.old steps.new
        (3 * rows_weight (rows_asked final_tables (kinds.by kinds.schema_data)) (members_of members.now)) }
{
    match kind {
        Ok(schema_kind) => match SchemaData::from_members(alloc, members, steps) {
            Ok(schema_data) => Ok(Schema {
                schema_data,
                schema_kind,
            }),
            Err(fault) => Err(fault),
        },
        Err(fault) => Err(fault),
    }
}

/// Reads the schema from the members of an object whose kind was read, and which is no reference but could be one.
#[inline(never)]
pub(crate) fn item_with(
    alloc: Global,
    members: &Members,
    kind: Result<SchemaKind>,
    steps: &mut Steps,
) -> Result<ReferenceOr<Schema>>
    ensures reads { KindReadAs kind (members_of members.now) → reference_in (object (members_of members.now)) ≡ None
        → ReadAs ref_form result (kinds.ref_to kinds.a_schema) (object (members_of members.now)) }
    ensures count { RisesBy steps.old steps.new
        (3 * rows_weight (rows_asked final_tables (kinds.by kinds.schema_data)) (members_of members.now)) }
{
    as_item(schema_with(alloc, members, kind, steps))
}
