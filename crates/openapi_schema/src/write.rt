//! How schemas are written. The functions are mutually recursive, as schemas hold schemas: each gets a smaller
//! part of the schema in the end.
ghost use Rattle.std.specs.Prelude.{[], OnOk, IfErr, codes};
ghost use Rattle.openapi_tables.specs.ByRow.{is_named};
ghost use Rattle.openapi_tables.specs.Kind as kinds;
ghost use Rattle.openapi_tables.specs.Slots.{before, slots_lost, IsWritten};
ghost use Rattle.openapi_tables.specs.Tables.{final_tables};
ghost use Rattle.openapi_fields.specs.Forms.{list_form, map_form, optional_form};
ghost use Rattle.openapi_fields.specs.Returned.{NotWritable, WrittenAs};
ghost use Rattle.openapi_fields.specs.Writing.{MemberWrittenAs, RowsWritten};
ghost use Rattle.openapi_schema.specs.Fields.{any_slots, array_slots, object_slots};
ghost use Rattle.openapi_schema.specs.Reading.{ref_form, inner_box_form, outer_box_form};
ghost use Rattle.openapi_schema.specs.SchemaForms.{additional_form, schema_form};
ghost use Rattle.openapi_schema.specs.Writing.{kind_slots, type_slots, untagged};

use crate::any_schema::AnySchema;
use crate::composite_types::{ArrayType, ObjectType};
use crate::members::whole_schema;
use crate::schema::{AdditionalProperties, Schema, SchemaKind, SchemaType};
use openapi_fields::{
    as_some, only_row, push, put_implied, put_optional, put_row, put_written, record_rows,
    write_reference, write_rows,
};
use openapi_node::{Fault, Members, Node, OrderedMap, Result};
use openapi_values::ReferenceOr;
use std::alloc::Global;

/// Writes a schema or a reference to one.
///
/// # Errors
///
/// Returns a [`Fault`](openapi_node::Fault) with [`Cause::NameNotWritable`](openapi_node::Cause::NameNotWritable) at an
/// extension whose name does not begin with `x-`. An allocation failure has
/// [`Cause::Memory`](openapi_node::Cause::Memory) and the empty location.
#[cycle(write)]
pub fn schema_ref_to_node(alloc: Global, value: &ReferenceOr<Schema>) -> Result<Node>
    ensures { WrittenAs (kinds.ref_to kinds.a_schema) (ref_form value.now) result }
{
    match value {
        ReferenceOr::Reference { reference } => write_reference(alloc, reference.as_str()),
        ReferenceOr::Item(schema) => write_schema(alloc, schema),
    }
}

/// Writes a boxed schema or a reference to one.
///
/// # Errors
///
/// Returns a [`Fault`](openapi_node::Fault) with [`Cause::NameNotWritable`](openapi_node::Cause::NameNotWritable) at an
/// extension whose name does not begin with `x-`. An allocation failure has
/// [`Cause::Memory`](openapi_node::Cause::Memory) and the empty location.
#[cycle(write)]
pub fn boxed_schema_ref_to_node(alloc: Global, value: &ReferenceOr<Box<Schema>>) -> Result<Node>
    ensures { WrittenAs (kinds.ref_to kinds.a_schema) (inner_box_form value.now) result }
{
    match value {
        ReferenceOr::Reference { reference } => write_reference(alloc, reference.as_str()),
        ReferenceOr::Item(schema) => write_schema(alloc, schema),
    }
}

/// Writes a schema.
#[cycle(write)]
pub(crate) fn write_schema(alloc: Global, schema: &Schema) -> Result<Node>
    ensures { WrittenAs kinds.a_schema (schema_form schema.now) result }
{
    match record_rows(alloc, &schema.schema_data) {
        Ok(out) => match kind_rows(alloc, &schema.schema_kind) {
            Ok(rows) => whole_schema(alloc, schema, out, rows),
            Err(fault) => Err(fault),
        },
        Err(fault) => Err(fault),
    }
}

/// Returns the members that the kind of a schema is written as, except for its `type`.
#[cycle(write)]
pub(crate) fn kind_rows(alloc: Global, kind: &SchemaKind) -> Result<Members>
    ensures { RowsWritten (untagged (kind_slots kind.now)) result }
{
    match kind {
        SchemaKind::Typed(typ) => type_rows(alloc, typ),
        SchemaKind::OneOf { one_of } => only_row(alloc, "oneOf", write_refs(alloc, one_of)),
        SchemaKind::AllOf { all_of } => only_row(alloc, "allOf", write_refs(alloc, all_of)),
        SchemaKind::AnyOf { any_of } => only_row(alloc, "anyOf", write_refs(alloc, any_of)),
        SchemaKind::Not { not } => only_row(alloc, "not", schema_ref_to_node(alloc, not)),
        SchemaKind::Any(any) => any_rows(alloc, any),
    }
}

/// Returns the members that a schema of a `type` is written as, except for the `type`.
#[cycle(write)]
pub(crate) fn type_rows(alloc: Global, typ: &SchemaType) -> Result<Members>
    ensures { RowsWritten (untagged (type_slots typ.now)) result }
{
    match typ {
        SchemaType::String(typ) => record_rows(alloc, typ),
        SchemaType::Number(typ) => record_rows(alloc, typ),
        SchemaType::Integer(typ) => record_rows(alloc, typ),
        SchemaType::Object(typ) => object_rows(alloc, typ),
        SchemaType::Array(typ) => array_rows(alloc, typ),
        SchemaType::Boolean(typ) => record_rows(alloc, typ),
    }
}

/// Returns the members that a schema of objects is written as, except for its `type`.
#[cycle(write)]
#[tactic(auto, unfolding(openapi_tables::specs::Tables::final_tables, openapi_tables::specs::Tables::tables_with, openapi_tables::specs::Tables::object_rows))]
pub(crate) fn object_rows(alloc: Global, typ: &ObjectType) -> Result<Members>
    ensures { RowsWritten (object_slots typ.now) result }
{
    let mut out = OrderedMap::new(alloc);
    put_row(
        alloc,
        typ,
        &mut out,
        "properties",
        write_properties(alloc, &typ.properties),
    )?;
    put_implied(alloc, typ, &mut out, "required", &typ.required)?;
    put_row(
        alloc,
        typ,
        &mut out,
        "additionalProperties",
        write_additional(alloc, &typ.additional_properties),
    )?;
    write_rows!(alloc, typ, &mut out => {
        min_properties: put_optional("minProperties"),
        max_properties: put_optional("maxProperties"),
    });
    Ok(out)
}

/// Returns the members that a schema of arrays is written as, except for its `type`.
#[cycle(write)]
#[tactic(auto, unfolding(openapi_tables::specs::Tables::final_tables, openapi_tables::specs::Tables::tables_with, openapi_tables::specs::Tables::array_rows))]
pub(crate) fn array_rows(alloc: Global, typ: &ArrayType) -> Result<Members>
    ensures { RowsWritten (array_slots typ.now) result }
{
    let mut out = OrderedMap::new(alloc);
    put_row(
        alloc,
        typ,
        &mut out,
        "items",
        write_items(alloc, &typ.items),
    )?;
    write_rows!(alloc, typ, &mut out => {
        min_items: put_optional("minItems"),
        max_items: put_optional("maxItems"),
        unique_items: put_implied("uniqueItems"),
    });
    Ok(out)
}

/// Returns the members that a schema of no sort in particular is written as.
#[cycle(write)]
pub(crate) fn any_rows(alloc: Global, any: &AnySchema) -> Result<Members>
    ensures { RowsWritten (any_slots any.now) result }
{
    let mut out = OrderedMap::new(alloc);
    put_first(alloc, any, &mut out)?;
    put_last(alloc, any, &mut out)?;
    Ok(out)
}

/// Writes the first twelve rows of a schema of no sort in particular.
#[cycle(write)]
#[tactic(auto, unfolding(openapi_tables::specs::Tables::final_tables, openapi_tables::specs::Tables::tables_with, openapi_tables::specs::Tables::any_rows))]
fn put_first(alloc: Global, any: &AnySchema, out: &mut Members) -> Result<()>
    requires { IsWritten final_tables [] out.old }
    ensures ok { OnOk result (IsWritten final_tables (before (is_named (codes "items")) (any_slots any.now))
        out.new) }
    ensures err { IfErr result (λ f. NotWritable f (slots_lost final_tables (any_slots any.now))) }
{
    write_rows!(alloc, any, out => {
        typ: put_optional("type"),
        pattern: put_optional("pattern"),
        multiple_of: put_optional("multipleOf"),
        exclusive_minimum: put_optional("exclusiveMinimum"),
        exclusive_maximum: put_optional("exclusiveMaximum"),
        minimum: put_optional("minimum"),
        maximum: put_optional("maximum"),
    });
    put_row(
        alloc,
        any,
        out,
        "properties",
        write_properties(alloc, &any.properties),
    )?;
    put_implied(alloc, any, out, "required", &any.required)?;
    put_row(
        alloc,
        any,
        out,
        "additionalProperties",
        write_additional(alloc, &any.additional_properties),
    )?;
    put_optional(alloc, any, out, "minProperties", &any.min_properties)?;
    put_optional(alloc, any, out, "maxProperties", &any.max_properties)
}

/// Writes the last twelve rows of a schema of no sort in particular.
#[cycle(write)]
#[tactic(auto, unfolding(openapi_tables::specs::Tables::final_tables, openapi_tables::specs::Tables::tables_with, openapi_tables::specs::Tables::any_rows))]
fn put_last(alloc: Global, any: &AnySchema, out: &mut Members) -> Result<()>
    requires { IsWritten final_tables (before (is_named (codes "items")) (any_slots any.now)) out.old }
    ensures ok { OnOk result (IsWritten final_tables (any_slots any.now) out.new) }
    ensures err { IfErr result (λ f. NotWritable f (slots_lost final_tables (any_slots any.now))) }
{
    put_row(alloc, any, out, "items", write_items(alloc, &any.items))?;
    write_rows!(alloc, any, out => {
        min_items: put_optional("minItems"),
        max_items: put_optional("maxItems"),
        unique_items: put_optional("uniqueItems"),
        enumeration: put_implied("enum"),
        format: put_optional("format"),
        min_length: put_optional("minLength"),
        max_length: put_optional("maxLength"),
    });
    put_row(alloc, any, out, "oneOf", write_listed(alloc, &any.one_of))?;
    put_row(alloc, any, out, "allOf", write_listed(alloc, &any.all_of))?;
    put_row(alloc, any, out, "anyOf", write_listed(alloc, &any.any_of))?;
    put_row(alloc, any, out, "not", write_not(alloc, &any.not))
}

/// Writes a list of schemas and references; nothing where it is empty.
#[cycle(write)]
fn write_listed(alloc: Global, values: &Vec<ReferenceOr<Schema>>) -> Result<Option<Node>>
    ensures { MemberWrittenAs kinds.listed (kinds.list_of (kinds.ref_to kinds.a_schema)) (list_form ref_form values.now)
        result }
{
    if values.as_slice().is_empty() {
        return Ok(None);
    }
    as_some(write_refs(alloc, values))
}

/// Writes a list of schemas and references, in order.
#[cycle(write)]
fn write_refs(alloc: Global, values: &Vec<ReferenceOr<Schema>>) -> Result<Node>
    ensures { WrittenAs (kinds.list_of (kinds.ref_to kinds.a_schema)) (list_form ref_form values.now) result }
{
    let Ok(mut nodes) = Vec::with_capacity(alloc, values.len()) else {
        return Err(Fault::memory(alloc));
    };
    for (i, value) in values.iter().enumerate() {
        match schema_ref_to_node(alloc, value) {
            Ok(node) => push(alloc, &mut nodes, node)?,
            Err(fault) => return Err(fault.at_index(alloc, i)),
        }
    }
    Ok(Node::list(nodes))
}

/// Writes schemas and references by names, and nothing if there are none.
#[cycle(write)]
fn write_properties(
    alloc: Global,
    values: &OrderedMap<ReferenceOr<Box<Schema>>>,
) -> Result<Option<Node>>
    ensures { MemberWrittenAs kinds.listed (kinds.map_of (kinds.ref_to kinds.a_schema))
        (map_form inner_box_form values.now) result }
{
    if values.is_empty() {
        return Ok(None);
    }
    as_some(write_named(alloc, values))
}

/// Writes schemas and references by names, in order.
#[cycle(write)]
fn write_named(alloc: Global, values: &OrderedMap<ReferenceOr<Box<Schema>>>) -> Result<Node>
    ensures { WrittenAs (kinds.map_of (kinds.ref_to kinds.a_schema)) (map_form inner_box_form values.now) result }
{
    let Ok(mut out) = OrderedMap::with_capacity(alloc, values.len()) else {
        return Err(Fault::memory(alloc));
    };
    for i in 0..values.len() {
        let (name, value) = values.entry_at(i);
        match put_written(
            alloc,
            &mut out,
            name,
            boxed_schema_ref_to_node(alloc, value),
        ) {
            Ok(()) => {}
            Err(fault) => return Err(fault),
        }
    }
    Ok(Node::object(out))
}

/// Writes a schema in a box or a reference, if there is one.
#[cycle(write)]
fn write_items(alloc: Global, value: &Option<ReferenceOr<Box<Schema>>>) -> Result<Option<Node>>
    ensures { MemberWrittenAs kinds.optional (kinds.ref_to kinds.a_schema) (optional_form inner_box_form value.now) result }
{
    match value {
        None => Ok(None),
        Some(value) => as_some(boxed_schema_ref_to_node(alloc, value)),
    }
}

/// Writes a schema or a reference in a box, if there is one.
#[cycle(write)]
fn write_not(alloc: Global, value: &Option<Box<ReferenceOr<Schema>>>) -> Result<Option<Node>>
    ensures { MemberWrittenAs kinds.optional (kinds.ref_to kinds.a_schema) (optional_form outer_box_form value.now) result }
{
    match value {
        None => Ok(None),
        Some(value) => as_some(schema_ref_to_node(alloc, value)),
    }
}

/// Writes what other members may be, if that is set.
#[cycle(write)]
fn write_additional(alloc: Global, value: &Option<AdditionalProperties>) -> Result<Option<Node>>
    ensures { MemberWrittenAs kinds.optional kinds.flag_or_schema (optional_form additional_form value.now) result }
{
    match value {
        None => Ok(None),
        Some(value) => as_some(additional_to_node(alloc, value)),
    }
}

/// Writes a flag, or a schema or a reference.
#[cycle(write)]
pub(crate) fn additional_to_node(alloc: Global, value: &AdditionalProperties) -> Result<Node>
    ensures { WrittenAs kinds.flag_or_schema (additional_form value.now) result }
{
    match value {
        AdditionalProperties::Any(allowed) => Ok(Node::flag(*allowed)),
        AdditionalProperties::Schema(value) => schema_ref_to_node(alloc, value),
    }
}
