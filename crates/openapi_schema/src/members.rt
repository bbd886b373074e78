//! The members that a schema is written as, put together of those of its parts.
ghost use Rattle.std.specs.Prelude.{◌≡◌, ◌++◌, Some, option_map, OnOk, IfErr};
ghost use Rattle.openapi_node.specs.Fault.{IsMemory};
ghost use Rattle.openapi_tables.specs.Kind as kinds;
ghost use Rattle.openapi_tables.specs.Lists.{join};
ghost use Rattle.openapi_tables.specs.Slots.{IsWritten};
ghost use Rattle.openapi_tables.specs.Tables.{final_tables, schema_type};
ghost use Rattle.openapi_fields.specs.Forms.{record_slots};
ghost use Rattle.openapi_fields.specs.Returned.{WrittenAs};
ghost use Rattle.openapi_fields.specs.Writing.{AreNew};
ghost use Rattle.openapi_schema.specs.Reading.{schema_kind_form};
ghost use Rattle.openapi_schema.specs.SchemaForms.{schema_data_rows, schema_form};
ghost use Rattle.openapi_schema_types.specs.TypeNames.{type_name_word};
ghost use Rattle.openapi_schema.specs.TypeForms.{schema_type_form, schema_type_word};
ghost use Rattle.openapi_schema.specs.Writing.{kind_slots, tag_members, tag_slots, type_slots, untagged};
ghost use Rattle.openapi_schema.specs.declared.schema.Schema.{out-Schema};

use crate::schema::{Schema, SchemaKind, SchemaType};
use openapi_fields::{append, put};
use openapi_node::{Fault, Members, Node, OrderedMap, Result};
use openapi_schema_types::TypeName;
use openapi_values::Word;
use std::alloc::Global;

/// Returns the name of the type of a schema.
fn type_name(typ: &SchemaType) -> TypeName
    ensures { type_name_word result ≡ schema_type_word typ.now }
{
    match typ {
        SchemaType::String(_) => TypeName::String,
        SchemaType::Number(_) => TypeName::Number,
        SchemaType::Integer(_) => TypeName::Integer,
        SchemaType::Object(_) => TypeName::Object,
        SchemaType::Array(_) => TypeName::Array,
        SchemaType::Boolean(_) => TypeName::Boolean,
    }
}

/// Returns the text of `type` of a schema of that type.
fn type_word(typ: &SchemaType) -> &'static str
    ensures { join (tag_slots (Some result.now)) (untagged (type_slots typ.now)) ≡ type_slots typ.now }
{
    type_name(typ).as_str()
}

/// Returns the text of `type` of a schema of that kind, if it has one.
fn kind_word(kind: &SchemaKind) -> Option<&'static str>
    ensures { join (tag_slots (option_map (λ w. w.now) result)) (untagged (kind_slots kind.now)) ≡ kind_slots kind.now }
{
    match kind {
        SchemaKind::Typed(typ) => Some(type_word(typ)),
        SchemaKind::OneOf { .. }
        | SchemaKind::AllOf { .. }
        | SchemaKind::AnyOf { .. }
        | SchemaKind::Not { .. }
        | SchemaKind::Any(_) => None,
    }
}

/// Appends a `type`, if there is one, and the other members of its kind behind it. The only error is an allocation
/// failure.
pub(crate) fn put_tagged(
    alloc: Global,
    out: &mut Members,
    word: Option<&'static str>,
    rows: Members,
) -> Result<()>
    requires tag { AreNew (tag_members (option_map (λ w. w.now) word)) out.old }
    requires rows { AreNew rows (out.old ++ tag_members (option_map (λ w. w.now) word)) }
    ensures ok { OnOk result (out.new ≡ out.old ++ (tag_members (option_map (λ w. w.now) word.entry) ++ rows)) }
    ensures err { IfErr result IsMemory }
{
    match word {
        None => append(alloc, out, rows),
        Some(word) => {
            let Ok(text) = String::from_str(alloc, word) else {
                return Err(Fault::memory(alloc));
            };
            put(alloc, out, "type", Node::text(text))?;
            append(alloc, out, rows)
        }
    }
}

/// Returns the node that a schema is written as, made from the members that every kind of schema can have and those of
/// its kind.
pub(crate) fn whole_schema(
    alloc: Global,
    schema: &Schema,
    mut out: Members,
    rows: Members,
) -> Result<Node>
    requires data { IsWritten final_tables (record_slots kinds.schema_data schema_data_rows
        (out-Schema schema.now).schema_data) out }
    requires kind { IsWritten final_tables (untagged (kind_slots (out-Schema schema.now).schema_kind)) rows }
    ensures { WrittenAs kinds.a_schema (schema_form schema.now) result }
{
    put_tagged(alloc, &mut out, kind_word(&schema.schema_kind), rows)?;
    Ok(Node::object(out))
}

/// Returns the kind of a schema by itself as it is written, of the members of its rows.
pub(crate) fn whole_kind(alloc: Global, kind: &SchemaKind, rows: Members) -> Result<Node>
    requires { IsWritten final_tables (untagged (kind_slots kind.now)) rows }
    ensures { WrittenAs kinds.a_schema_kind (schema_kind_form kind.now) result }
{
    let mut out = OrderedMap::new(alloc);
    put_tagged(alloc, &mut out, kind_word(kind), rows)?;
    Ok(Node::object(out))
}

/// Returns the type of a schema by itself as it is written, of the members of its rows.
pub(crate) fn whole_type(alloc: Global, typ: &SchemaType, rows: Members) -> Result<Node>
    requires { IsWritten final_tables (untagged (type_slots typ.now)) rows }
    ensures { WrittenAs schema_type (schema_type_form typ.now) result }
{
    let mut out = OrderedMap::new(alloc);
    put_tagged(alloc, &mut out, Some(type_word(typ)), rows)?;
    Ok(Node::object(out))
}
