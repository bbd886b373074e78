//! The type of a schema by itself, distinguished by its `type`.
ghost use Rattle.std.proofs.Common.{refl};
ghost use Rattle.std.specs.Prelude.{◌+◌, ◌≤◌, ◌*◌};
ghost use Rattle.openapi_node.specs.Tree.{members_of};
ghost use Rattle.openapi_tables.specs.Tables.{schema_type};
ghost use Rattle.openapi_fields.specs.Reading.{IsCaseRead};
ghost use Rattle.openapi_schema_types.specs.TypeNames.{type_name_word};
ghost use Rattle.openapi_schema.specs.TypeForms.{table_of};
ghost use Rattle.openapi_schema.specs.TypeForms.{schema_type_fields, schema_type_form, schema_type_word};
ghost use Rattle.openapi_schema.specs.TypeForms.{schema_type_sound};

use crate::composite_types::{ArrayType, ObjectType};
use crate::members::whole_type;
use crate::schema::SchemaType;
use crate::write::type_rows;
use openapi_fields::{FromNode, Record, ToNode, tag};
use openapi_node::{Cause, Expected, Fault, Members, Node, Result, Steps, View};
use openapi_schema_types::{BooleanType, IntegerType, NumberType, StringType, TypeName};
use std::alloc::Global;

/// Reads a schema of a type among the members of an object.
fn of_type(
    alloc: Global,
    name: TypeName,
    members: &Members,
    steps: &mut Steps,
) -> Result<SchemaType>
    ensures { IsCaseRead schema_type_word schema_type_fields result (type_name_word name) (table_of name)
        (members_of members.now) steps.old steps.new }
{
    match name {
        TypeName::String => Ok(SchemaType::String(StringType::from_members(
            alloc, members, steps,
        )?)),
        TypeName::Number => Ok(SchemaType::Number(NumberType::from_members(
            alloc, members, steps,
        )?)),
        TypeName::Integer => Ok(SchemaType::Integer(IntegerType::from_members(
            alloc, members, steps,
        )?)),
        TypeName::Object => Ok(SchemaType::Object(ObjectType::from_members(
            alloc, members, steps,
        )?)),
        TypeName::Array => Ok(SchemaType::Array(ArrayType::from_members(alloc, members, steps)?)),
        TypeName::Boolean => Ok(SchemaType::Boolean(BooleanType::from_members(
            alloc, members, steps,
        )?)),
    }
}

impl FromNode for SchemaType {
    ghost kind = { schema_type };

    ghost form_of = { schema_type_form };

    fn from_view(alloc: Global, view: &View<'_>, steps: &mut Steps) -> Result<SchemaType> {
        let View::Object(members) = view else {
            return Err(Fault::new(alloc, Cause::WrongKind(Expected::Object)));
        };
        match tag(alloc, members, "type", steps) {
            Ok(name) => of_type(alloc, name, members, steps),
            Err(fault) => Err(fault),
        }
    }

    ghost well_made = { schema_type_sound };
}

impl ToNode for SchemaType {
    fn to_node(&self, alloc: Global) -> Result<Node> {
        match type_rows(alloc, self) {
            Ok(rows) => whole_type(alloc, self, rows),
            Err(fault) => Err(fault),
        }
    }

    ghost there = { λ x. refl };
}
