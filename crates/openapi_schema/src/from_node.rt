//! The types of this crate that hold schemas, read from JSON values.
ghost use Rattle.std.proofs.Common.{refl};
ghost use Rattle.std.specs.Prelude.{◌≡◌, ◌+◌, ◌*◌, ◌≤◌, true};
ghost use Rattle.openapi_node.specs.Tree.{size_of};
ghost use Rattle.openapi_tables.specs.Kind as kinds;
ghost use Rattle.openapi_fields.specs.Returned.{ReadAs, Refuses};
ghost use Rattle.openapi_schema.specs.Reading.{inner_box_form, schema_kind_form};
ghost use Rattle.openapi_schema.specs.SchemaForms.{additional_form, schema_form};

use crate::joined::schema_with;
use crate::read::{read_additional_in, read_kind, read_schema_ref};
use crate::schema::{AdditionalProperties, Schema, SchemaKind};
use openapi_fields::{FromNode, Referable, in_inner_box};
use openapi_node::{Cause, Expected, Fault, Node, Result, Steps, View};
use openapi_values::ReferenceOr;
use std::alloc::Global;

/// Reads a boxed schema or a reference to one. An object with a string under `$ref` is a reference, whatever other
/// members it has.
///
/// # Errors
///
/// Returns a [`Fault`](openapi_node::Fault) with a rule that the value breaks and the location where it does. An
/// allocation failure has [`Cause::Memory`](openapi_node::Cause::Memory) and the empty location.
pub fn boxed_schema_ref_from_node(
    alloc: Global,
    node: &Node,
    steps: &mut Steps,
) -> Result<ReferenceOr<Box<Schema>>>
    ensures reads { ReadAs inner_box_form result (kinds.ref_to kinds.a_schema) node.now }
    ensures refuses { Refuses result (kinds.ref_to kinds.a_schema) node.now }
    ensures rises { steps.old + 1 ≤ steps.new }
    ensures count { steps.new ≤ steps.old + 3 * size_of node.now }
{
    let view = node.open(steps);
    in_inner_box(alloc, read_schema_ref(alloc, &view, steps))
}

impl FromNode for Schema {
    ghost kind = { kinds.a_schema };

    ghost form_of = { schema_form };

    fn from_view(alloc: Global, view: &View<'_>, steps: &mut Steps) -> Result<Schema> {
        match view {
            View::Object(members) => {
                schema_with(alloc, members, read_kind(alloc, members, steps), steps)
            }
            _ => Err(Fault::new(alloc, Cause::WrongKind(Expected::Object))),
        }
    }

    ghost well_made = { refl };
}

impl Referable for Schema {
    ghost spares_ref = { refl };
}

/// Reads the kind of a schema by itself: the members that every kind of schema can have are ignored.
impl FromNode for SchemaKind {
    ghost kind = { kinds.a_schema_kind };

    ghost form_of = { schema_kind_form };

    fn from_view(alloc: Global, view: &View<'_>, steps: &mut Steps) -> Result<SchemaKind> {
        match view {
            View::Object(members) => read_kind(alloc, members, steps),
            _ => Err(Fault::new(alloc, Cause::WrongKind(Expected::Object))),
        }
    }

    ghost well_made = { refl };
}

impl FromNode for AdditionalProperties {
    ghost kind = { kinds.flag_or_schema };

    ghost form_of = { additional_form };

    fn from_view(
        alloc: Global,
        view: &View<'_>,
        steps: &mut Steps,
    ) -> Result<AdditionalProperties> {
        read_additional_in(alloc, view, steps)
    }

    ghost well_made = { refl };
}
