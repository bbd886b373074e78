//! The types of this crate that hold schemas, written as JSON values.
ghost use Rattle.std.proofs.Common.{refl};
ghost use Rattle.openapi_schema.specs.Present.{additional_there, schema_there};

use crate::members::whole_kind;
use crate::schema::{AdditionalProperties, Schema, SchemaKind};
use crate::write::{additional_to_node, kind_rows, write_schema};
use openapi_fields::ToNode;
use openapi_node::{Node, Result};
use std::alloc::Global;

impl ToNode for Schema {
    fn to_node(&self, alloc: Global) -> Result<Node> {
        write_schema(alloc, self)
    }

    ghost there = { schema_there };
}

/// Writes the kind of a schema by itself, with no member that every kind of schema can have.
impl ToNode for SchemaKind {
    fn to_node(&self, alloc: Global) -> Result<Node> {
        match kind_rows(alloc, self) {
            Ok(rows) => whole_kind(alloc, self, rows),
            Err(fault) => Err(fault),
        }
    }

    ghost there = { λ k. refl };
}

impl ToNode for AdditionalProperties {
    fn to_node(&self, alloc: Global) -> Result<Node> {
        additional_to_node(alloc, self)
    }

    ghost there = { additional_there };
}
