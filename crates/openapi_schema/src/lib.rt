#![tactic(auto)]
//! The Schema Object of OpenAPI 3.0.3, section 4.7.24: its types, and how its members determine the kind of a schema.
mod any_names;
mod any_schema;
mod boxes;
mod composite_types;
mod from_node;
mod joined;
mod kind_names;
mod kinds;
mod members;
mod plain_names;
mod presence;
mod read;
mod schema;
mod schema_kind;
mod schema_type;
mod to_node;
mod write;

pub use any_schema::AnySchema;
pub use composite_types::{ArrayType, ObjectType};
pub use from_node::boxed_schema_ref_from_node;
pub use openapi_schema_types::{BooleanType, IntegerType, NumberType, SchemaData, StringType};
pub use read::schema_ref_from_node;
pub use schema::{AdditionalProperties, Schema, SchemaKind, SchemaType, Type};
pub use write::{boxed_schema_ref_to_node, schema_ref_to_node};
