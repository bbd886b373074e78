//! The Schema Object, and what it holds.
ghost use Rattle.std.specs.Prelude.{◌≡◌};
ghost use Rattle.openapi_schema.specs.Annotations.{HasNoAnnotations};

use crate::any_schema::AnySchema;
use crate::composite_types::{ArrayType, ObjectType};
use openapi_schema_types::{BooleanType, IntegerType, NumberType, SchemaData, StringType};
use openapi_values::ReferenceOr;
use std::alloc::Global;

/// The Schema Object (OpenAPI 3.0.3, section 4.7.24): which values are allowed, in the vocabulary of JSON Schema.
#[cycle(schema)]
#[derive(Clone, Debug, PartialEq, Drop)]
pub struct Schema {
    /// The annotations, which every kind of schema can have.
    pub schema_data: SchemaData,
    /// The kind of the schema, with its constraints on values.
    pub schema_kind: SchemaKind,
}

impl Schema {
    ghost use Rattle.openapi_schema.specs.declared.schema.Schema.{out-Schema};

    /// Creates a schema of a kind, without annotations.
    pub fn new(alloc: Global, schema_kind: SchemaKind) -> Schema
        ensures kind { (out-Schema result).schema_kind ≡ schema_kind }
        ensures data { HasNoAnnotations (out-Schema result).schema_data }
    {
        Schema {
            schema_data: SchemaData::new(alloc),
            schema_kind,
        }
    }
}

/// The kinds of schemas, distinguished by the members of a Schema Object.
#[cycle(schema)]
#[derive(Clone, Debug, PartialEq, Drop)]
pub enum SchemaKind {
    /// A schema with a `type`, and no member that belongs to another type.
    Typed(SchemaType),
    /// `oneOf`: exactly one of the schemas has to match.
    OneOf { one_of: Vec<ReferenceOr<Schema>> },
    /// `allOf`: all of the schemas have to match.
    AllOf { all_of: Vec<ReferenceOr<Schema>> },
    /// `anyOf`: at least one of the schemas has to match.
    AnyOf { any_of: Vec<ReferenceOr<Schema>> },
    /// `not`: the schema must not match.
    Not { not: Box<ReferenceOr<Schema>> },
    /// Any other combination of members.
    Any(AnySchema),
}

/// The `type` of a schema, with the members that belong to it.
#[cycle(schema)]
#[derive(Clone, Debug, PartialEq, Drop)]
pub enum SchemaType {
    /// `string`
    String(StringType),
    /// `number`
    Number(NumberType),
    /// `integer`
    Integer(IntegerType),
    /// `object`
    Object(ObjectType),
    /// `array`
    Array(ArrayType),
    /// `boolean`
    Boolean(BooleanType),
}

/// The name of [`SchemaType`] in the Rust crate openapiv3.
pub type Type = SchemaType;

/// `additionalProperties` (OpenAPI 3.0.3, section 4.7.24): the properties of an object that its schema does not name.
#[cycle(schema)]
#[derive(Clone, Debug, PartialEq, Drop)]
pub enum AdditionalProperties {
    /// Whether other properties, of any schema, are allowed.
    Any(bool),
    /// The schema of the other properties, or a reference to one.
    Schema(Box<ReferenceOr<Schema>>),
}
