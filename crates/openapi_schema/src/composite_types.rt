//! The kinds of schemas of objects and arrays.
ghost use Rattle.std.specs.Prelude.{◌≡◌, ◌*◌, [], None, Some, false};
ghost use Rattle.openapi_tables.specs.Kind.{array_type, object_type};
ghost use Rattle.openapi_schema.specs.Fields.{array_fields, object_fields};

use crate::schema::{AdditionalProperties, Schema};
use crate::write::{array_rows, object_rows};
use openapi_fields::{Object, Record, read_rows};
use openapi_node::{Members, Node, OrderedMap, Result, Steps};
use openapi_values::ReferenceOr;
use std::alloc::Global;

/// A schema of `type` `object` (OpenAPI 3.0.3, section 4.7.24).
#[cycle(schema)]
#[derive(Clone, Debug, PartialEq, Drop)]
pub struct ObjectType {
    /// The schemas of the properties, by their names.
    pub properties: OrderedMap<ReferenceOr<Box<Schema>>>,
    /// The names of the required properties.
    pub required: Vec<String>,
    /// `additionalProperties`: whether other properties are allowed, or their schema. True by default.
    pub additional_properties: Option<AdditionalProperties>,
    /// The least number of properties.
    pub min_properties: Option<usize>,
    /// The greatest number of properties.
    pub max_properties: Option<usize>,
}

impl ObjectType {
    ghost use Rattle.openapi_schema.specs.declared.composite_types.ObjectType.{out-ObjectType};

    /// Creates the type of any object; every field is `None` or empty.
    pub fn new(alloc: Global) -> ObjectType
        ensures properties { (out-ObjectType result).properties ≡ [] }
        ensures required { (out-ObjectType result).required.items ≡ [] }
        ensures additional_properties { (out-ObjectType result).additional_properties ≡ None }
        ensures min_properties { (out-ObjectType result).min_properties ≡ None }
        ensures max_properties { (out-ObjectType result).max_properties ≡ None }
    {
        ObjectType {
            properties: OrderedMap::new(alloc),
            required: Vec::new(alloc),
            additional_properties: None,
            min_properties: None,
            max_properties: None,
        }
    }
}

/// A schema of `type` `array` (OpenAPI 3.0.3, section 4.7.24).
#[cycle(schema)]
#[derive(Clone, Debug, PartialEq, Drop)]
pub struct ArrayType {
    /// The schema of the items. OpenAPI requires it; here it may be missing, as in the Rust crate.
    pub items: Option<ReferenceOr<Box<Schema>>>,
    /// The least number of items.
    pub min_items: Option<usize>,
    /// The greatest number of items.
    pub max_items: Option<usize>,
    /// Whether no two items may be equal. False by default.
    pub unique_items: bool,
}

impl ArrayType {
    ghost use Rattle.openapi_schema.specs.declared.composite_types.ArrayType.{out-ArrayType};

    /// Creates the type of arrays of any length, with a schema for their items.
    pub fn new(items: ReferenceOr<Box<Schema>>) -> ArrayType
        ensures items { (out-ArrayType result).items ≡ Some items }
        ensures min_items { (out-ArrayType result).min_items ≡ None }
        ensures max_items { (out-ArrayType result).max_items ≡ None }
        ensures unique_items { (out-ArrayType result).unique_items ≡ false }
    {
        ArrayType {
            items: Some(items),
            min_items: None,
            max_items: None,
            unique_items: false,
        }
    }
}

impl Object for ObjectType {
    ghost table = { object_type };

    ghost rows_of = { object_fields };
}

#[tactic(auto, unfolding(openapi_tables::specs::Tables::final_tables, openapi_tables::specs::Tables::tables_with, openapi_tables::specs::Tables::object_rows))]
impl Record for ObjectType {
    fn from_members(alloc: Global, members: &Members, steps: &mut Steps) -> Result<Self> {
        read_rows!(alloc, members, steps, Self => ObjectType {
            properties: or_implied("properties"),
            required: or_implied("required"),
            additional_properties: optional("additionalProperties"),
            min_properties: optional("minProperties"),
            max_properties: optional("maxProperties"),
        })
    }

    fn put_rows(&self, alloc: Global, out: &mut Members) -> Result<()> {
        *out = object_rows(alloc, self)?;
        Ok(())
    }
}

impl Object for ArrayType {
    ghost table = { array_type };

    ghost rows_of = { array_fields };
}

#[tactic(auto, unfolding(openapi_tables::specs::Tables::final_tables, openapi_tables::specs::Tables::tables_with, openapi_tables::specs::Tables::array_rows))]
impl Record for ArrayType {
    fn from_members(alloc: Global, members: &Members, steps: &mut Steps) -> Result<Self> {
        read_rows!(alloc, members, steps, Self => ArrayType {
            items: optional("items"),
            min_items: optional("minItems"),
            max_items: optional("maxItems"),
            unique_items: or_implied("uniqueItems"),
        })
    }

    fn put_rows(&self, alloc: Global, out: &mut Members) -> Result<()> {
        *out = array_rows(alloc, self)?;
        Ok(())
    }
}
