#![tactic(auto, unfolding(openapi_tables::specs::Tables::final_tables, openapi_tables::specs::Tables::tables_with))]
//! The Discriminator Object.
ghost use Rattle.std.specs.Prelude.{◌≡◌, [], string_bytes};
ghost use Rattle.openapi_tables.specs.Kind.{discriminator};
ghost use Rattle.openapi_schema_types.specs.Annotations.{discriminator_rows};

use openapi_fields::{Object, Record, read_rows, write_rows};
use openapi_node::{Members, Node, OrderedMap, Result, Steps};
use std::alloc::Global;

/// The Discriminator Object (OpenAPI 3.0.3, section 4.7.25): how a payload selects the one of several schemas that
/// describes it.
#[derive(Clone, Debug, PartialEq, Drop)]
pub struct Discriminator {
    /// The name of the property in the payload that holds the discriminating value. Required.
    pub property_name: String,
    /// The names or references of schemas, by the values that the property may hold.
    pub mapping: OrderedMap<String>,
    /// Extensions: the members whose names begin with `x-`, in their order.
    pub extensions: OrderedMap<Node>,
}

impl Discriminator {
    /// Creates an empty `Discriminator`; every field is empty.
    pub fn new(alloc: Global) -> Discriminator
        ensures property_name { string_bytes result.property_name ≡ [] }
        ensures mapping { result.mapping ≡ [] }
        ensures extensions { result.extensions ≡ [] }
    {
        Discriminator {
            property_name: String::new(alloc),
            mapping: OrderedMap::new(alloc),
            extensions: OrderedMap::new(alloc),
        }
    }
}

impl Object for Discriminator {
    ghost table = { discriminator };

    ghost rows_of = { discriminator_rows };
}

impl Record for Discriminator {
    fn from_members(alloc: Global, members: &Members, steps: &mut Steps) -> Result<Self> {
        read_rows!(alloc, members, steps, Self => Discriminator {
            property_name: required("propertyName"),
            mapping: or_implied("mapping"),
            ..extensions
        })
    }

    fn put_rows(&self, alloc: Global, out: &mut Members) -> Result<()> {
        write_rows!(alloc, self, out => {
            property_name: put_required("propertyName"),
            mapping: put_implied("mapping"),
            ..extensions
        })
    }
}
