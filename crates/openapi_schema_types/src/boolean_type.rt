//! Schemas of booleans.
ghost use Rattle.std.specs.Prelude.{◌≡◌, []};
ghost use Rattle.openapi_tables.specs.Kind.{boolean_type};
ghost use Rattle.openapi_schema_types.specs.PartForms.{boolean_type_rows};

use openapi_fields::{Object, Record, put_implied, read_rows};
use openapi_node::{Members, Node, Result, Steps};
use std::alloc::Global;

/// A schema of `type` `boolean` (OpenAPI 3.0.3, section 4.7.24).
#[derive(Clone, Debug, PartialEq, Drop)]
pub struct BooleanType {
    /// `enum`: the booleans that are allowed, which may include `null`. Empty if any is allowed.
    pub enumeration: Vec<Option<bool>>,
}

impl BooleanType {
    /// Creates a schema of any boolean, with an empty `enumeration`.
    pub fn new(alloc: Global) -> BooleanType
        ensures { result.enumeration.items ≡ [] }
    {
        BooleanType {
            enumeration: Vec::new(alloc),
        }
    }
}

impl Object for BooleanType {
    ghost table = { boolean_type };

    ghost rows_of = { boolean_type_rows };
}

#[tactic(auto, unfolding(openapi_tables::specs::Tables::final_tables, openapi_tables::specs::Tables::tables_with, openapi_tables::specs::Tables::boolean_rows))]
impl Record for BooleanType {
    fn from_members(alloc: Global, members: &Members, steps: &mut Steps) -> Result<Self> {
        read_rows!(alloc, members, steps, Self => BooleanType {
            enumeration: or_implied("enum"),
        })
    }

    fn put_rows(&self, alloc: Global, out: &mut Members) -> Result<()> {
        put_implied(alloc, self, out, "enum", &self.enumeration)
    }
}
