//! Schemas of numbers.
ghost use Rattle.std.specs.Prelude.{◌≡◌, false, [], None};
ghost use Rattle.openapi_tables.specs.Kind.{number_type};
ghost use Rattle.openapi_values.specs.declared.variant_or.VariantOrUnknownOrEmpty.TheVariants.{Empty};
ghost use Rattle.openapi_schema_types.specs.PartForms.{number_type_rows};

use openapi_fields::{Object, Record, put_implied, read_rows, write_rows};
use openapi_node::{Members, Node, Result, Steps, Whole};
use openapi_values::{NumberFormat, VariantOrUnknownOrEmpty};
use std::alloc::Global;

/// A schema of `type` `number` (OpenAPI 3.0.3, section 4.7.24). In this library, its limits are whole numbers.
#[derive(Clone, Debug, PartialEq, Drop)]
pub struct NumberType {
    /// The format of the number: `float`, `double`, another text, or none.
    pub format: VariantOrUnknownOrEmpty<NumberFormat>,
    /// The number has to be a multiple of this.
    pub multiple_of: Option<Whole>,
    /// Whether `minimum` itself is excluded. False by default.
    pub exclusive_minimum: bool,
    /// Whether `maximum` itself is excluded. False by default.
    pub exclusive_maximum: bool,
    /// The least number that is allowed.
    pub minimum: Option<Whole>,
    /// The greatest number that is allowed.
    pub maximum: Option<Whole>,
    /// `enum`: the numbers that are allowed, which may include `null`. Empty if any is allowed.
    pub enumeration: Vec<Option<Whole>>,
}

impl NumberType {
    /// Creates a schema of any number; every flag is false, and every other field is `None` or empty.
    pub fn new(alloc: Global) -> NumberType
        ensures format { result.format ≡ Empty }
        ensures multiple_of { result.multiple_of ≡ None }
        ensures exclusive_minimum { result.exclusive_minimum ≡ false }
        ensures exclusive_maximum { result.exclusive_maximum ≡ false }
        ensures minimum { result.minimum ≡ None }
        ensures maximum { result.maximum ≡ None }
        ensures enumeration { result.enumeration.items ≡ [] }
    {
        NumberType {
            format: VariantOrUnknownOrEmpty::Empty,
            multiple_of: None,
            exclusive_minimum: false,
            exclusive_maximum: false,
            minimum: None,
            maximum: None,
            enumeration: Vec::new(alloc),
        }
    }
}

impl Object for NumberType {
    ghost table = { number_type };

    ghost rows_of = { number_type_rows };
}

#[tactic(auto, unfolding(openapi_tables::specs::Tables::final_tables, openapi_tables::specs::Tables::tables_with))]
impl Record for NumberType {
    fn from_members(alloc: Global, members: &Members, steps: &mut Steps) -> Result<Self> {
        read_rows!(alloc, members, steps, Self => NumberType {
            format: or_implied("format"),
            multiple_of: optional("multipleOf"),
            exclusive_minimum: or_implied("exclusiveMinimum"),
            exclusive_maximum: or_implied("exclusiveMaximum"),
            minimum: optional("minimum"),
            maximum: optional("maximum"),
            enumeration: or_implied("enum"),
        })
    }

    fn put_rows(&self, alloc: Global, out: &mut Members) -> Result<()> {
        write_rows!(alloc, self, out => {
            format: put_implied("format"),
            multiple_of: put_optional("multipleOf"),
            exclusive_minimum: put_implied("exclusiveMinimum"),
            exclusive_maximum: put_implied("exclusiveMaximum"),
            minimum: put_optional("minimum"),
            maximum: put_optional("maximum"),
        });
        put_implied(alloc, self, out, "enum", &self.enumeration)
    }
}
