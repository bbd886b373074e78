//! Schemas of strings.
ghost use Rattle.std.specs.Prelude.{◌≡◌, [], None};
ghost use Rattle.openapi_tables.specs.Kind.{string_type};
ghost use Rattle.openapi_values.specs.declared.variant_or.VariantOrUnknownOrEmpty.TheVariants.{Empty};
ghost use Rattle.openapi_schema_types.specs.PartForms.{string_type_rows};

use openapi_fields::{Object, Record, put_optional, read_rows, write_rows};
use openapi_node::{Members, Node, Result, Steps};
use openapi_values::{StringFormat, VariantOrUnknownOrEmpty};
use std::alloc::Global;

/// A schema of `type` `string` (OpenAPI 3.0.3, section 4.7.24).
#[derive(Clone, Debug, PartialEq, Drop)]
pub struct StringType {
    /// The format of the string: one that OpenAPI or this crate knows, another text, or none.
    pub format: VariantOrUnknownOrEmpty<StringFormat>,
    /// A regular expression (ECMA 262) that the string has to match.
    pub pattern: Option<String>,
    /// `enum`: the strings that are allowed, which may include `null`. Empty if any is allowed.
    pub enumeration: Vec<Option<String>>,
    /// The least number of characters.
    pub min_length: Option<usize>,
    /// The greatest number of characters.
    pub max_length: Option<usize>,
}

impl StringType {
    /// Creates a schema of any string; every field is `None` or empty.
    pub fn new(alloc: Global) -> StringType
        ensures format { result.format ≡ Empty }
        ensures pattern { result.pattern ≡ None }
        ensures enumeration { result.enumeration.items ≡ [] }
        ensures min_length { result.min_length ≡ None }
        ensures max_length { result.max_length ≡ None }
    {
        StringType {
            format: VariantOrUnknownOrEmpty::Empty,
            pattern: None,
            enumeration: Vec::new(alloc),
            min_length: None,
            max_length: None,
        }
    }
}

impl Object for StringType {
    ghost table = { string_type };

    ghost rows_of = { string_type_rows };
}

#[tactic(auto, unfolding(openapi_tables::specs::Tables::final_tables, openapi_tables::specs::Tables::tables_with, openapi_tables::specs::Tables::string_rows))]
impl Record for StringType {
    fn from_members(alloc: Global, members: &Members, steps: &mut Steps) -> Result<Self> {
        read_rows!(alloc, members, steps, Self => StringType {
            format: or_implied("format"),
            pattern: optional("pattern"),
            enumeration: or_implied("enum"),
            min_length: optional("minLength"),
            max_length: optional("maxLength"),
        })
    }

    fn put_rows(&self, alloc: Global, out: &mut Members) -> Result<()> {
        write_rows!(alloc, self, out => {
            format: put_implied("format"),
            pattern: put_optional("pattern"),
            enumeration: put_implied("enum"),
            min_length: put_optional("minLength"),
        });
        put_optional(alloc, self, out, "maxLength", &self.max_length)
    }
}
