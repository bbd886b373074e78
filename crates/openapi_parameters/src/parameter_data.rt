//! The fields that parameters of all locations have.
ghost use Rattle.std.specs.Prelude.{◌≡◌, [], None, false};
ghost use Rattle.openapi_tables.specs.Kind.{parameter_data};
ghost use Rattle.openapi_parameters.specs.Parameters.{parameter_data_rows};

use openapi_fields::{
    Object, Record, extensions, optional, or_implied, put_decided, required, write_rows,
};
use openapi_media_types::{ParameterSchemaOrContent, format_name, read_format, write_format};
use openapi_metadata::Example;
use openapi_node::{Members, Node, OrderedMap, Result, Steps};
use openapi_values::ReferenceOr;
use std::alloc::Global;

/// The fields that a Parameter Object (OpenAPI 3.0.3, section 4.7.12) has at all locations: all but `in`, `style` and
/// those of queries alone.
#[derive(Clone, Debug, PartialEq, Drop)]
pub struct ParameterData {
    /// The name of the parameter, which is case-sensitive. In a path it is the name of a template expression, and in a
    /// header that of the header. Required.
    pub name: String,
    /// A description of the parameter, in CommonMark.
    pub description: Option<String>,
    /// Whether the parameter is required. False by default. OpenAPI requires true in a path (not checked).
    pub required: bool,
    /// Whether the parameter should no longer be used.
    pub deprecated: Option<bool>,
    /// An example of the value. Mutually exclusive with `examples` (not checked).
    pub example: Option<Node>,
    /// Examples of the value, or references to some, by names. Mutually exclusive with `example` (not checked).
    pub examples: OrderedMap<ReferenceOr<Example>>,
    /// Whether each item of an array and each member of an object is a parameter of its own. By default true for the
    /// style `form`, and false for others.
    pub explode: Option<bool>,
    /// Extensions: the members whose names begin with `x-`, in their order.
    pub extensions: OrderedMap<Node>,
    /// The description of the value: `schema` or `content`. Required here, as in the Rust crate.
    pub format: ParameterSchemaOrContent,
}

impl ParameterData {
    /// Creates the fields of a parameter that is not required, with its name and its schema or content. Every other
    /// field is `None` or empty.
    pub fn new(alloc: Global, name: String, format: ParameterSchemaOrContent) -> ParameterData
        ensures name { result.name ≡ name }
        ensures description { result.description ≡ None }
        ensures required { result.required ≡ false }
        ensures deprecated { result.deprecated ≡ None }
        ensures example { result.example ≡ None }
        ensures examples { result.examples ≡ [] }
        ensures explode { result.explode ≡ None }
        ensures extensions { result.extensions ≡ [] }
        ensures format { result.format ≡ format }
    {
        ParameterData {
            name,
            description: None,
            required: false,
            deprecated: None,
            example: None,
            examples: OrderedMap::new(alloc),
            explode: None,
            extensions: OrderedMap::new(alloc),
            format,
        }
    }
}

impl Object for ParameterData {
    ghost table = { parameter_data };

    ghost rows_of = { parameter_data_rows };
}

#[tactic(auto, unfolding(openapi_tables::specs::Tables::final_tables, openapi_tables::specs::Tables::tables_with))]
impl Record for ParameterData {
    fn from_members(alloc: Global, members: &Members, steps: &mut Steps) -> Result<Self> {
        let required_flag = or_implied::<Self, _>(alloc, members, "required", steps)?;
        let deprecated = optional::<Self, _>(alloc, members, "deprecated", steps)?;
        let explode = optional::<Self, _>(alloc, members, "explode", steps)?;
        Ok(ParameterData {
            name: required::<Self, _>(alloc, members, "name", steps)?,
            description: optional::<Self, _>(alloc, members, "description", steps)?,
            required: required_flag,
            deprecated,
            example: optional::<Self, _>(alloc, members, "example", steps)?,
            examples: or_implied::<Self, _>(alloc, members, "examples", steps)?,
            explode,
            extensions: extensions::<Self>(alloc, members, steps)?,
            format: read_format(alloc, members, steps)?,
        })
    }

    fn put_rows(&self, alloc: Global, out: &mut Members) -> Result<()> {
        write_rows!(alloc, self, out => {
            name: put_required("name"),
            description: put_optional("description"),
            required: put_implied("required"),
            deprecated: put_optional("deprecated"),
        });
        put_decided(
            alloc,
            self,
            out,
            "schema",
            format_name(&self.format),
            write_format(alloc, &self.format),
        )?;
        write_rows!(alloc, self, out => {
            example: put_optional("example"),
            examples: put_implied("examples"),
            explode: put_optional("explode"),
            ..extensions
        })
    }
}
