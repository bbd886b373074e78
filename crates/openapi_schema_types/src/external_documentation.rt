#![tactic(auto, unfolding(openapi_tables::specs::Tables::final_tables, openapi_tables::specs::Tables::tables_with))]
//! The External Documentation Object.
ghost use Rattle.std.specs.Prelude.{◌≡◌, [], None, string_bytes};
ghost use Rattle.openapi_tables.specs.Kind.{external_documentation};
ghost use Rattle.openapi_schema_types.specs.Annotations.{external_documentation_rows};

use openapi_fields::{Object, Record, read_rows, write_rows};
use openapi_node::{Members, Node, OrderedMap, Result, Steps};
use std::alloc::Global;

/// The External Documentation Object (OpenAPI 3.0.3, section 4.7.11): a resource outside the document with further
/// documentation.
#[derive(Clone, Debug, PartialEq, Drop)]
pub struct ExternalDocumentation {
    /// A description of the target documentation, in CommonMark.
    pub description: Option<String>,
    /// The URL of the target documentation. Required.
    pub url: String,
    /// Extensions: the members whose names begin with `x-`, in their order.
    pub extensions: OrderedMap<Node>,
}

impl ExternalDocumentation {
    /// Creates an empty `ExternalDocumentation`; every field is `None` or empty.
    pub fn new(alloc: Global) -> ExternalDocumentation
        ensures description { result.description ≡ None }
        ensures url { string_bytes result.url ≡ [] }
        ensures extensions { result.extensions ≡ [] }
    {
        ExternalDocumentation {
            description: None,
            url: String::new(alloc),
            extensions: OrderedMap::new(alloc),
        }
    }
}

impl Object for ExternalDocumentation {
    ghost table = { external_documentation };

    ghost rows_of = { external_documentation_rows };
}

impl Record for ExternalDocumentation {
    fn from_members(alloc: Global, members: &Members, steps: &mut Steps) -> Result<Self> {
        read_rows!(alloc, members, steps, Self => ExternalDocumentation {
            description: optional("description"),
            url: required("url"),
            ..extensions
        })
    }

    fn put_rows(&self, alloc: Global, out: &mut Members) -> Result<()> {
        write_rows!(alloc, self, out => {
            description: put_optional("description"),
            url: put_required("url"),
            ..extensions
        })
    }
}
