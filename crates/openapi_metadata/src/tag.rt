//! The Tag Object.
ghost use Rattle.std.specs.Prelude.{◌≡◌, [], None, string_bytes};
ghost use Rattle.openapi_tables.specs.Kind.{tag};
ghost use Rattle.openapi_metadata.specs.Objects.{tag_rows};

use openapi_fields::{Object, Record, read_rows, write_rows};
use openapi_node::{Members, Node, OrderedMap, Result, Steps};
use openapi_schema_types::ExternalDocumentation;
use std::alloc::Global;

/// The Tag Object (OpenAPI 3.0.3, section 4.7.22): metadata of a tag by which operations are grouped.
#[derive(Clone, Debug, PartialEq, Drop)]
pub struct Tag {
    /// The name of the tag, by which operations refer to it. Required.
    pub name: String,
    /// A description of the tag, in CommonMark.
    pub description: Option<String>,
    /// Extensions: the members whose names begin with `x-`, in their order.
    pub extensions: OrderedMap<Node>,
    /// External documentation of the tag.
    pub external_docs: Option<ExternalDocumentation>,
}

impl Tag {
    /// Creates an empty `Tag`; every field is `None` or empty.
    pub fn new(alloc: Global) -> Tag
        ensures name { string_bytes result.name ≡ [] }
        ensures description { result.description ≡ None }
        ensures external_docs { result.external_docs ≡ None }
        ensures extensions { result.extensions ≡ [] }
    {
        Tag {
            name: String::new(alloc),
            description: None,
            external_docs: None,
            extensions: OrderedMap::new(alloc),
        }
    }
}

impl Object for Tag {
    ghost table = { tag };

    ghost rows_of = { tag_rows };
}

impl Record for Tag {
    fn from_members(alloc: Global, members: &Members, steps: &mut Steps) -> Result<Self> {
        read_rows!(alloc, members, steps, Self => Tag {
            name: required("name"),
            description: optional("description"),
            external_docs: optional("externalDocs"),
            ..extensions
        })
    }

    fn put_rows(&self, alloc: Global, out: &mut Members) -> Result<()> {
        write_rows!(alloc, self, out => {
            name: put_required("name"),
            description: put_optional("description"),
            external_docs: put_optional("externalDocs"),
            ..extensions
        })
    }
}
