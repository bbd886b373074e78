//! How a parameter or a header is described: by a schema or by its content.
ghost use Rattle.std.specs.Prelude.{◌≡◌};
ghost use Rattle.openapi_tables.specs.Kind.{schema_or_content};
ghost use Rattle.openapi_media_types.specs.ContentForms.{deciding_name, format_form};
ghost use Rattle.openapi_media_types.specs.Fields.{format_fields};

use crate::media_type::Content;
use crate::read::read_format;
use crate::write::write_format;
use openapi_fields::{Object, Record, put_decided};
use openapi_node::{Members, Node, Result, Steps};
use openapi_schema::Schema;
use openapi_values::ReferenceOr;
use std::alloc::Global;

/// The description of a parameter (OpenAPI 3.0.3, section 4.7.12) or a header: a `schema` or a `content`. OpenAPI
/// allows only one of the two; of an object with both, the first one is read.
#[cycle(contents)]
#[derive(Clone, Debug, PartialEq, Drop)]
pub enum ParameterSchemaOrContent {
    /// `schema`: the schema of the type, or a reference to one.
    Schema(ReferenceOr<Schema>),
    /// `content`: the media type with its description. OpenAPI requires exactly one entry (not checked).
    Content(Content),
}

/// Returns the name of the member that describes a parameter or a header: `schema` or `content`.
pub fn format_name(format: &ParameterSchemaOrContent) -> &'static str
    ensures { result.now ≡ deciding_name (format_form format.now) }
{
    match format {
        ParameterSchemaOrContent::Schema(_) => "schema",
        ParameterSchemaOrContent::Content(_) => "content",
    }
}

impl Object for ParameterSchemaOrContent {
    ghost table = { schema_or_content };

    ghost rows_of = { format_fields };
}

#[tactic(auto, unfolding(openapi_tables::specs::Tables::final_tables, openapi_tables::specs::Tables::tables_with))]
impl Record for ParameterSchemaOrContent {
    fn from_members(alloc: Global, members: &Members, steps: &mut Steps) -> Result<Self> {
        read_format(alloc, members, steps)
    }

    fn put_rows(&self, alloc: Global, out: &mut Members) -> Result<()> {
        put_decided(
            alloc,
            self,
            out,
            "schema",
            format_name(self),
            write_format(alloc, self),
        )
    }
}
