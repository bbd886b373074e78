//! The annotations of schemas.
ghost use Rattle.std.specs.Prelude.{◌≡◌, false, [], None};
ghost use Rattle.openapi_tables.specs.Kind.{schema_data};
ghost use Rattle.openapi_schema_types.specs.PartForms.{schema_data_rows};

use crate::discriminator::Discriminator;
use crate::external_documentation::ExternalDocumentation;
use crate::xml::Xml;
use openapi_fields::{Object, Record, extensions, from_joined, optional, or_implied, write_rows};
use openapi_node::{Members, Node, OrderedMap, Result, Steps};
use std::alloc::Global;

/// The annotations of a Schema Object (OpenAPI 3.0.3, section 4.7.24), which schemas of every kind may have.
///
/// Each flag is false by default.
#[derive(Clone, Debug, PartialEq, Drop)]
pub struct SchemaData {
    /// Whether null is allowed too.
    pub nullable: bool,
    /// `readOnly`: whether the property may be sent only in a response, and not in a request.
    pub read_only: bool,
    /// `writeOnly`: whether the property may be sent only in a request, and not in a response.
    pub write_only: bool,
    /// Whether the schema is deprecated, and should go out of use.
    pub deprecated: bool,
    /// External documentation of the schema.
    pub external_docs: Option<ExternalDocumentation>,
    /// A free-form example of an instance of the schema.
    pub example: Option<Node>,
    /// The title of the schema, as in JSON Schema.
    pub title: Option<String>,
    /// A description of the schema, in CommonMark.
    pub description: Option<String>,
    /// Which property of a payload selects the one of several schemas that describes it.
    pub discriminator: Option<Discriminator>,
    /// The value that a receiver assumes if there is none.
    pub default: Option<Node>,
    /// How the schema's property is represented in XML.
    pub xml: Option<Xml>,
    /// Extensions: the members whose names begin with `x-`, in their order.
    pub extensions: OrderedMap<Node>,
}

impl SchemaData {
    /// Creates empty annotations; every flag is false, and every other field is `None` or empty.
    pub fn new(alloc: Global) -> SchemaData
        ensures nullable { result.nullable ≡ false }
        ensures read_only { result.read_only ≡ false }
        ensures write_only { result.write_only ≡ false }
        ensures deprecated { result.deprecated ≡ false }
        ensures external_docs { result.external_docs ≡ None }
        ensures example { result.example ≡ None }
        ensures title { result.title ≡ None }
        ensures description { result.description ≡ None }
        ensures discriminator { result.discriminator ≡ None }
        ensures default { result.default ≡ None }
        ensures xml { result.xml ≡ None }
        ensures extensions { result.extensions ≡ [] }
    {
        SchemaData {
            nullable: false,
            read_only: false,
            write_only: false,
            deprecated: false,
            external_docs: None,
            example: None,
            title: None,
            description: None,
            discriminator: None,
            default: None,
            xml: None,
            extensions: OrderedMap::new(alloc),
        }
    }
}

impl Object for SchemaData {
    ghost table = { schema_data };

    ghost rows_of = { schema_data_rows };
}

#[tactic(auto, unfolding(openapi_tables::specs::Tables::final_tables, openapi_tables::specs::Tables::tables_with))]
impl Record for SchemaData {
    fn from_members(alloc: Global, members: &Members, steps: &mut Steps) -> Result<Self> {
        from_joined!(SchemaData {
            nullable: or_implied::<Self, _>(alloc, members, "nullable", steps),
            read_only: or_implied::<Self, _>(alloc, members, "readOnly", steps),
            write_only: or_implied::<Self, _>(alloc, members, "writeOnly", steps),
            deprecated: or_implied::<Self, _>(alloc, members, "deprecated", steps),
            external_docs: optional::<Self, _>(alloc, members, "externalDocs", steps),
            example: optional::<Self, _>(alloc, members, "example", steps),
            title: optional::<Self, _>(alloc, members, "title", steps),
            description: optional::<Self, _>(alloc, members, "description", steps),
            discriminator: optional::<Self, _>(alloc, members, "discriminator", steps),
            default: optional::<Self, _>(alloc, members, "default", steps),
            xml: optional::<Self, _>(alloc, members, "xml", steps),
            extensions: extensions::<Self>(alloc, members, steps),
        })
    }

    fn put_rows(&self, alloc: Global, out: &mut Members) -> Result<()> {
        write_rows!(alloc, self, out => {
            nullable: put_implied("nullable"),
            read_only: put_implied("readOnly"),
            write_only: put_implied("writeOnly"),
            deprecated: put_implied("deprecated"),
            external_docs: put_optional("externalDocs"),
            example: put_optional("example"),
            title: put_optional("title"),
            description: put_optional("description"),
            discriminator: put_optional("discriminator"),
            default: put_optional("default"),
            xml: put_optional("xml"),
            ..extensions
        })
    }
}
