//! The OpenAPI Object.
ghost use Rattle.std.specs.Prelude.{◌≡◌, [], None, string_bytes};
ghost use Rattle.openapi_tables.specs.Kind as kinds;
ghost use Rattle.openapi_documents.specs.Documents.{open_api_rows};

use crate::components::Components;
use crate::paths::Paths;
use openapi_fields::{
    Object, Record, extensions, from_joined, optional, or_implied, required, write_rows,
};
use openapi_metadata::{Info, Server, Tag};
use openapi_node::{Members, Node, OrderedMap, Result, Steps};
use openapi_schema_types::ExternalDocumentation;
use openapi_security::SecurityRequirement;
use std::alloc::Global;

/// The OpenAPI Object (OpenAPI 3.0.3, section 4.7.1): a whole document.
#[derive(Clone, Debug, PartialEq, Drop)]
pub struct OpenAPI {
    /// The version of the OpenAPI Specification that the document follows, such as `3.0.3`. Required; its value is not
    /// checked.
    pub openapi: String,
    /// The servers of the API. If there are none, the API is at the URL `/`.
    pub servers: Vec<Server>,
    /// The security requirements of every operation that has none of its own. A call has to meet one of them.
    pub security: Option<Vec<SecurityRequirement>>,
    /// The tags of operations, in the order in which tools show them.
    pub tags: Vec<Tag>,
    /// External documentation of the API.
    pub external_docs: Option<ExternalDocumentation>,
    /// Extensions: the members whose names begin with `x-`, in their order.
    pub extensions: OrderedMap<Node>,
    /// The paths of the API and their operations. Required.
    pub paths: Paths,
    /// Metadata about the API. Required.
    pub info: Info,
    /// The objects to which the document may refer.
    pub components: Option<Components>,
}

impl OpenAPI {
    /// Creates an empty document; every field, also of `info` and `paths`, is `None` or empty.
    pub fn new(alloc: Global) -> OpenAPI
        ensures openapi { string_bytes result.openapi ≡ [] }
        ensures title { string_bytes result.info.title ≡ [] }
        ensures description { result.info.description ≡ None }
        ensures terms_of_service { result.info.terms_of_service ≡ None }
        ensures contact { result.info.contact ≡ None }
        ensures license { result.info.license ≡ None }
        ensures version { string_bytes result.info.version ≡ [] }
        ensures info_extensions { result.info.extensions ≡ [] }
        ensures servers { result.servers.items ≡ [] }
        ensures paths { result.paths.paths ≡ [] }
        ensures paths_extensions { result.paths.extensions ≡ [] }
        ensures components { result.components ≡ None }
        ensures security { result.security ≡ None }
        ensures tags { result.tags.items ≡ [] }
        ensures external_docs { result.external_docs ≡ None }
        ensures extensions { result.extensions ≡ [] }
    {
        OpenAPI {
            openapi: String::new(alloc),
            info: Info::new(alloc),
            servers: Vec::new(alloc),
            paths: Paths::new(alloc),
            components: None,
            security: None,
            tags: Vec::new(alloc),
            external_docs: None,
            extensions: OrderedMap::new(alloc),
        }
    }
}

impl Object for OpenAPI {
    ghost table = { kinds.open_api };

    ghost rows_of = { open_api_rows };
}

#[tactic(auto, unfolding(openapi_tables::specs::Tables::final_tables, openapi_tables::specs::Tables::tables_with))]
impl Record for OpenAPI {
    fn from_members(alloc: Global, members: &Members, steps: &mut Steps) -> Result<Self> {
        from_joined!(OpenAPI {
            openapi: required::<Self, _>(alloc, members, "openapi", steps),
            info: required::<Self, _>(alloc, members, "info", steps),
            servers: or_implied::<Self, _>(alloc, members, "servers", steps),
            tags: or_implied::<Self, _>(alloc, members, "tags", steps),
            external_docs: optional::<Self, _>(alloc, members, "externalDocs", steps),
            security: optional::<Self, _>(alloc, members, "security", steps),
            extensions: extensions::<Self>(alloc, members, steps),
            paths: required::<Self, _>(alloc, members, "paths", steps),
            components: optional::<Self, _>(alloc, members, "components", steps),
        })
    }

    fn put_rows(&self, alloc: Global, out: &mut Members) -> Result<()> {
        write_rows!(alloc, self, out => {
            openapi: put_required("openapi"),
            info: put_required("info"),
            servers: put_implied("servers"),
            paths: put_required("paths"),
            components: put_optional("components"),
            security: put_optional("security"),
            tags: put_implied("tags"),
            external_docs: put_optional("externalDocs"),
            ..extensions
        })
    }
}
