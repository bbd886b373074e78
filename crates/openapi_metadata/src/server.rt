//! The Server Object.
ghost use Rattle.std.specs.Prelude.{◌≡◌, [], None, string_bytes};
ghost use Rattle.openapi_tables.specs.Kind.{server};
ghost use Rattle.openapi_metadata.specs.Objects.{server_rows};

use crate::server_variable::ServerVariable;
use openapi_fields::{Object, Record, read_rows, write_rows};
use openapi_node::{Members, Node, OrderedMap, Result, Steps};
use std::alloc::Global;

/// The Server Object (OpenAPI 3.0.3, section 4.7.5): a server that offers the API.
#[derive(Clone, Debug, PartialEq, Drop)]
pub struct Server {
    /// The URL of the target host, which may be relative to the document. Variable names are in braces. Required.
    pub url: String,
    /// A description of the host, in CommonMark.
    pub description: Option<String>,
    /// The server variables by their names; their values are substituted into the URL.
    pub variables: Option<OrderedMap<ServerVariable>>,
    /// Extensions: the members whose names begin with `x-`, in their order.
    pub extensions: OrderedMap<Node>,
}

impl Server {
    /// Creates an empty `Server`; every field is `None` or empty.
    pub fn new(alloc: Global) -> Server
        ensures url { string_bytes result.url ≡ [] }
        ensures description { result.description ≡ None }
        ensures variables { result.variables ≡ None }
        ensures extensions { result.extensions ≡ [] }
    {
        Server {
            url: String::new(alloc),
            description: None,
            variables: None,
            extensions: OrderedMap::new(alloc),
        }
    }
}

impl Object for Server {
    ghost table = { server };

    ghost rows_of = { server_rows };
}

impl Record for Server {
    fn from_members(alloc: Global, members: &Members, steps: &mut Steps) -> Result<Self> {
        read_rows!(alloc, members, steps, Self => Server {
            url: required("url"),
            description: optional("description"),
            variables: optional("variables"),
            ..extensions
        })
    }

    fn put_rows(&self, alloc: Global, out: &mut Members) -> Result<()> {
        write_rows!(alloc, self, out => {
            url: put_required("url"),
            description: put_optional("description"),
            variables: put_optional("variables"),
            ..extensions
        })
    }
}
