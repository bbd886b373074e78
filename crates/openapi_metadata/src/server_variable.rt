//! The Server Variable Object.
ghost use Rattle.std.specs.Prelude.{◌≡◌, [], None, string_bytes};
ghost use Rattle.openapi_tables.specs.Kind.{server_variable};
ghost use Rattle.openapi_metadata.specs.Objects.{server_variable_rows};

use openapi_fields::{Object, Record, read_rows, write_rows};
use openapi_node::{Members, Node, OrderedMap, Result, Steps};
use std::alloc::Global;

/// The Server Variable Object (OpenAPI 3.0.3, section 4.7.6): a variable of the URL of a server.
#[derive(Clone, Debug, PartialEq, Drop)]
pub struct ServerVariable {
    /// `enum`: the values that the variable is limited to. Empty if any value is allowed.
    pub enumeration: Vec<String>,
    /// The value that is used if none is supplied. Required.
    pub default: String,
    /// A description of the server variable, in CommonMark.
    pub description: Option<String>,
    /// Extensions: the members whose names begin with `x-`, in their order.
    pub extensions: OrderedMap<Node>,
}

impl ServerVariable {
    /// Creates an empty `ServerVariable`; every field is `None` or empty.
    pub fn new(alloc: Global) -> ServerVariable
        ensures enumeration { result.enumeration.items ≡ [] }
        ensures default { string_bytes result.default ≡ [] }
        ensures description { result.description ≡ None }
        ensures extensions { result.extensions ≡ [] }
    {
        ServerVariable {
            enumeration: Vec::new(alloc),
            default: String::new(alloc),
            description: None,
            extensions: OrderedMap::new(alloc),
        }
    }
}

impl Object for ServerVariable {
    ghost table = { server_variable };

    ghost rows_of = { server_variable_rows };
}

impl Record for ServerVariable {
    fn from_members(alloc: Global, members: &Members, steps: &mut Steps) -> Result<Self> {
        read_rows!(alloc, members, steps, Self => ServerVariable {
            enumeration: or_implied("enum"),
            default: required("default"),
            description: nullable("description"),
            ..extensions
        })
    }

    fn put_rows(&self, alloc: Global, out: &mut Members) -> Result<()> {
        write_rows!(alloc, self, out => {
            enumeration: put_implied("enum"),
            default: put_required("default"),
            description: put_nullable("description"),
            ..extensions
        })
    }
}
