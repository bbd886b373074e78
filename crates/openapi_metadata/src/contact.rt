//! The Contact Object.
ghost use Rattle.std.specs.Prelude.{◌≡◌, [], None};
ghost use Rattle.openapi_tables.specs.Kind.{contact};
ghost use Rattle.openapi_metadata.specs.Objects.{contact_rows};

use openapi_fields::{Object, Record, read_rows, write_rows};
use openapi_node::{Members, Node, OrderedMap, Result, Steps};
use std::alloc::Global;

/// The Contact Object (OpenAPI 3.0.3, section 4.7.3): contact information of the API.
#[derive(Clone, Debug, PartialEq, Drop)]
pub struct Contact {
    /// The name of the contact person or organization.
    pub name: Option<String>,
    /// The URL of the contact information.
    pub url: Option<String>,
    /// The email address of the contact person or organization.
    pub email: Option<String>,
    /// Extensions: the members whose names begin with `x-`, in their order.
    pub extensions: OrderedMap<Node>,
}

impl Contact {
    /// Creates an empty `Contact`; every field is `None` or empty.
    pub fn new(alloc: Global) -> Contact
        ensures name { result.name ≡ None }
        ensures url { result.url ≡ None }
        ensures email { result.email ≡ None }
        ensures extensions { result.extensions ≡ [] }
    {
        Contact {
            name: None,
            url: None,
            email: None,
            extensions: OrderedMap::new(alloc),
        }
    }
}

impl Object for Contact {
    ghost table = { contact };

    ghost rows_of = { contact_rows };
}

impl Record for Contact {
    fn from_members(alloc: Global, members: &Members, steps: &mut Steps) -> Result<Self> {
        read_rows!(alloc, members, steps, Self => Contact {
            name: optional("name"),
            url: optional("url"),
            email: optional("email"),
            ..extensions
        })
    }

    fn put_rows(&self, alloc: Global, out: &mut Members) -> Result<()> {
        write_rows!(alloc, self, out => {
            name: put_optional("name"),
            url: put_optional("url"),
            email: put_optional("email"),
            ..extensions
        })
    }
}
