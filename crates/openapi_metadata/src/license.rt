//! The License Object.
ghost use Rattle.std.specs.Prelude.{◌≡◌, [], None, string_bytes};
ghost use Rattle.openapi_tables.specs.Kind.{license};
ghost use Rattle.openapi_metadata.specs.Objects.{license_rows};

use openapi_fields::{Object, Record, read_rows, write_rows};
use openapi_node::{Members, Node, OrderedMap, Result, Steps};
use std::alloc::Global;

/// The License Object (OpenAPI 3.0.3, section 4.7.4): license information of the API.
#[derive(Clone, Debug, PartialEq, Drop)]
pub struct License {
    /// The name of the license. Required.
    pub name: String,
    /// The URL of the license.
    pub url: Option<String>,
    /// Extensions: the members whose names begin with `x-`, in their order.
    pub extensions: OrderedMap<Node>,
}

impl License {
    /// Creates an empty `License`; every field is `None` or empty.
    pub fn new(alloc: Global) -> License
        ensures name { string_bytes result.name ≡ [] }
        ensures url { result.url ≡ None }
        ensures extensions { result.extensions ≡ [] }
    {
        License {
            name: String::new(alloc),
            url: None,
            extensions: OrderedMap::new(alloc),
        }
    }
}

impl Object for License {
    ghost table = { license };

    ghost rows_of = { license_rows };
}

impl Record for License {
    fn from_members(alloc: Global, members: &Members, steps: &mut Steps) -> Result<Self> {
        read_rows!(alloc, members, steps, Self => License {
            name: required("name"),
            url: optional("url"),
            ..extensions
        })
    }

    fn put_rows(&self, alloc: Global, out: &mut Members) -> Result<()> {
        write_rows!(alloc, self, out => {
            name: put_required("name"),
            url: put_optional("url"),
            ..extensions
        })
    }
}
