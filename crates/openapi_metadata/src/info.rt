//! The Info Object.
ghost use Rattle.std.specs.Prelude.{◌≡◌, [], None, string_bytes};
ghost use Rattle.openapi_tables.specs.Kind.{info};
ghost use Rattle.openapi_metadata.specs.Objects.{info_rows};

use crate::contact::Contact;
use crate::license::License;
use openapi_fields::{Object, Record, read_rows, write_rows};
use openapi_node::{Members, Node, OrderedMap, Result, Steps};
use std::alloc::Global;

/// The Info Object (OpenAPI 3.0.3, section 4.7.2): metadata about the API.
#[derive(Clone, Debug, PartialEq, Drop)]
pub struct Info {
    /// The title of the API. Required.
    pub title: String,
    /// A description of the API, in CommonMark.
    pub description: Option<String>,
    /// The URL of the terms of service of the API.
    pub terms_of_service: Option<String>,
    /// The version of the OpenAPI document, not that of the specification or of the API's implementation. Required.
    pub version: String,
    /// Extensions: the members whose names begin with `x-`, in their order.
    pub extensions: OrderedMap<Node>,
    /// The license information of the API.
    pub license: Option<License>,
    /// The contact information of the API.
    pub contact: Option<Contact>,
}

impl Info {
    /// Creates an empty `Info`; every field is `None` or empty.
    pub fn new(alloc: Global) -> Info
        ensures title { string_bytes result.title ≡ [] }
        ensures description { result.description ≡ None }
        ensures terms_of_service { result.terms_of_service ≡ None }
        ensures contact { result.contact ≡ None }
        ensures license { result.license ≡ None }
        ensures version { string_bytes result.version ≡ [] }
        ensures extensions { result.extensions ≡ [] }
    {
        Info {
            title: String::new(alloc),
            description: None,
            terms_of_service: None,
            contact: None,
            license: None,
            version: String::new(alloc),
            extensions: OrderedMap::new(alloc),
        }
    }
}

impl Object for Info {
    ghost table = { info };

    ghost rows_of = { info_rows };
}

impl Record for Info {
    fn from_members(alloc: Global, members: &Members, steps: &mut Steps) -> Result<Self> {
        read_rows!(alloc, members, steps, Self => Info {
            title: required("title"),
            description: optional("description"),
            terms_of_service: optional("termsOfService"),
            contact: optional("contact"),
            license: optional("license"),
            version: required("version"),
            ..extensions
        })
    }

    fn put_rows(&self, alloc: Global, out: &mut Members) -> Result<()> {
        write_rows!(alloc, self, out => {
            title: put_required("title"),
            description: put_optional("description"),
            terms_of_service: put_optional("termsOfService"),
            contact: put_optional("contact"),
            license: put_optional("license"),
            version: put_required("version"),
            ..extensions
        })
    }
}
