//! The Responses Object.
ghost use Rattle.std.specs.Prelude.{◌≡◌, [], None};
ghost use Rattle.openapi_tables.specs.Kind.{responses};
ghost use Rattle.openapi_responses.specs.Messages.{responses_rows};

use crate::codes::{coded_entries, put_coded};
use crate::response::Response;
use indexmap::IndexMap;
use openapi_fields::{Object, Record, extensions, optional, put_extensions, put_optional};
use openapi_node::{Members, Node, OrderedMap, Result, Steps};
use openapi_values::{ReferenceOr, StatusCode};
use std::alloc::Global;

/// The Responses Object (OpenAPI 3.0.3, section 4.7.16): the possible responses of an operation, by their status codes.
#[derive(Clone, Debug, PartialEq, Drop)]
pub struct Responses {
    /// The response for all codes that are not listed, or a reference to one.
    pub default: Option<ReferenceOr<Response>>,
    /// Extensions: the members whose names begin with `x-`, in their order.
    pub extensions: OrderedMap<Node>,
    /// The response, or a reference to one, for each status code or range of codes, in their order. Of two names of one
    /// code, such as `2xx` and `2XX`, both values are checked, and the later one replaces the earlier. A range may
    /// begin with any digit, although OpenAPI lists only `1XX` to `5XX`. A code from 100 to 999 and a range of one
    /// digit can be written; any other code would not be read again.
    pub responses: IndexMap<StatusCode, ReferenceOr<Response>>,
}

impl Responses {
    /// Creates an empty `Responses`; every field is `None` or empty.
    pub fn new(alloc: Global) -> Responses
        ensures default { result.default ≡ None }
        ensures responses { result.responses.entries ≡ [] }
        ensures extensions { result.extensions ≡ [] }
    {
        Responses {
            default: None,
            responses: IndexMap::new(alloc),
            extensions: OrderedMap::new(alloc),
        }
    }
}

impl Object for Responses {
    ghost table = { responses };

    ghost rows_of = { responses_rows };
}

#[tactic(auto, unfolding(openapi_tables::specs::Tables::final_tables, openapi_tables::specs::Tables::tables_with))]
impl Record for Responses {
    fn from_members(alloc: Global, members: &Members, steps: &mut Steps) -> Result<Self> {
        Ok(Responses {
            extensions: extensions::<Self>(alloc, members, steps)?,
            default: optional::<Self, _>(alloc, members, "default", steps)?,
            responses: coded_entries::<Self, _>(alloc, members, steps)?,
        })
    }

    fn put_rows(&self, alloc: Global, out: &mut Members) -> Result<()> {
        put_optional(alloc, self, out, "default", &self.default)?;
        put_coded(alloc, self, out, &self.responses)?;
        put_extensions(alloc, self, out, &self.extensions)
    }
}
