//! The OAuth Flow Object: the implicit flow.
ghost use Rattle.std.specs.Prelude.{◌≡◌, [], None};
ghost use Rattle.openapi_tables.specs.Kind.{implicit_flow};
ghost use Rattle.openapi_security.specs.Flows.{implicit_flow_rows};

use openapi_fields::{Object, Record, read_rows, write_rows};
use openapi_node::{Members, Node, OrderedMap, Result, Steps};
use std::alloc::Global;

/// The OAuth Flow Object (OpenAPI 3.0.3, section 4.7.29) of the implicit flow of OAuth 2.
#[derive(Clone, Debug, PartialEq, Drop)]
pub struct ImplicitOAuth2Flow {
    /// The authorization URL of the flow. Required.
    pub authorization_url: String,
    /// The URL at which refresh tokens are obtained.
    pub refresh_url: Option<String>,
    /// The scopes of the flow: the name of each with a short description. Required, and may be empty.
    pub scopes: OrderedMap<String>,
    /// Extensions: the members whose names begin with `x-`, in their order.
    pub extensions: OrderedMap<Node>,
}

impl ImplicitOAuth2Flow {
    /// Creates a flow with its authorization URL and its scopes; every other field is `None` or empty.
    pub fn new(
        alloc: Global,
        authorization_url: String,
        scopes: OrderedMap<String>,
    ) -> ImplicitOAuth2Flow
        ensures authorization_url { result.authorization_url ≡ authorization_url }
        ensures refresh_url { result.refresh_url ≡ None }
        ensures scopes { result.scopes ≡ scopes }
        ensures extensions { result.extensions ≡ [] }
    {
        ImplicitOAuth2Flow {
            authorization_url,
            refresh_url: None,
            scopes,
            extensions: OrderedMap::new(alloc),
        }
    }
}

impl Object for ImplicitOAuth2Flow {
    ghost table = { implicit_flow };

    ghost rows_of = { implicit_flow_rows };
}

impl Record for ImplicitOAuth2Flow {
    fn from_members(alloc: Global, members: &Members, steps: &mut Steps) -> Result<Self> {
        read_rows!(alloc, members, steps, Self => ImplicitOAuth2Flow {
            authorization_url: required("authorizationUrl"),
            refresh_url: optional("refreshUrl"),
            scopes: required("scopes"),
            ..extensions
        })
    }

    fn put_rows(&self, alloc: Global, out: &mut Members) -> Result<()> {
        write_rows!(alloc, self, out => {
            authorization_url: put_required("authorizationUrl"),
            refresh_url: put_optional("refreshUrl"),
            scopes: put_required("scopes"),
            ..extensions
        })
    }
}
