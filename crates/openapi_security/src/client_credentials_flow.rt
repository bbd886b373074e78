//! The OAuth Flow Object: the flow by the credentials of the client.
ghost use Rattle.std.specs.Prelude.{◌≡◌, [], None};
ghost use Rattle.openapi_tables.specs.Kind.{client_credentials_flow};
ghost use Rattle.openapi_security.specs.Flows.{client_credentials_flow_rows};

use openapi_fields::{Object, Record, read_rows, write_rows};
use openapi_node::{Members, Node, OrderedMap, Result, Steps};
use std::alloc::Global;

/// The OAuth Flow Object (OpenAPI 3.0.3, section 4.7.29) of the client credentials flow of OAuth 2.
#[derive(Clone, Debug, PartialEq, Drop)]
pub struct ClientCredentialsOAuth2Flow {
    /// The URL at which refresh tokens are obtained.
    pub refresh_url: Option<String>,
    /// The token URL of the flow. Required.
    pub token_url: String,
    /// The scopes of the flow: the name of each with a short description. Required, and may be empty.
    pub scopes: OrderedMap<String>,
    /// Extensions: the members whose names begin with `x-`, in their order.
    pub extensions: OrderedMap<Node>,
}

impl ClientCredentialsOAuth2Flow {
    /// Creates a flow with its token URL and its scopes; every other field is `None` or empty.
    pub fn new(
        alloc: Global,
        token_url: String,
        scopes: OrderedMap<String>,
    ) -> ClientCredentialsOAuth2Flow
        ensures token_url { result.token_url ≡ token_url }
        ensures refresh_url { result.refresh_url ≡ None }
        ensures scopes { result.scopes ≡ scopes }
        ensures extensions { result.extensions ≡ [] }
    {
        ClientCredentialsOAuth2Flow {
            token_url,
            refresh_url: None,
            scopes,
            extensions: OrderedMap::new(alloc),
        }
    }
}

impl Object for ClientCredentialsOAuth2Flow {
    ghost table = { client_credentials_flow };

    ghost rows_of = { client_credentials_flow_rows };
}

impl Record for ClientCredentialsOAuth2Flow {
    fn from_members(alloc: Global, members: &Members, steps: &mut Steps) -> Result<Self> {
        read_rows!(alloc, members, steps, Self => ClientCredentialsOAuth2Flow {
            refresh_url: optional("refreshUrl"),
            token_url: required("tokenUrl"),
            scopes: required("scopes"),
            ..extensions
        })
    }

    fn put_rows(&self, alloc: Global, out: &mut Members) -> Result<()> {
        write_rows!(alloc, self, out => {
            refresh_url: put_optional("refreshUrl"),
            token_url: put_required("tokenUrl"),
            scopes: put_required("scopes"),
            ..extensions
        })
    }
}
