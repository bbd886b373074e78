//! The OAuth Flows Object.
ghost use Rattle.std.specs.Prelude.{◌≡◌, [], None};
ghost use Rattle.openapi_tables.specs.Kind.{oauth2_flows};
ghost use Rattle.openapi_security.specs.Flows.{oauth2_flows_rows};

use crate::authorization_code_flow::AuthorizationCodeOAuth2Flow;
use crate::client_credentials_flow::ClientCredentialsOAuth2Flow;
use crate::implicit_flow::ImplicitOAuth2Flow;
use crate::password_flow::PasswordOAuth2Flow;
use openapi_fields::{Object, Record, extensions, from_joined, optional, write_rows};
use openapi_node::{Members, Node, OrderedMap, Result, Steps};
use std::alloc::Global;

/// The OAuth Flows Object (OpenAPI 3.0.3, section 4.7.28): the flows of OAuth 2 that are supported.
#[derive(Clone, Debug, PartialEq, Drop)]
pub struct OAuth2Flows {
    /// Extensions: the members whose names begin with `x-`, in their order.
    pub extensions: OrderedMap<Node>,
    /// The configuration of the implicit flow.
    pub implicit: Option<ImplicitOAuth2Flow>,
    /// The configuration of the resource owner password flow.
    pub password: Option<PasswordOAuth2Flow>,
    /// The configuration of the client credentials flow.
    pub client_credentials: Option<ClientCredentialsOAuth2Flow>,
    /// The configuration of the authorization code flow.
    pub authorization_code: Option<AuthorizationCodeOAuth2Flow>,
}

impl OAuth2Flows {
    /// Creates an empty `OAuth2Flows`; every field is `None` or empty.
    pub fn new(alloc: Global) -> OAuth2Flows
        ensures implicit { result.implicit ≡ None }
        ensures password { result.password ≡ None }
        ensures client_credentials { result.client_credentials ≡ None }
        ensures authorization_code { result.authorization_code ≡ None }
        ensures extensions { result.extensions ≡ [] }
    {
        OAuth2Flows {
            implicit: None,
            password: None,
            client_credentials: None,
            authorization_code: None,
            extensions: OrderedMap::new(alloc),
        }
    }
}

impl Object for OAuth2Flows {
    ghost table = { oauth2_flows };

    ghost rows_of = { oauth2_flows_rows };
}

impl Record for OAuth2Flows {
    fn from_members(alloc: Global, members: &Members, steps: &mut Steps) -> Result<Self> {
        from_joined!(OAuth2Flows {
            implicit: optional::<Self, _>(alloc, members, "implicit", steps),
            password: optional::<Self, _>(alloc, members, "password", steps),
            client_credentials: optional::<Self, _>(alloc, members, "clientCredentials", steps),
            authorization_code: optional::<Self, _>(alloc, members, "authorizationCode", steps),
            extensions: extensions::<Self>(alloc, members, steps),
        })
    }

    fn put_rows(&self, alloc: Global, out: &mut Members) -> Result<()> {
        write_rows!(alloc, self, out => {
            implicit: put_optional("implicit"),
            password: put_optional("password"),
            client_credentials: put_optional("clientCredentials"),
            authorization_code: put_optional("authorizationCode"),
            ..extensions
        })
    }
}
