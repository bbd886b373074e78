//! Constructors of security schemes.
ghost use Rattle.std.specs.Prelude.{◌≡◌, [], None};

use crate::oauth2_flows::OAuth2Flows;
use crate::security_scheme::SecurityScheme;
use openapi_node::OrderedMap;
use openapi_values::APIKeyLocation;
use std::alloc::Global;

impl SecurityScheme {
    ghost use Rattle.openapi_security.specs.declared.security_scheme.SecurityScheme.TheVariants as schemes;

    /// Creates an API key scheme from the location and the name of the key. It has no description.
    pub fn api_key(alloc: Global, location: APIKeyLocation, name: String) -> SecurityScheme
        ensures { result ≡ schemes.APIKey location name None [] }
    {
        SecurityScheme::APIKey {
            location,
            name,
            description: None,
            extensions: OrderedMap::new(alloc),
        }
    }

    /// Creates an HTTP authentication scheme, such as `basic` or `bearer`. It has no description and no bearer format.
    pub fn http(alloc: Global, scheme: String) -> SecurityScheme
        ensures { result ≡ schemes.HTTP scheme None None [] }
    {
        SecurityScheme::HTTP {
            scheme,
            bearer_format: None,
            description: None,
            extensions: OrderedMap::new(alloc),
        }
    }

    /// Creates an OAuth 2 scheme from its flows. It has no description.
    pub fn oauth2(alloc: Global, flows: OAuth2Flows) -> SecurityScheme
        ensures { result ≡ schemes.OAuth2 flows None [] }
    {
        SecurityScheme::OAuth2 {
            flows,
            description: None,
            extensions: OrderedMap::new(alloc),
        }
    }

    /// Creates an OpenID Connect Discovery scheme from its URL. It has no description.
    pub fn open_id_connect(alloc: Global, open_id_connect_url: String) -> SecurityScheme
        ensures { result ≡ schemes.OpenIDConnect open_id_connect_url None [] }
    {
        SecurityScheme::OpenIDConnect {
            open_id_connect_url,
            description: None,
            extensions: OrderedMap::new(alloc),
        }
    }
}
