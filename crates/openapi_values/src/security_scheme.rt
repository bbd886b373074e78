//! The location of an API key, by the Security Scheme Object.
ghost use Rattle.std.specs.Prelude.{refl};
ghost use Rattle.openapi_values.specs.Words.{IsWordRead, api_key_locations, api_key_location_word};

use crate::Word;
use std::str::FromStr;

/// The part of a request that holds an API key.
#[derive(Clone, Copy, Debug, PartialEq, Eq, Hash)]
pub enum APIKeyLocation {
    /// `query`: a parameter of the query.
    Query,
    /// `header`: a header.
    Header,
    /// `cookie`: a cookie.
    Cookie,
}

impl Word for APIKeyLocation {
    ghost use Rattle.openapi_values.specs.declared.security_scheme.APIKeyLocation.TheVariants.{Query, Header, Cookie};

    ghost words = { api_key_locations };

    ghost word_of = { api_key_location_word };

    ghost known = { elim [ Query ↦ refl | Header ↦ refl | Cookie ↦ refl ] };

    fn all() -> &'static [APIKeyLocation] {
        &[
            APIKeyLocation::Query,
            APIKeyLocation::Header,
            APIKeyLocation::Cookie,
        ]
    }

    fn as_str(&self) -> &'static str {
        match self {
            APIKeyLocation::Query => "query",
            APIKeyLocation::Header => "header",
            APIKeyLocation::Cookie => "cookie",
        }
    }
}

/// Reads `query`, `header` or `cookie`. Any other text is an error.
impl FromStr for APIKeyLocation {
    type Err = ();

    ghost from_str_gives = { IsWordRead api_key_location_word api_key_locations };

    fn from_str(text: &str) -> Result<APIKeyLocation, ()> {
        APIKeyLocation::from_word(text).ok_or(())
    }
}
