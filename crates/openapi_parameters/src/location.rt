//! The places that a parameter may be in.
ghost use Rattle.openapi_parameters.specs.Parameters.{parameter_locations, parameter_location_word};

use openapi_values::Word;

/// The place that a parameter is in: its `in` (OpenAPI 3.0.3, section 4.7.12.1).
#[derive(Clone, Copy)]
pub(crate) enum ParameterLocation {
    Query,
    Header,
    Path,
    Cookie,
}

impl Word for ParameterLocation {
    ghost use Rattle.std.proofs.Common.{refl};
    ghost use Rattle.openapi_parameters.specs.declared.location.ParameterLocation.TheVariants as locations;

    ghost words = { parameter_locations };

    ghost word_of = { parameter_location_word };

    ghost known = { elim [
      | locations.Query ↦ refl
      | locations.Header ↦ refl
      | locations.Path ↦ refl
      | locations.Cookie ↦ refl
    ] };

    fn all() -> &'static [ParameterLocation] {
        &[
            ParameterLocation::Query,
            ParameterLocation::Header,
            ParameterLocation::Path,
            ParameterLocation::Cookie,
        ]
    }

    fn as_str(&self) -> &'static str {
        match self {
            ParameterLocation::Query => "query",
            ParameterLocation::Header => "header",
            ParameterLocation::Path => "path",
            ParameterLocation::Cookie => "cookie",
        }
    }
}
