//! The types of components.
ghost use Rattle.openapi_resolve.specs.Sections as sections;

use openapi_documents::{Callback, Components};
use openapi_map::OrderedMap;
use openapi_media_types::Header;
use openapi_metadata::{Example, Link};
use openapi_parameters::Parameter;
use openapi_responses::{RequestBody, Response};
use openapi_schema::Schema;
use openapi_security::SecurityScheme;
use openapi_values::ReferenceOr;

/// A type for which the Components Object (OpenAPI 3.0.3, section 4.7.7) has a section.
pub trait Component: Sized {
    ghost use Rattle.std.specs.Prelude.{◌≡◌};
    ghost use Rattle.openapi_resolve.specs.Sections.{Section};

    /// The section.
    ghost the_section: { Section Self };

    /// Returns the name of the section, such as `schemas`.
    fn section() -> &'static str
        ensures { result.now ≡ the_section.name };

    /// Returns the components in the section, each an object or a reference.
    fn all(components: &Components) -> &OrderedMap<ReferenceOr<Self>>
        ensures { result.now ≡ the_section.entries components.now };
}

impl Component for Schema {
    ghost the_section = { sections.schemas };

    fn section() -> &'static str {
        "schemas"
    }

    fn all(components: &Components) -> &OrderedMap<ReferenceOr<Schema>> {
        &components.schemas
    }
}

impl Component for Response {
    ghost the_section = { sections.responses };

    fn section() -> &'static str {
        "responses"
    }

    fn all(components: &Components) -> &OrderedMap<ReferenceOr<Response>> {
        &components.responses
    }
}

impl Component for Parameter {
    ghost the_section = { sections.parameters };

    fn section() -> &'static str {
        "parameters"
    }

    fn all(components: &Components) -> &OrderedMap<ReferenceOr<Parameter>> {
        &components.parameters
    }
}

impl Component for Example {
    ghost the_section = { sections.examples };

    fn section() -> &'static str {
        "examples"
    }

    fn all(components: &Components) -> &OrderedMap<ReferenceOr<Example>> {
        &components.examples
    }
}

impl Component for RequestBody {
    ghost the_section = { sections.request_bodies };

    fn section() -> &'static str {
        "requestBodies"
    }

    fn all(components: &Components) -> &OrderedMap<ReferenceOr<RequestBody>> {
        &components.request_bodies
    }
}

impl Component for Header {
    ghost the_section = { sections.headers };

    fn section() -> &'static str {
        "headers"
    }

    fn all(components: &Components) -> &OrderedMap<ReferenceOr<Header>> {
        &components.headers
    }
}

impl Component for SecurityScheme {
    ghost the_section = { sections.security_schemes };

    fn section() -> &'static str {
        "securitySchemes"
    }

    fn all(components: &Components) -> &OrderedMap<ReferenceOr<SecurityScheme>> {
        &components.security_schemes
    }
}

impl Component for Link {
    ghost the_section = { sections.links };

    fn section() -> &'static str {
        "links"
    }

    fn all(components: &Components) -> &OrderedMap<ReferenceOr<Link>> {
        &components.links
    }
}

impl Component for Callback {
    ghost the_section = { sections.callbacks };

    fn section() -> &'static str {
        "callbacks"
    }

    fn all(components: &Components) -> &OrderedMap<ReferenceOr<Callback>> {
        &components.callbacks
    }
}
