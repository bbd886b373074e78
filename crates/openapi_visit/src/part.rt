//! What a document is made of.
use openapi_documents::{Callback, Components, OpenAPI, Operation, PathItem};
use openapi_media_types::{Encoding, Header, MediaType};
use openapi_metadata::{Example, Link};
use openapi_parameters::Parameter;
use openapi_responses::{RequestBody, Response};
use openapi_schema::Schema;
use openapi_security::SecurityScheme;

/// An object of a document, or a reference in the place of one.
#[derive(Clone, Copy, Drop)]
pub(crate) enum Part<'a> {
    Document(&'a OpenAPI),
    Components(&'a Components),
    PathItem(&'a PathItem),
    Operation(&'a Operation),
    Parameter(&'a Parameter),
    RequestBody(&'a RequestBody),
    Response(&'a Response),
    Header(&'a Header),
    MediaType(&'a MediaType),
    Encoding(&'a Encoding),
    Callback(&'a Callback),
    Schema(&'a Schema),
    Example(&'a Example),
    Link(&'a Link),
    SecurityScheme(&'a SecurityScheme),
    Reference(&'a str),
}

impl<'a> From<&'a Components> for Part<'a> {
    fn from(it: &'a Components) -> Part<'a> {
        Part::Components(it)
    }
}

impl<'a> From<&'a PathItem> for Part<'a> {
    fn from(it: &'a PathItem) -> Part<'a> {
        Part::PathItem(it)
    }
}

impl<'a> From<&'a Operation> for Part<'a> {
    fn from(it: &'a Operation) -> Part<'a> {
        Part::Operation(it)
    }
}

impl<'a> From<&'a Parameter> for Part<'a> {
    fn from(it: &'a Parameter) -> Part<'a> {
        Part::Parameter(it)
    }
}

impl<'a> From<&'a RequestBody> for Part<'a> {
    fn from(it: &'a RequestBody) -> Part<'a> {
        Part::RequestBody(it)
    }
}

impl<'a> From<&'a Response> for Part<'a> {
    fn from(it: &'a Response) -> Part<'a> {
        Part::Response(it)
    }
}

impl<'a> From<&'a Header> for Part<'a> {
    fn from(it: &'a Header) -> Part<'a> {
        Part::Header(it)
    }
}

impl<'a> From<&'a MediaType> for Part<'a> {
    fn from(it: &'a MediaType) -> Part<'a> {
        Part::MediaType(it)
    }
}

impl<'a> From<&'a Encoding> for Part<'a> {
    fn from(it: &'a Encoding) -> Part<'a> {
        Part::Encoding(it)
    }
}

impl<'a> From<&'a Callback> for Part<'a> {
    fn from(it: &'a Callback) -> Part<'a> {
        Part::Callback(it)
    }
}

impl<'a> From<&'a Schema> for Part<'a> {
    fn from(it: &'a Schema) -> Part<'a> {
        Part::Schema(it)
    }
}

impl<'a> From<&'a Example> for Part<'a> {
    fn from(it: &'a Example) -> Part<'a> {
        Part::Example(it)
    }
}

impl<'a> From<&'a Link> for Part<'a> {
    fn from(it: &'a Link) -> Part<'a> {
        Part::Link(it)
    }
}

impl<'a> From<&'a SecurityScheme> for Part<'a> {
    fn from(it: &'a SecurityScheme) -> Part<'a> {
        Part::SecurityScheme(it)
    }
}

impl<'a> From<&'a str> for Part<'a> {
    fn from(it: &'a str) -> Part<'a> {
        Part::Reference(it)
    }
}

impl<'a> From<&'a Box<Schema>> for Part<'a> {
    fn from(it: &'a Box<Schema>) -> Part<'a> {
        Part::Schema(it)
    }
}
