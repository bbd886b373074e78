//! What a document is made of, each part borrowed mutably.
use openapi_documents::{Callback, Components, OpenAPI, Operation, PathItem};
use openapi_media_types::{Encoding, Header, MediaType};
use openapi_metadata::{Example, Link};
use openapi_parameters::Parameter;
use openapi_responses::{RequestBody, Response};
use openapi_schema::Schema;
use openapi_security::SecurityScheme;
use openapi_values::ReferenceOr;

/// An object of a document, or a reference in its place.
#[derive(Drop)]
pub(crate) enum PartMut<'a> {
    Document(&'a mut OpenAPI),
    Components(&'a mut Components),
    PathItem(&'a mut PathItem),
    Operation(&'a mut Operation),
    Parameter(&'a mut Parameter),
    RequestBody(&'a mut RequestBody),
    Response(&'a mut Response),
    Header(&'a mut Header),
    MediaType(&'a mut MediaType),
    Encoding(&'a mut Encoding),
    Callback(&'a mut Callback),
    Schema(&'a mut Schema),
    Example(&'a mut Example),
    Link(&'a mut Link),
    SecurityScheme(&'a mut SecurityScheme),
    Reference(&'a mut String),
}

/// What is a part.
pub(crate) trait AsPartMut {
    fn as_part_mut(&mut self) -> PartMut<'_>;
}

impl AsPartMut for Components {
    fn as_part_mut(&mut self) -> PartMut<'_> {
        PartMut::Components(self)
    }
}

impl AsPartMut for PathItem {
    fn as_part_mut(&mut self) -> PartMut<'_> {
        PartMut::PathItem(self)
    }
}

impl AsPartMut for Operation {
    fn as_part_mut(&mut self) -> PartMut<'_> {
        PartMut::Operation(self)
    }
}

impl AsPartMut for Parameter {
    fn as_part_mut(&mut self) -> PartMut<'_> {
        PartMut::Parameter(self)
    }
}

impl AsPartMut for RequestBody {
    fn as_part_mut(&mut self) -> PartMut<'_> {
        PartMut::RequestBody(self)
    }
}

impl AsPartMut for Response {
    fn as_part_mut(&mut self) -> PartMut<'_> {
        PartMut::Response(self)
    }
}

impl AsPartMut for Header {
    fn as_part_mut(&mut self) -> PartMut<'_> {
        PartMut::Header(self)
    }
}

impl AsPartMut for MediaType {
    fn as_part_mut(&mut self) -> PartMut<'_> {
        PartMut::MediaType(self)
    }
}

impl AsPartMut for Encoding {
    fn as_part_mut(&mut self) -> PartMut<'_> {
        PartMut::Encoding(self)
    }
}

impl AsPartMut for Callback {
    fn as_part_mut(&mut self) -> PartMut<'_> {
        PartMut::Callback(self)
    }
}

impl AsPartMut for Schema {
    fn as_part_mut(&mut self) -> PartMut<'_> {
        PartMut::Schema(self)
    }
}

impl AsPartMut for Example {
    fn as_part_mut(&mut self) -> PartMut<'_> {
        PartMut::Example(self)
    }
}

impl AsPartMut for Link {
    fn as_part_mut(&mut self) -> PartMut<'_> {
        PartMut::Link(self)
    }
}

impl AsPartMut for SecurityScheme {
    fn as_part_mut(&mut self) -> PartMut<'_> {
        PartMut::SecurityScheme(self)
    }
}

impl<T: AsPartMut> AsPartMut for Box<T> {
    fn as_part_mut(&mut self) -> PartMut<'_> {
        (**self).as_part_mut()
    }
}

impl<T: AsPartMut> AsPartMut for ReferenceOr<T> {
    fn as_part_mut(&mut self) -> PartMut<'_> {
        match self {
            ReferenceOr::Reference { reference } => PartMut::Reference(reference),
            ReferenceOr::Item(item) => item.as_part_mut(),
        }
    }
}
