//! Visitors that change a document, and the way of one through it.
use crate::part_mut::PartMut;
use crate::walk_mut::WalkMut;
use openapi_documents::{Callback, Components, OpenAPI, Operation, PathItem};
use openapi_media_types::{Encoding, Header, MediaType};
use openapi_metadata::{Example, Link};
use openapi_parameters::Parameter;
use openapi_responses::{RequestBody, Response};
use openapi_schema::Schema;
use openapi_security::SecurityScheme;
use std::alloc::{AllocError, Global};

/// A visitor that may change the objects of a document. Each method gets the location of the object in the document, a
/// JSON Pointer (RFC 6901), and does nothing by default.
///
/// # Errors
///
/// An error of a method ends the visit, and [`visit_mut`] returns it.
pub trait VisitorMut {
    /// The error that ends a visit early.
    type Error: From<AllocError>;

    /// Visits the components of the document.
    fn components(
        &mut self,
        _location: &str,
        _components: &mut Components,
    ) -> Result<(), Self::Error> {
        Ok(())
    }

    /// Visits a path item.
    fn path_item(&mut self, _location: &str, _path_item: &mut PathItem) -> Result<(), Self::Error> {
        Ok(())
    }

    /// Visits an operation of a path item.
    fn operation(
        &mut self,
        _location: &str,
        _operation: &mut Operation,
    ) -> Result<(), Self::Error> {
        Ok(())
    }

    /// Visits a parameter.
    fn parameter(
        &mut self,
        _location: &str,
        _parameter: &mut Parameter,
    ) -> Result<(), Self::Error> {
        Ok(())
    }

    /// Visits a request body.
    fn request_body(
        &mut self,
        _location: &str,
        _request_body: &mut RequestBody,
    ) -> Result<(), Self::Error> {
        Ok(())
    }

    /// Visits a response.
    fn response(&mut self, _location: &str, _response: &mut Response) -> Result<(), Self::Error> {
        Ok(())
    }

    /// Visits a header.
    fn header(&mut self, _location: &str, _header: &mut Header) -> Result<(), Self::Error> {
        Ok(())
    }

    /// Visits a media type.
    fn media_type(
        &mut self,
        _location: &str,
        _media_type: &mut MediaType,
    ) -> Result<(), Self::Error> {
        Ok(())
    }

    /// Visits an encoding.
    fn encoding(&mut self, _location: &str, _encoding: &mut Encoding) -> Result<(), Self::Error> {
        Ok(())
    }

    /// Visits a callback.
    fn callback(&mut self, _location: &str, _callback: &mut Callback) -> Result<(), Self::Error> {
        Ok(())
    }

    /// Visits a schema, also one inside another.
    fn schema(&mut self, _location: &str, _schema: &mut Schema) -> Result<(), Self::Error> {
        Ok(())
    }

    /// Visits an example that has a name.
    fn example(&mut self, _location: &str, _example: &mut Example) -> Result<(), Self::Error> {
        Ok(())
    }

    /// Visits a link.
    fn link(&mut self, _location: &str, _link: &mut Link) -> Result<(), Self::Error> {
        Ok(())
    }

    /// Visits a security scheme.
    fn security_scheme(
        &mut self,
        _location: &str,
        _scheme: &mut SecurityScheme,
    ) -> Result<(), Self::Error> {
        Ok(())
    }

    /// Visits a reference to any of these. It is not followed.
    fn reference(&mut self, _location: &str, _reference: &mut String) -> Result<(), Self::Error> {
        Ok(())
    }
}

/// Visits all objects of a document mutably: each before the objects inside it, and these in the order of its fields.
/// The objects inside are those that the visitor leaves there. A location is that in the document as it is written, so a
/// status code `2xx` of the text is `2XX` there.
///
/// The objects that are left are in a list on the heap, so the depth of a document uses no stack. A visitor that adds an
/// object to every object never ends.
///
/// # Errors
///
/// Returns the first error of the visitor, or an error converted from [`AllocError`] if an allocation fails. Changes
/// that were made before stay.
pub fn visit_mut<V: VisitorMut>(
    alloc: Global,
    document: &mut OpenAPI,
    visitor: &mut V,
) -> Result<(), V::Error> {
    let mut walk = WalkMut::new(alloc, document)?;
    // (a document has fewer parts)
    for _ in 0..u64::MAX {
        let Some((location, mut part)) = walk.next() else {
            return Ok(());
        };
        visit_part(visitor, location.as_str(), &mut part)?;
        walk.add_inside(location, part)?;
    }
    Ok(())
}

/// Calls the method of a visitor for a part.
fn visit_part<V: VisitorMut>(
    visitor: &mut V,
    location: &str,
    part: &mut PartMut<'_>,
) -> Result<(), V::Error> {
    match part {
        PartMut::Document(_) => Ok(()),
        PartMut::Components(it) => visitor.components(location, it),
        PartMut::PathItem(it) => visitor.path_item(location, it),
        PartMut::Operation(it) => visitor.operation(location, it),
        PartMut::Parameter(it) => visitor.parameter(location, it),
        PartMut::RequestBody(it) => visitor.request_body(location, it),
        PartMut::Response(it) => visitor.response(location, it),
        PartMut::Header(it) => visitor.header(location, it),
        PartMut::MediaType(it) => visitor.media_type(location, it),
        PartMut::Encoding(it) => visitor.encoding(location, it),
        PartMut::Callback(it) => visitor.callback(location, it),
        PartMut::Schema(it) => visitor.schema(location, it),
        PartMut::Example(it) => visitor.example(location, it),
        PartMut::Link(it) => visitor.link(location, it),
        PartMut::SecurityScheme(it) => visitor.security_scheme(location, it),
        PartMut::Reference(reference) => visitor.reference(location, reference),
    }
}
