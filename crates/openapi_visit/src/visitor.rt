//! Visitors, and the way of one through a document.
use crate::part::Part;
use crate::walk::Walk;
use openapi_documents::{Callback, Components, OpenAPI, Operation, PathItem};
use openapi_media_types::{Encoding, Header, MediaType};
use openapi_metadata::{Example, Link};
use openapi_parameters::Parameter;
use openapi_responses::{RequestBody, Response};
use openapi_schema::Schema;
use openapi_security::SecurityScheme;
use std::alloc::{AllocError, Global};

/// A visitor of the objects of a document. Each method gets the location of the object in the document, a JSON Pointer
/// (RFC 6901), and does nothing by default.
///
/// # Errors
///
/// An error of a method ends the visit, and [`visit`] returns it.
///
/// # Examples
///
/// This visitor counts the operations of a document. [`visit`] shows its use.
///
/// ```rust
/// /// Counts the operations of a document.
/// #[derive(Drop)]
/// struct Counter {
///     operations: usize,
/// }
///
/// impl Visitor for Counter {
///     type Error = AllocError;
///
///     fn operation(&mut self, _location: &str, _operation: &Operation) -> Result<(), AllocError> {
///         self.operations = self.operations.saturating_add(1);
///         Ok(())
///     }
/// }
/// ```
pub trait Visitor {
    /// The error that ends a visit early.
    type Error: From<AllocError>;

    /// Visits the components of the document.
    fn components(&mut self, _location: &str, _components: &Components) -> Result<(), Self::Error> {
        Ok(())
    }

    /// Visits a path item.
    fn path_item(&mut self, _location: &str, _path_item: &PathItem) -> Result<(), Self::Error> {
        Ok(())
    }

    /// Visits an operation of a path item.
    fn operation(&mut self, _location: &str, _operation: &Operation) -> Result<(), Self::Error> {
        Ok(())
    }

    /// Visits a parameter.
    fn parameter(&mut self, _location: &str, _parameter: &Parameter) -> Result<(), Self::Error> {
        Ok(())
    }

    /// Visits a request body.
    fn request_body(
        &mut self,
        _location: &str,
        _request_body: &RequestBody,
    ) -> Result<(), Self::Error> {
        Ok(())
    }

    /// Visits a response.
    fn response(&mut self, _location: &str, _response: &Response) -> Result<(), Self::Error> {
        Ok(())
    }

    /// Visits a header.
    fn header(&mut self, _location: &str, _header: &Header) -> Result<(), Self::Error> {
        Ok(())
    }

    /// Visits a media type.
    fn media_type(&mut self, _location: &str, _media_type: &MediaType) -> Result<(), Self::Error> {
        Ok(())
    }

    /// Visits an encoding.
    fn encoding(&mut self, _location: &str, _encoding: &Encoding) -> Result<(), Self::Error> {
        Ok(())
    }

    /// Visits a callback.
    fn callback(&mut self, _location: &str, _callback: &Callback) -> Result<(), Self::Error> {
        Ok(())
    }

    /// Visits a schema, also one inside another.
    fn schema(&mut self, _location: &str, _schema: &Schema) -> Result<(), Self::Error> {
        Ok(())
    }

    /// Visits an example that has a name.
    fn example(&mut self, _location: &str, _example: &Example) -> Result<(), Self::Error> {
        Ok(())
    }

    /// Visits a link.
    fn link(&mut self, _location: &str, _link: &Link) -> Result<(), Self::Error> {
        Ok(())
    }

    /// Visits a security scheme.
    fn security_scheme(
        &mut self,
        _location: &str,
        _scheme: &SecurityScheme,
    ) -> Result<(), Self::Error> {
        Ok(())
    }

    /// Visits a reference to any of these. It is not followed.
    fn reference(&mut self, _location: &str, _reference: &str) -> Result<(), Self::Error> {
        Ok(())
    }
}

/// Visits all objects of a document: each before the objects inside it, and these in the order of its fields. A
/// location is that in the document as it is written, so a status code `2xx` of the text is `2XX` there.
///
/// The objects that are left are in a list on the heap, so the depth of a document uses no stack.
///
/// # Errors
///
/// Returns the first error of the visitor, or an error converted from [`AllocError`] if an allocation fails.
///
/// # Examples
///
/// `Counter` is the example of [`Visitor`].
///
/// ```rust
/// fn count_operations(alloc: Global, document: &OpenAPI) -> Result<usize, AllocError> {
///     let mut counter = Counter { operations: 0 };
///     visit(alloc, document, &mut counter)?;
///     Ok(counter.operations)
/// }
/// ```
pub fn visit<V: Visitor>(
    alloc: Global,
    document: &OpenAPI,
    visitor: &mut V,
) -> Result<(), V::Error> {
    let mut walk = Walk::new(alloc, document)?;
    // (a document has fewer parts)
    for _ in 0..u64::MAX {
        let Some((location, part)) = walk.next()? else {
            return Ok(());
        };
        visit_part(visitor, location.as_str(), part)?;
    }
    Ok(())
}

/// Calls the method of a visitor for a part.
fn visit_part<V: Visitor>(visitor: &mut V, location: &str, part: Part<'_>) -> Result<(), V::Error> {
    match part {
        Part::Document(_) => Ok(()),
        Part::Components(it) => visitor.components(location, it),
        Part::PathItem(it) => visitor.path_item(location, it),
        Part::Operation(it) => visitor.operation(location, it),
        Part::Parameter(it) => visitor.parameter(location, it),
        Part::RequestBody(it) => visitor.request_body(location, it),
        Part::Response(it) => visitor.response(location, it),
        Part::Header(it) => visitor.header(location, it),
        Part::MediaType(it) => visitor.media_type(location, it),
        Part::Encoding(it) => visitor.encoding(location, it),
        Part::Callback(it) => visitor.callback(location, it),
        Part::Schema(it) => visitor.schema(location, it),
        Part::Example(it) => visitor.example(location, it),
        Part::Link(it) => visitor.link(location, it),
        Part::SecurityScheme(it) => visitor.security_scheme(location, it),
        Part::Reference(reference) => visitor.reference(location, reference),
    }
}
