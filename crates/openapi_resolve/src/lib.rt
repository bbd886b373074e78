//! Resolving the references of an OpenAPI document to its components.
//!
//! [`Resolve::resolve`] returns the item of a [`ReferenceOr`], or the component to which its reference leads. Only
//! local references of the form `#/components/SECTION/NAME` are resolved. References to other documents and to other
//! parts of a document are not.
//!
//! [`ReferenceOr`]: openapi_values::ReferenceOr
#![tactic(auto)]

mod chain;
mod component;
mod document;
mod error;

pub use component::Component;
pub use document::Resolve;
pub use error::ResolveError;
