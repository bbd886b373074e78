//! Visiting the objects of an OpenAPI document.
//!
//! [`visit`] calls a method of a [`Visitor`] for each object of a document, with the location of the object. A visitor
//! needs neither recursion nor a match on every type. It overrides the methods for the objects that it needs, and the
//! others do nothing.
#![tactic(auto)]

mod part;
mod parts;
mod visitor;
mod walk;

pub use visitor::{Visitor, visit};
