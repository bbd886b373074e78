//! Visiting the objects of an OpenAPI document to change them.
//!
//! [`visit_mut`] calls a method of a [`VisitorMut`] for each object of a document, with a mutable reference to it and with
//! its location. `visit` of `openapiv3` does the same with shared references. This is a crate of its own, so that programs
//! that do not use it need not have it proved.
#![tactic(auto)]

mod part_mut;
mod parts_mut;
mod visitor_mut;
mod walk_mut;

pub use visitor_mut::{VisitorMut, visit_mut};
