//! JSON Pointers (RFC 6901) as fragments of a URI, as they are in references of OpenAPI documents.
//!
//! [`name_of`] returns the name that a reference token writes, and [`component_name`] the name of the component to which a reference
//! leads.
#![tactic(auto)]

mod component;
mod token;

pub use component::component_name;
pub use token::name_of;
