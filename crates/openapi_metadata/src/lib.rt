#![tactic(auto, unfolding(openapi_tables::specs::Tables::final_tables, openapi_tables::specs::Tables::tables_with))]
//! The objects of OpenAPI 3.0 documents that hold no schema, read from JSON values and written as JSON values.
mod contact;
mod example;
mod info;
mod license;
mod link;
mod link_operation;
mod server;
mod server_variable;
mod tag;

pub use contact::Contact;
pub use example::{Example, example_ref_from_node, example_ref_to_node};
pub use info::Info;
pub use license::License;
pub use link::{Link, link_ref_from_node, link_ref_to_node};
pub use link_operation::LinkOperation;
pub use server::Server;
pub use server_variable::ServerVariable;
pub use tag::Tag;
