#![tactic(auto)]
//! Whole documents, by OpenAPI 3.0.3: the OpenAPI Object, its components, the Paths Object, and the operations. A path
//! item has operations, these may have callbacks, and these have path items.
mod callback;
mod components;
mod http_method;
mod iter;
pub mod laws;
mod methods;
mod open_api;
mod operation;
mod operations;
mod parts;
mod path_item;
mod paths;
mod read;
mod write;

pub use callback::{Callback, callback_ref_from_node, callback_ref_to_node};
pub use components::Components;
pub use http_method::Method;
pub use iter::{PathItemIntoIter, PathItemIter};
pub use open_api::OpenAPI;
pub use operation::Operation;
pub use operations::Operations;
pub use path_item::{PathItem, path_item_ref_from_node, path_item_ref_to_node};
pub use paths::Paths;
