//! What there is in an OpenAPI document, from the bytes of its JSON text: [`list_operations`] and [`list_references`], each with its
//! position.
#![tactic(auto)]

mod operations;
mod positions;
mod references;

pub use operations::{ListedOperation, OperationList, list_operations};
pub use references::{ReferenceList, list_references};
