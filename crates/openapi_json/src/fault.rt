//! The errors of reading JSON text.
use openapi_node::Fault;
use thiserror::Error;

/// Why bytes were not read as a node. It prints as one line of text.
#[derive(Debug, Drop, Error, PartialEq)]
pub enum JsonFault {
    /// The bytes are not UTF-8, or no JSON as `serde_json` reads it: arrays and objects may nest at most 127 deep.
    #[error("not JSON")]
    NotJson,
    /// The bytes are JSON, but a node can't hold a number in them. The fault has the location of that number.
    #[error("{0}")]
    NotWhole(Fault),
    /// An allocation failed.
    #[error("out of memory")]
    Memory,
}
