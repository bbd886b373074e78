#![tactic(auto)]
//! The bodies of requests and the responses of operations, by OpenAPI 3.0.3: Request Body, Response and Responses
//! Objects.
mod codes;
mod request_body;
mod response;
mod responses;

pub use request_body::{RequestBody, request_body_ref_from_node, request_body_ref_to_node};
pub use response::{Response, response_ref_from_node, response_ref_to_node};
pub use responses::Responses;
