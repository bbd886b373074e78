#![tactic(auto)]
//! The parameters of operations, by OpenAPI 3.0.3: the Parameter Object, with a variant for each location.
mod location;
mod parameter;
mod parameter_data;
mod read;
mod write;

pub use parameter::{Parameter, parameter_ref_from_node, parameter_ref_to_node};
pub use parameter_data::ParameterData;
