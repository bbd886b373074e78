#![tactic(auto)]
//! The text of an OpenAPI document in JSON without the members that reading drops.
//!
//! [`without_dropped`] removes these members and leaves every other byte as it is: white space, the order of members, and numbers as
//! they are written.
mod below;
mod compare;
mod cut;
mod fault;
mod gaps;
mod plan;
mod removal;
mod value;

pub use fault::CleanFault;
pub use removal::{Cleaned, without_dropped};
