//! Reports on a JSON value before it is read: every fault, every member that reading drops, and every reference.
//!
//! Reading stops at the first fault ([`openapi_node::Fault`]). [`faults`] returns all of them: exactly the rules of the
//! field tables that a value of a [`Kind`] breaks, each with its location. [`dropped_members`] returns the members that
//! reading drops, and why. [`references`] returns the Reference Objects. [`limited_numbers`] returns where lengths,
//! counts and limits of integers are expected. Each function makes at most three times as many node accesses as the
//! JSON value has values.
//!
//! The field tables of OpenAPI 3.0.3 are data: [`TableName::rows`] returns the fields of each object.
#![tactic(auto)]

mod cause;
mod dropped;
mod fault;
mod kind;
pub mod laws;
mod limited;
mod members;
mod reference;
mod row;
mod step;
mod table;
mod tag;
mod visit;
mod walk;

pub use dropped::{DropReason, Dropped, dropped_members};
pub use fault::faults;
pub use kind::{Kind, Limits};
pub use limited::{LimitedNumber, limited_numbers};
pub use reference::{Reference, references};
pub use row::{Class, Row};
pub use table::TableName;
