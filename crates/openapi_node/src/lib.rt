#![tactic(auto)]
//! JSON values (RFC 8259) whose numbers are whole, which are read by counted accesses, and the errors of readers, each
//! with its location.
//!
//! A [`Node`] keeps the order of an object's members. Readers see what it holds by [`Node::open`]. Each access raises
//! the number in a [`Steps`], which only contracts see. So a bound on the accesses of a reader can be proved. Programs
//! have the runtime, and may use [`Node::view`], which counts nothing.
mod clone;
mod copy;
mod debug;
mod equal;
mod fault;
mod from;
mod member;
mod node;
mod read_value;
mod steps;
mod whole;
mod write_value;

pub use copy::copy_shown;
pub use fault::{Cause, Expected, Fault, PlaceStep, Pointer, ReferenceToken, Result};
pub use member::find_member;
pub use node::{Members, Node, View};
pub use openapi_map::OrderedMap;
pub use steps::Steps;
pub use whole::Whole;
