//! JSON text of an OpenAPI object, normalized.
//!
//! [`normalize`] reads the object from the bytes of its text, as a whole document or as one object, and returns the
//! text of its serialized value. The text lacks the members that reading drops. The members of each object are in the
//! order of the field tables or by name. [`run`] does the same from a reader to a writer.
#![tactic(auto)]

mod failure;
mod indent;
mod normalized;
mod stream;
mod task;

pub use failure::Failure;
pub use normalized::{Normalized, normalize};
pub use stream::run;
pub use task::{Object, Task};
