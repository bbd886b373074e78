//! Five small tools on the library, as tests of how it is used: each is what someone who knows the Rust crate writes on the first day.
//! `tests/tools` has each as it is written with the Rust crate, and `tests/tools.py` compares their lengths.
#![tactic(auto)]

mod built;
mod deprecated;
mod properties;
mod schemas;
#[cfg(test)]
mod tests;
mod undescribed;

pub use built::pets;
pub use deprecated::deprecate;
pub use properties::properties_of;
pub use schemas::untitled_schemas;
pub use undescribed::undescribed_operations;
