#![tactic(auto)]
//! From JSON text to JSON text: what the programs share. A JSON value is read from bytes. Its object is normalized or
//! brought to its stable form, and written by name or in order. All bytes of a reader are read, and a text is written
//! whole.
mod fault;
pub mod laws;
mod layout;
mod pipes;
mod refusal;
mod rewriting;

pub use fault::RunFault;
pub use layout::{Layout, read_tree, text_of};
pub use pipes::{ReadFault, read_all, read_bytes, write_all, write_bytes};
pub use refusal::Refusal;
pub use rewriting::{Rewriting, cleaned_tree, read_object, rewrite, settled_tree};
