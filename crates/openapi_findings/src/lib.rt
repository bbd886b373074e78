//! All that `openapi check` reports about a document, from the bytes of its JSON text.
//!
//! [`findings`] returns every [`Finding`] in the order of the text. A finding has a location, a [`Code`] with its
//! [`Severity`], a message and, if there is something to do, a help text. [`AsText`], [`AsJson`] and [`AsGithub`] print
//! one.
#![tactic(auto)]

mod as_github;
mod as_json;
mod as_text;
mod check;
mod code;
mod dropped_reports;
mod escape;
mod excerpt;
mod expected;
mod fault_reports;
mod fields;
mod finding;
mod found;
mod kind_at;
mod nearest;
mod nesting;
mod number_reports;
mod places;
mod pointer;
mod reference_reports;
mod refusal;
mod repeated_reports;
mod report;
mod shown;
mod stop;
mod syntax;
mod text_point;
mod version_report;

pub use as_github::AsGithub;
pub use as_json::AsJson;
pub use as_text::AsText;
pub use check::findings;
pub use code::{Code, Severity};
pub use finding::Finding;
pub use shown::{Quoted, QuotedPointer, Shown};
