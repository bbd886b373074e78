#![tactic(auto)]
//! The values of OpenAPI 3.0 documents that have no field table: status codes, the sets of words (formats, styles and
//! locations), texts that may be a known word, and references.
mod parameter;
mod reference;
mod schema;
mod security_scheme;
mod status_code;
mod util;
mod variant_or;
mod word;

pub use parameter::{CookieStyle, HeaderStyle, PathStyle, QueryStyle};
pub use reference::ReferenceOr;
pub use schema::{IntegerFormat, NumberFormat, StringFormat};
pub use security_scheme::APIKeyLocation;
pub use status_code::StatusCode;
pub use util::is_false;
pub use variant_or::{VariantOrUnknown, VariantOrUnknownOrEmpty};
pub use word::Word;
