#![tactic(auto)]
//! The content of headers and bodies, by OpenAPI 3.0.3: Header, Media Type and Encoding Objects, which contain one
//! another.
mod encoding;
mod format;
mod header;
mod media_type;
mod read;
mod write;

pub use encoding::Encoding;
pub use format::{ParameterSchemaOrContent, format_name};
pub use header::{Header, header_ref_from_node, header_ref_to_node};
pub use media_type::{Content, MediaType, content_from_node, content_to_node};
pub use read::read_format;
pub use write::write_format;
