#![tactic(auto)]
//! The parts of the Schema Object of OpenAPI 3.0.3, section 4.7.24, that hold no schemas.
//!
//! These are the annotations of every kind of schema, with their objects (External Documentation, Discriminator and
//! XML), and the types of strings, numbers and booleans. There are also the names of all types, the entries of
//! enumerations, and the sort of a schema by the names that are present.
mod boolean_type;
mod discriminator;
mod enumeration;
mod external_documentation;
mod integer_type;
mod mask;
mod number_type;
mod schema_data;
mod sort;
mod string_type;
mod type_name;
mod xml;

pub use boolean_type::BooleanType;
pub use discriminator::Discriminator;
pub use enumeration::{Entry, copies, entries};
pub use external_documentation::ExternalDocumentation;
pub use integer_type::IntegerType;
pub use mask::{Mask, NAMES};
pub use number_type::NumberType;
pub use schema_data::SchemaData;
pub use sort::Sort;
pub use string_type::StringType;
pub use type_name::TypeName;
pub use xml::Xml;
