//! Typed OpenAPI 3.0.x documents, read from JSON and written as JSON.
//!
//! The library is a port of the Rust crate [openapiv3](https://crates.io/crates/openapiv3) 2.2.0, with contracts that
//! are proved. The objects of OpenAPI 3.0.3 are structs and enums with public fields. [`OpenAPI`] is a whole
//! document, [`PathItem`] has the operations of one path, and [`Schema`] is a schema.
//!
//! # Quick start
//!
//! 1. Read a document with [`from_json`] or, to keep the order of the text, with [`from_json_in_order`]. The type of
//!    the result decides which object is read.
//! 2. Use its fields. [`OpenAPI::operations`] iterates over all operations, [`Resolve::resolve`] follows a reference,
//!    and [`visit`] calls a [`Visitor`] for each object.
//! 3. Write it with [`to_json_pretty`], or without white space with [`to_json`] or [`to_json_in_order`].
//!
//! The allocator is `rt.alloc()` of the runtime. [`Steps::new`] creates the count of node accesses, which only
//! contracts see. In the examples, `rt` is the runtime that `main` gets. The README has a complete example, the
//! function `with_version`.
//!
//! # Input
//!
//! Only JSON is read, and numbers have to be whole, from -2^63 to 2^64 - 1. Unknown members are ignored, and members
//! whose names begin with `x-` are kept as extensions. A [`ReferenceOr`] holds an object or a reference to one; reading
//! follows no reference.
//!
//! # Errors
//!
//! Readers of JSON text return a [`ReadError`], and [`ReadError::locate`] adds the line and the column. A [`Fault`] has
//! a rule that the value breaks and the location where it does. Writers return a [`Fault`] at a name that would not be
//! read again.
//!
//! # JSON values
//!
//! A [`Node`] is a JSON value whose numbers are whole. [`node_from_json`] reads one from text, [`FromNode::from_node`]
//! reads an object from it, and [`ToNode::to_node`] writes an object as one.
//!
//! # Contracts
//!
//! Each page of `docs/api` shows the contracts of its functions. The functions in [`laws`] state what follows for
//! reading and writing together.
#![tactic(auto)]

pub mod laws;
mod located;
mod read;
mod write;

// 4.7.1 OpenAPI Object: a whole document, and all its operations.
pub use openapi_documents::{OpenAPI, Operations};

// 4.7.2 Info Object: what the API is called, and in which version.
pub use openapi_metadata::Info;

// 4.7.3 Contact Object: who is responsible for the API.
pub use openapi_metadata::Contact;

// 4.7.4 License Object: the license of the API.
pub use openapi_metadata::License;

// 4.7.5 Server Object: where the API is reached.
pub use openapi_metadata::Server;

// 4.7.6 Server Variable Object: a value to put into the URL of a server.
pub use openapi_metadata::ServerVariable;

// 4.7.7 Components Object: the objects to which references of the document can lead.
pub use openapi_documents::Components;

// 4.7.8 Paths Object: the paths, each with its operations.
pub use openapi_documents::Paths;

// 4.7.9 Path Item Object: the operations of one path, by their methods.
pub use openapi_documents::{
    Method, PathItem, PathItemIntoIter, PathItemIter, path_item_ref_from_node,
    path_item_ref_to_node,
};

// 4.7.10 Operation Object: one call of the API.
pub use openapi_documents::Operation;

// 4.7.11 External Documentation Object: a link to more documentation.
pub use openapi_schema_types::ExternalDocumentation;

// 4.7.12 Parameter Object: a parameter, by its location, and the style of its value.
pub use openapi_media_types::ParameterSchemaOrContent;
pub use openapi_parameters::{
    Parameter, ParameterData, parameter_ref_from_node, parameter_ref_to_node,
};
pub use openapi_values::{CookieStyle, HeaderStyle, PathStyle, QueryStyle};

// 4.7.13 Request Body Object: the body of a request.
pub use openapi_responses::{RequestBody, request_body_ref_from_node, request_body_ref_to_node};

// 4.7.14 Media Type Object: a content of one media type, and contents by their media types.
pub use openapi_media_types::{Content, MediaType, content_from_node, content_to_node};

// 4.7.15 Encoding Object: how one property of a body is encoded.
pub use openapi_media_types::Encoding;

// 4.7.16 Responses Object: the responses of an operation, by their status codes.
pub use openapi_responses::Responses;
pub use openapi_values::StatusCode;

// 4.7.17 Response Object: one response.
pub use openapi_responses::{Response, response_ref_from_node, response_ref_to_node};

// 4.7.18 Callback Object: requests that the API sends itself.
pub use openapi_documents::{Callback, callback_ref_from_node, callback_ref_to_node};

// 4.7.19 Example Object: an example of a value.
pub use openapi_metadata::{Example, example_ref_from_node, example_ref_to_node};

// 4.7.20 Link Object: an operation that can follow a response.
pub use openapi_metadata::{Link, LinkOperation, link_ref_from_node, link_ref_to_node};

// 4.7.21 Header Object: a header of a response or of a part of a body.
pub use openapi_media_types::{Header, header_ref_from_node, header_ref_to_node};

// 4.7.22 Tag Object: a tag that operations are grouped by.
pub use openapi_metadata::Tag;

// 4.7.23 Reference Object: an item or a reference to one.
pub use openapi_values::ReferenceOr;

// 4.7.24 Schema Object: a schema, its kinds and types, and the formats of values.
pub use openapi_schema::{
    AdditionalProperties, AnySchema, ArrayType, BooleanType, IntegerType, NumberType, ObjectType,
    Schema, SchemaData, SchemaKind, SchemaType, StringType, Type, boxed_schema_ref_from_node,
    boxed_schema_ref_to_node, schema_ref_from_node, schema_ref_to_node,
};
pub use openapi_values::{
    IntegerFormat, NumberFormat, StringFormat, VariantOrUnknown, VariantOrUnknownOrEmpty,
};

// 4.7.25 Discriminator Object: the property that distinguishes schemas.
pub use openapi_schema_types::Discriminator;

// 4.7.26 XML Object: how a property is written as XML.
pub use openapi_schema_types::Xml;

// 4.7.27 Security Scheme Object: a way to authenticate callers, and the location of an API key.
pub use openapi_security::{
    SecurityScheme, security_scheme_ref_from_node, security_scheme_ref_to_node,
};
pub use openapi_values::APIKeyLocation;

// 4.7.28 OAuth Flows Object: the flows of OAuth that a scheme allows.
pub use openapi_security::OAuth2Flows;

// 4.7.29 OAuth Flow Object: each flow of OAuth.
pub use openapi_security::{
    AuthorizationCodeOAuth2Flow, ClientCredentialsOAuth2Flow, ImplicitOAuth2Flow,
    PasswordOAuth2Flow,
};

// 4.7.30 Security Requirement Object: the schemes that a call needs.
pub use openapi_security::{
    SecurityRequirement, security_requirement_from_node, security_requirement_to_node,
};

// Maps that keep the order of their entries: by names, and by other keys such as status codes.
pub use indexmap::IndexMap;
pub use openapi_map::{
    Entry, IntoIter, Iter, IterMut, Keys, OccupiedEntry, OrderedMap, VacantEntry, Values, ValuesMut,
};

// Nodes: JSON values with whole numbers, the access count, and the faults of readers and writers.
pub use openapi_node::{
    Cause, Expected, Fault, Node, PlaceStep, Pointer, ReferenceToken, Steps, View, Whole,
};

// References: how they are resolved to components.
pub use openapi_resolve::{Component, Resolve, ResolveError};

// Visitors: a method for each object of a document, with its location.
pub use openapi_visit::{Visitor, visit};

// Traits that read and write: from and to nodes, and as one word of a set.
pub use openapi_fields::{FromNode, Referable, Settle, ToNode};
pub use openapi_values::{Word, is_false};

// JSON text of typed objects: read and written by one call each, with the position of an error.
pub use located::LocatedError;
pub use read::{ReadError, from_json, from_json_in_order};
pub use write::{to_json, to_json_in_order, to_json_pretty};

// JSON text of nodes: read and written, by name or in order, and the positions of its values.
pub use openapi_json::{
    JsonFault, Point, Position, ReplacedNumber, WithZeros, json_from_node, json_from_node_in_order,
    node_from_json, node_from_json_in_order, node_with_zeros_in_order, position_of, positions_of,
    pretty_from_node, pretty_from_node_in_order,
};
