//! What values are written as that nothing was put into yet.

use openapiv3::{
    AnySchema, BooleanType, Callback, Components, Contact, Discriminator, Encoding, Example,
    ExternalDocumentation, Fault, Info, IntegerType, License, MediaType, Node, NumberType,
    OAuth2Flows, ObjectType, OpenAPI, Operation, PathItem, Paths, RequestBody, Response, Responses,
    SchemaData, Server, ServerVariable, StringType, Tag, ToNode, Xml,
};
use std::alloc::Global;

/// Returns what a value is written as.
fn written<T: ToNode + Drop>(alloc: Global, value: T) -> Result<Node, Fault> {
    value.to_node(alloc)
}

/// Returns what a new value is written as, by the name of its type, or `None` if no value is made for that name.
///
/// # Errors
///
/// The result inside is the [`Fault`] of writing the value.
pub fn written_empty(rt: &HostRuntime, name: &str) -> Option<Result<Node, Fault>> {
    let alloc = rt.alloc();
    Some(match name {
        "AnySchema" => written(alloc, AnySchema::new(alloc)),
        "BooleanType" => written(alloc, BooleanType::new(alloc)),
        "Callback" => written(alloc, Callback::new(alloc)),
        "Components" => written(alloc, Components::new(alloc)),
        "Contact" => written(alloc, Contact::new(alloc)),
        "Discriminator" => written(alloc, Discriminator::new(alloc)),
        "Encoding" => written(alloc, Encoding::new(alloc)),
        "Example" => written(alloc, Example::new(alloc)),
        "ExternalDocumentation" => written(alloc, ExternalDocumentation::new(alloc)),
        "Info" => written(alloc, Info::new(alloc)),
        "IntegerType" => written(alloc, IntegerType::new(alloc)),
        "License" => written(alloc, License::new(alloc)),
        "MediaType" => written(alloc, MediaType::new(alloc)),
        "NumberType" => written(alloc, NumberType::new(alloc)),
        "OAuth2Flows" => written(alloc, OAuth2Flows::new(alloc)),
        "ObjectType" => written(alloc, ObjectType::new(alloc)),
        "OpenAPI" => written(alloc, OpenAPI::new(alloc)),
        "Operation" => written(alloc, Operation::new(alloc)),
        "PathItem" => written(alloc, PathItem::new(alloc)),
        "Paths" => written(alloc, Paths::new(alloc)),
        "RequestBody" => written(alloc, RequestBody::new(alloc)),
        "Response" => written(alloc, Response::new(alloc)),
        "Responses" => written(alloc, Responses::new(alloc)),
        "SchemaData" => written(alloc, SchemaData::new(alloc)),
        "Server" => written(alloc, Server::new(alloc)),
        "ServerVariable" => written(alloc, ServerVariable::new(alloc)),
        "StringType" => written(alloc, StringType::new(alloc)),
        "Tag" => written(alloc, Tag::new(alloc)),
        "Xml" => written(alloc, Xml::new(alloc)),
        _ => return None,
    })
}
