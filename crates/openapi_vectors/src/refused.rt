//! Objects inside others whose extension can't be written, since its name lacks the prefix `x-`: the refusal names the
//! whole location. Each object is built, and not read, so that it can have such an extension.

use crate::built::{check_built, coded, document_of, document_of_paths, responses_of};
use crate::extended::{data_of, with_extension};
use openapi_test_support::trees::map_with;
use openapiv3::{
    AnySchema, Components, Content, Encoding, Header, MediaType, OpenAPI, Operation, OrderedMap,
    Parameter, PathItem, PathStyle, Paths, ReferenceOr, Response, Responses, Schema, SchemaData,
    SchemaKind, StatusCode, Xml,
};
use std::alloc::Global;
use std::test::Fail;

/// Returns a schema with this XML object.
fn schema_of_xml(alloc: Global, xml: Xml) -> Schema {
    let mut schema_data = SchemaData::new(alloc);
    schema_data.xml = Some(xml);
    Schema {
        schema_data,
        schema_kind: SchemaKind::Any(AnySchema::new(alloc)),
    }
}

/// Returns a schema with an XML object that has an extension of this name.
fn schema_with_xml(rt: &HostRuntime, name: &str) -> Result<Schema, Fail> {
    Ok(schema_of_xml(rt.alloc(), with_extension(rt, name)?))
}

#[test]
fn extensions_of_xml_objects_need_their_prefix(rt: HostRuntime) -> Result<(), Fail> {
    let refused = Err("name not writable at #/xml/foo");
    check_built(&rt, schema_with_xml(&rt, "foo"), refused)?;
    let wanted = Ok(r#"{"xml":{"x-foo":null}}"#);
    check_built(&rt, schema_with_xml(&rt, "x-foo"), wanted)
}

/// Returns a reference or item that is a schema with an extension of this name.
fn item_with(rt: &HostRuntime, name: &str) -> Result<ReferenceOr<Schema>, Fail> {
    Ok(ReferenceOr::Item(with_extension(rt, name)?))
}

/// Returns the same with the schema in a box.
fn boxed_with(rt: &HostRuntime, name: &str) -> Result<ReferenceOr<Box<Schema>>, Fail> {
    let schema = with_extension(rt, name)?;
    Ok(ReferenceOr::boxed_item(rt.alloc(), schema)?)
}

/// Returns a schema of what another is not.
fn schema_of_not(alloc: Global, not: Box<ReferenceOr<Schema>>) -> Schema {
    Schema {
        schema_data: SchemaData::new(alloc),
        schema_kind: SchemaKind::Not { not },
    }
}

/// Returns a schema of what a schema with an extension of this name is not.
fn not_with(rt: &HostRuntime, name: &str) -> Result<Schema, Fail> {
    let not = Box::new(rt.alloc(), item_with(rt, name)?)?;
    Ok(schema_of_not(rt.alloc(), not))
}

// Neither an item nor a box adds a step to the location.
#[test]
fn extensions_need_their_prefix_in_items_and_boxes(rt: HostRuntime) -> Result<(), Fail> {
    let refused = Err("name not writable at #/foo");
    let wanted = Ok(r#"{"x-foo":null}"#);
    check_built(&rt, item_with(&rt, "foo"), refused)?;
    check_built(&rt, item_with(&rt, "x-foo"), wanted)?;
    check_built(&rt, boxed_with(&rt, "foo"), refused)?;
    check_built(&rt, boxed_with(&rt, "x-foo"), wanted)?;
    let refused = Err("name not writable at #/not/foo");
    check_built(&rt, not_with(&rt, "foo"), refused)?;
    let wanted = Ok(r#"{"not":{"x-foo":null}}"#);
    check_built(&rt, not_with(&rt, "x-foo"), wanted)
}

/// Returns a response with these headers.
fn response_of(alloc: Global, headers: OrderedMap<ReferenceOr<Header>>) -> Response {
    let mut response = Response::new(alloc);
    response.headers = headers;
    response
}

/// Returns a response whose header `H` has an extension of this name.
fn response_with(rt: &HostRuntime, name: &str) -> Result<Response, Fail> {
    let headers = map_with(rt, "H", ReferenceOr::Item(with_extension(rt, name)?))?;
    Ok(response_of(rt.alloc(), headers))
}

/// Returns responses with such a response at the codes of 500 to 599.
fn responses_with(rt: &HostRuntime, name: &str) -> Result<Responses, Fail> {
    let response = ReferenceOr::Item(response_with(rt, name)?);
    let coded = coded(rt, StatusCode::Range(5), response)?;
    Ok(responses_of(rt.alloc(), coded))
}

/// Returns an operation with these responses.
fn operation_of(alloc: Global, responses: Responses) -> Operation {
    let mut operation = Operation::new(alloc);
    operation.responses = responses;
    operation
}

/// Returns an operation with such responses.
fn operation_with(rt: &HostRuntime, name: &str) -> Result<Operation, Fail> {
    Ok(operation_of(rt.alloc(), responses_with(rt, name)?))
}

/// Returns a path item with this operation at `get`.
fn path_item_of(alloc: Global, operation: Operation) -> PathItem {
    let mut path_item = PathItem::new(alloc);
    path_item.get = Some(operation);
    path_item
}

/// Returns a path item with such an operation.
fn path_item_with(rt: &HostRuntime, name: &str) -> Result<PathItem, Fail> {
    Ok(path_item_of(rt.alloc(), operation_with(rt, name)?))
}

/// Returns paths with such a path item at `/a`.
fn paths_with(rt: &HostRuntime, name: &str) -> Result<Paths, Fail> {
    let path_item = ReferenceOr::Item(path_item_with(rt, name)?);
    Ok(Paths {
        paths: map_with(rt, "/a", path_item)?,
        extensions: OrderedMap::new(rt.alloc()),
    })
}

/// Returns a document with such paths.
fn document_with_paths(rt: &HostRuntime, name: &str) -> Result<OpenAPI, Fail> {
    Ok(document_of_paths(rt.alloc(), paths_with(rt, name)?))
}

#[test]
fn extensions_need_their_prefix_in_headers_and_responses(rt: HostRuntime) -> Result<(), Fail> {
    let refused = Err("name not writable at #/headers/H/foo");
    check_built(&rt, response_with(&rt, "foo"), refused)?;
    let refused = Err("name not writable at #/5XX/headers/H/foo");
    check_built(&rt, responses_with(&rt, "foo"), refused)?;
    let wanted = Ok(
        r#"{"5XX":{"description":"","headers":{"H":{"style":"simple","content":{},"x-foo":null}}}}"#,
    );
    check_built(&rt, responses_with(&rt, "x-foo"), wanted)
}

#[test]
fn extensions_need_their_prefix_in_operations(rt: HostRuntime) -> Result<(), Fail> {
    let refused = Err("name not writable at #/responses/5XX/headers/H/foo");
    check_built(&rt, operation_with(&rt, "foo"), refused)?;
    let refused = Err("name not writable at #/get/responses/5XX/headers/H/foo");
    check_built(&rt, path_item_with(&rt, "foo"), refused)?;
    let refused = Err("name not writable at #/paths/~1a/get/responses/5XX/headers/H/foo");
    check_built(&rt, document_with_paths(&rt, "foo"), refused)?;
    let wanted = Ok(
        r#"{"openapi":"","info":{"title":"","version":""},"paths":{"/a":{"get":{"responses":{"5XX":{"description":"","headers":{"H":{"style":"simple","content":{},"x-foo":null}}}}}}}}"#,
    );
    check_built(&rt, document_with_paths(&rt, "x-foo"), wanted)
}

/// Returns a media type with these encodings.
fn media_type_of(alloc: Global, encodings: OrderedMap<Encoding>) -> MediaType {
    let mut media_type = MediaType::new(alloc);
    media_type.encoding = encodings;
    media_type
}

/// Returns a media type whose encoding of `e` has an extension of this name.
fn media_type_with(rt: &HostRuntime, name: &str) -> Result<MediaType, Fail> {
    let encodings = map_with(rt, "e", with_extension(rt, name)?)?;
    Ok(media_type_of(rt.alloc(), encodings))
}

/// Returns a parameter in a path with this content.
fn parameter_of(alloc: Global, content: Content) -> Parameter {
    Parameter::Path {
        parameter_data: data_of(alloc, content, OrderedMap::new(alloc)),
        style: PathStyle::Simple,
    }
}

/// Returns a parameter whose content `m` is such a media type.
fn parameter_with(rt: &HostRuntime, name: &str) -> Result<Parameter, Fail> {
    let content = map_with(rt, "m", media_type_with(rt, name)?)?;
    Ok(parameter_of(rt.alloc(), content))
}

/// Returns a list of one item.
fn list_of<V: Drop>(alloc: Global, item: V) -> Result<Vec<V>, Fail> {
    let mut list = Vec::new(alloc);
    list.push(item)?;
    Ok(list)
}

/// Returns an operation with these parameters.
fn operation_of_parameters(alloc: Global, parameters: Vec<ReferenceOr<Parameter>>) -> Operation {
    let mut operation = Operation::new(alloc);
    operation.parameters = parameters;
    operation
}

/// Returns an operation with such a parameter.
fn operation_with_parameter(rt: &HostRuntime, name: &str) -> Result<Operation, Fail> {
    let parameter = ReferenceOr::Item(parameter_with(rt, name)?);
    let parameters = list_of(rt.alloc(), parameter)?;
    Ok(operation_of_parameters(rt.alloc(), parameters))
}

/// Returns components with these parameters.
fn components_of(alloc: Global, parameters: OrderedMap<ReferenceOr<Parameter>>) -> Components {
    let mut components = Components::new(alloc);
    components.parameters = parameters;
    components
}

/// Returns components with such a parameter `P`.
fn components_with(rt: &HostRuntime, name: &str) -> Result<Components, Fail> {
    let parameter = ReferenceOr::Item(parameter_with(rt, name)?);
    Ok(components_of(rt.alloc(), map_with(rt, "P", parameter)?))
}

/// Returns a document with such components.
fn document_with_components(rt: &HostRuntime, name: &str) -> Result<OpenAPI, Fail> {
    Ok(document_of(rt.alloc(), components_with(rt, name)?))
}

#[test]
fn extensions_need_their_prefix_in_encodings_and_parameters(rt: HostRuntime) -> Result<(), Fail> {
    let refused = Err("name not writable at #/encoding/e/foo");
    check_built(&rt, media_type_with(&rt, "foo"), refused)?;
    let refused = Err("name not writable at #/content/m/encoding/e/foo");
    check_built(&rt, parameter_with(&rt, "foo"), refused)?;
    let wanted = Ok(
        r#"{"in":"path","name":"","content":{"m":{"encoding":{"e":{"contentType":null,"x-foo":null}}}},"style":"simple"}"#,
    );
    check_built(&rt, parameter_with(&rt, "x-foo"), wanted)?;
    let refused = Err("name not writable at #/parameters/0/content/m/encoding/e/foo");
    check_built(&rt, operation_with_parameter(&rt, "foo"), refused)
}

#[test]
fn extensions_need_their_prefix_in_components(rt: HostRuntime) -> Result<(), Fail> {
    let refused = Err("name not writable at #/parameters/P/content/m/encoding/e/foo");
    check_built(&rt, components_with(&rt, "foo"), refused)?;
    let refused = Err("name not writable at #/components/parameters/P/content/m/encoding/e/foo");
    check_built(&rt, document_with_components(&rt, "foo"), refused)
}
