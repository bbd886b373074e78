//! Values that are built, and not read: what they are written as, and the names that are not written.

use indexmap::IndexMap;
use openapi_test_support::trees::{check_tree, check_written, map_with};
use openapiv3::{
    AnySchema, Callback, Components, FromNode, Node, ObjectType, OpenAPI, Operation, OrderedMap,
    PathItem, Paths, ReferenceOr, Response, Responses, Schema, SchemaData, SchemaKind, SchemaType,
    StatusCode, Steps, StringFormat, StringType, Tag, ToNode, Type, VariantOrUnknownOrEmpty,
};
use std::alloc::Global;
use std::test::Fail;

/// Checks that a value that was built is written as a JSON text, member order included, or is refused with a text.
pub(crate) fn check_built<T: ToNode + Drop>(
    rt: &HostRuntime,
    built: Result<T, Fail>,
    wanted: Result<&str, &str>,
) -> Result<(), Fail> {
    match built {
        Ok(value) => check_written(rt, value.to_node(rt.alloc()), wanted),
        Err(fail) => Err(fail),
    }
}

/// Returns a null extension of this name.
pub(crate) fn extension(rt: &HostRuntime, name: &str) -> Result<OrderedMap<Node>, Fail> {
    map_with(rt, name, Node::null())
}

/// Returns an empty tag except for a null extension of this name.
fn tag_with(rt: &HostRuntime, name: &str) -> Result<Tag, Fail> {
    let extensions = extension(rt, name)?;
    let mut tag = Tag::new(rt.alloc());
    tag.extensions = extensions;
    Ok(tag)
}

// A name that would not be read as an extension again is not written, with its place; `x-` alone is a name of one.
#[test]
fn names_of_extensions_begin_with_their_prefix(rt: HostRuntime) -> Result<(), Fail> {
    let rows = [
        ("", Err("name not writable at #/")),
        ("x", Err("name not writable at #/x")),
        ("-x", Err("name not writable at #/-x")),
        ("X-a", Err("name not writable at #/X-a")),
        ("/a", Err("name not writable at #/~1a")),
        ("name", Err("name not writable at #/name")),
        ("x-", Ok(r#"{"name":"","x-":null}"#)),
        ("x-a/b", Ok(r#"{"name":"","x-a/b":null}"#)),
    ];
    for (name, wanted) in rows {
        check_built(&rt, tag_with(&rt, name), wanted)?;
    }
    Ok(())
}

/// Returns a schema of no sort in particular with these extensions.
pub(crate) fn schema_of(alloc: Global, extensions: OrderedMap<Node>) -> Schema {
    let mut schema_data = SchemaData::new(alloc);
    schema_data.extensions = extensions;
    Schema {
        schema_data,
        schema_kind: SchemaKind::Any(AnySchema::new(alloc)),
    }
}

/// Returns a schema of an object with these properties.
fn object_of(alloc: Global, properties: OrderedMap<ReferenceOr<Box<Schema>>>) -> Schema {
    let mut object = ObjectType::new(alloc);
    object.properties = properties;
    Schema {
        schema_data: SchemaData::new(alloc),
        schema_kind: SchemaKind::Typed(SchemaType::Object(object)),
    }
}

/// Returns a schema of an object with a property that has a null extension of this name.
fn object_with(rt: &HostRuntime, name: &str) -> Result<Schema, Fail> {
    let extensions = extension(rt, name)?;
    let property = ReferenceOr::boxed_item(rt.alloc(), schema_of(rt.alloc(), extensions))?;
    Ok(object_of(rt.alloc(), map_with(rt, "p", property)?))
}

/// Components with these schemas.
fn components_of(alloc: Global, schemas: OrderedMap<ReferenceOr<Schema>>) -> Components {
    let mut components = Components::new(alloc);
    components.schemas = schemas;
    components
}

/// Returns a document with these components.
pub(crate) fn document_of(alloc: Global, components: Components) -> OpenAPI {
    let mut document = OpenAPI::new(alloc);
    document.components = Some(components);
    document
}

/// Returns a document with a schema of an object with a property that has a null extension of this name.
fn document_with(rt: &HostRuntime, name: &str) -> Result<OpenAPI, Fail> {
    let schemas = map_with(rt, "S", ReferenceOr::Item(object_with(rt, name)?))?;
    Ok(document_of(rt.alloc(), components_of(rt.alloc(), schemas)))
}

// A fault of an inner object has the location from the whole value.
#[test]
fn extensions_are_looked_at_deep_inside(rt: HostRuntime) -> Result<(), Fail> {
    let refused = Err("name not writable at #/properties/p/foo");
    check_built(&rt, object_with(&rt, "foo"), refused)?;
    let refused = Err("name not writable at #/components/schemas/S/properties/p/foo");
    check_built(&rt, document_with(&rt, "foo"), refused)?;
    let wanted =
        r#"{"openapi":"","info":{"title":"","version":""},"paths":{},"components":{"schemas":{"S":{"type":"object","properties":{"p":{"x-a":null}}}}}}"#;
    check_built(&rt, document_with(&rt, "x-a"), Ok(wanted))
}

#[test]
fn types_are_written_behind_their_type(rt: HostRuntime) -> Result<(), Fail> {
    let string: Type = Type::String(StringType::new(rt.alloc()));
    check_built(&rt, Ok(string), Ok(r#"{"type":"string"}"#))?;
    let object = object_of(rt.alloc(), OrderedMap::new(rt.alloc()));
    check_built(&rt, Ok(object), Ok(r#"{"type":"object"}"#))
}

// A format of the set that is held as an unknown text is written as that text, and so is read as a known one.
#[test]
fn unknown_formats_that_are_known_are_read_as_known(rt: HostRuntime) -> Result<(), Fail> {
    let known = String::from_str(rt.alloc(), "date")?;
    let mut built = StringType::new(rt.alloc());
    built.format = VariantOrUnknownOrEmpty::Unknown(known);
    let node = built.to_node(rt.alloc())?;
    check_tree(&rt, &node, r#"{"format":"date"}"#)?;
    let mut steps = Steps::new(&rt);
    let read = StringType::from_node(rt.alloc(), &node, &mut steps)?;
    assert!(rt; read.format == VariantOrUnknownOrEmpty::Item(StringFormat::Date));
    Ok(())
}

/// Returns a map of status codes with one entry.
pub(crate) fn coded<V: Drop>(
    rt: &HostRuntime,
    code: StatusCode,
    value: V,
) -> Result<IndexMap<StatusCode, V>, Fail> {
    let mut map = IndexMap::new(rt.alloc());
    map.insert(code, value)?;
    Ok(map)
}

/// Returns responses with these codes.
pub(crate) fn responses_of(
    alloc: Global,
    coded: IndexMap<StatusCode, ReferenceOr<Response>>,
) -> Responses {
    let mut responses = Responses::new(alloc);
    responses.responses = coded;
    responses
}

/// Returns empty responses except for a new response at this code.
fn responses_with(rt: &HostRuntime, code: StatusCode) -> Result<Responses, Fail> {
    let coded = coded(rt, code, ReferenceOr::Item(Response::new(rt.alloc())))?;
    Ok(responses_of(rt.alloc(), coded))
}

// A code is written where it is read again.
#[test]
fn codes_are_three_digits_or_a_digit_and_two_letters(rt: HostRuntime) -> Result<(), Fail> {
    let rows = [
        (StatusCode::Code(99), Err("name not writable at #/99")),
        (StatusCode::Code(100), Ok(r#"{"100":{"description":""}}"#)),
        (StatusCode::Code(999), Ok(r#"{"999":{"description":""}}"#)),
        (StatusCode::Code(1000), Err("name not writable at #/1000")),
        (StatusCode::Range(0), Ok(r#"{"0XX":{"description":""}}"#)),
        (StatusCode::Range(9), Ok(r#"{"9XX":{"description":""}}"#)),
        (StatusCode::Range(10), Err("name not writable at #/10XX")),
    ];
    for (code, wanted) in rows {
        check_built(&rt, responses_with(&rt, code), wanted)?;
    }
    Ok(())
}

/// Returns a callback that has an empty path item of this name.
fn callback_with(rt: &HostRuntime, name: &str) -> Result<Callback, Fail> {
    Ok(Callback {
        paths: map_with(rt, name, PathItem::new(rt.alloc()))?,
        extensions: OrderedMap::new(rt.alloc()),
    })
}

/// Returns an operation with such a callback under the name `c`.
fn operation_with(rt: &HostRuntime, name: &str) -> Result<Operation, Fail> {
    let callbacks = map_with(rt, "c", ReferenceOr::Item(callback_with(rt, name)?))?;
    let mut operation = Operation::new(rt.alloc());
    operation.callbacks = callbacks;
    Ok(operation)
}

/// Paths with an empty path item of this name.
fn paths_with(rt: &HostRuntime, name: &str) -> Result<Paths, Fail> {
    Ok(Paths {
        paths: map_with(rt, name, ReferenceOr::Item(PathItem::new(rt.alloc())))?,
        extensions: OrderedMap::new(rt.alloc()),
    })
}

// A path item of a callback under a name of extensions would be read as one, and a path begins with a slash.
#[test]
fn path_items_have_names_of_their_own(rt: HostRuntime) -> Result<(), Fail> {
    let refused = Err("name not writable at #/callbacks/c/x-a");
    check_built(&rt, operation_with(&rt, "x-a"), refused)?;
    for name in ["x", "", "X-a", "/x-a", "u"] {
        let wanted = format!(in rt.alloc(); "{{\"{name}\":{{}}}}")?;
        check_built(&rt, callback_with(&rt, name), Ok(wanted.as_str()))?;
    }
    let rows = [
        ("", Err("name not writable at #/")),
        ("x-a", Err("name not writable at #/x-a")),
        ("a/", Err("name not writable at #/a~1")),
        ("/", Ok(r#"{"/":{}}"#)),
        ("/x-a", Ok(r#"{"/x-a":{}}"#)),
    ];
    for (name, wanted) in rows {
        check_built(&rt, paths_with(&rt, name), wanted)?;
    }
    Ok(())
}

/// Returns a document with these paths.
pub(crate) fn document_of_paths(alloc: Global, paths: Paths) -> OpenAPI {
    let mut document = OpenAPI::new(alloc);
    document.paths = paths;
    document
}

/// Returns a document with an empty path item of this name.
fn document_with_path(rt: &HostRuntime, name: &str) -> Result<OpenAPI, Fail> {
    Ok(document_of_paths(rt.alloc(), paths_with(rt, name)?))
}

#[test]
fn paths_of_a_document_begin_with_a_slash(rt: HostRuntime) -> Result<(), Fail> {
    let rows = [
        ("a", Err("name not writable at #/paths/a")),
        ("", Err("name not writable at #/paths/")),
        (
            "/a",
            Ok(r#"{"openapi":"","info":{"title":"","version":""},"paths":{"/a":{}}}"#),
        ),
    ];
    for (name, wanted) in rows {
        check_built(&rt, document_with_path(&rt, name), wanted)?;
    }
    Ok(())
}
