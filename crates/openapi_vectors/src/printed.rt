//! Values as text for programmers.

use crate::read::read_value;
use openapi_test_support::trees::check_same;
use openapiv3::{
    AdditionalProperties, BooleanType, FromNode, ObjectType, Parameter, ReferenceOr, RequestBody,
    Response, Responses, SchemaKind, SchemaType, StringType,
};
use std::fmt::Debug;
use std::test::Fail;

/// Checks that a value prints as a text for programmers.
fn check_printed<T: Debug + Drop>(rt: &HostRuntime, value: T, wanted: &str) -> Result<(), Fail> {
    let found = format!(in rt.alloc(); "{value:?}")?;
    check_same(rt, found.as_str(), wanted)
}

/// Checks that what is read from a JSON text prints as a text for programmers.
fn check_read_printed<T: FromNode + Debug + Drop>(
    rt: &HostRuntime,
    given: &str,
    wanted: &str,
) -> Result<(), Fail> {
    check_printed::<T>(rt, read_value(rt, given)?, wanted)
}

#[test]
fn schemas_print_their_fields(rt: HostRuntime) -> Result<(), Fail> {
    check_printed(
        &rt,
        StringType::new(rt.alloc()),
        "StringType { format: Empty, pattern: None, enumeration: [], min_length: None, max_length: None }",
    )?;
    let boolean = BooleanType::new(rt.alloc());
    check_printed(&rt, boolean, "BooleanType { enumeration: [] }")?;
    check_printed(
        &rt,
        SchemaType::Object(ObjectType::new(rt.alloc())),
        "Object(ObjectType { properties: {}, required: [], additional_properties: None, min_properties: None, max_properties: None })",
    )?;
    check_printed(&rt, AdditionalProperties::Any(true), "Any(true)")?;
    let not = SchemaKind::Not {
        not: Box::new(rt.alloc(), ReferenceOr::ref_(rt.alloc(), "r")?)?,
    };
    check_printed(&rt, not, r#"Not { not: Reference { reference: "r" } }"#)
}

#[test]
fn messages_print_their_fields(rt: HostRuntime) -> Result<(), Fail> {
    check_printed(
        &rt,
        RequestBody::new(rt.alloc()),
        "RequestBody { description: None, content: {}, required: false, extensions: {} }",
    )?;
    check_printed(
        &rt,
        Response::new(rt.alloc()),
        "Response { description: \"\", headers: {}, content: {}, links: {}, extensions: {} }",
    )?;
    check_printed(
        &rt,
        Responses::new(rt.alloc()),
        "Responses { default: None, extensions: {}, responses: {} }",
    )
}

#[test]
fn parameters_print_their_fields(rt: HostRuntime) -> Result<(), Fail> {
    check_read_printed::<Parameter>(
        &rt,
        r#"{"in":"cookie","name":"c","content":{}}"#,
        "Cookie { parameter_data: ParameterData { name: \"c\", description: None, required: false, deprecated: None, example: None, examples: {}, explode: None, extensions: {}, format: Content({}) }, style: Form }",
    )
}
