//! Which values are equal.

use crate::read::read_value;
use openapi_test_support::trees::{check_written, tree};
use openapiv3::{
    AdditionalProperties, AnySchema, BooleanType, Callback, FromNode, IntegerType, Node,
    NumberType, ObjectType, Paths, ReferenceOr, Responses, Schema, SchemaData, Steps, StringType,
    Tag, ToNode, node_from_json,
};
use serde_json::Value;
use std::test::Fail;

/// Returns whether what is read from two JSON texts is equal.
fn are_equal<T: FromNode + PartialEq + Drop>(
    rt: &HostRuntime,
    one: &str,
    other: &str,
) -> Result<bool, Fail> {
    let one: T = read_value(rt, one)?;
    let other: T = read_value(rt, other)?;
    Ok(one == other)
}

/// Pairs of schemas, or references to some, that differ.
const SCHEMAS: [(&str, &str); 2] = [
    (r#"{"type":"string","pattern":"p"}"#, r#"{"$ref":"r"}"#),
    (r#"{"$ref":"r"}"#, r#"{"$ref":"s"}"#),
];

// Each case of `tests/cases` checks that a clone equals its source.
#[test]
fn schemas_that_differ_are_not_equal(rt: HostRuntime) -> Result<(), Fail> {
    for (one, other) in SCHEMAS {
        assert!(rt; !are_equal::<ReferenceOr<Schema>>(&rt, one, other)?);
        assert!(rt; !are_equal::<ReferenceOr<Box<Schema>>>(&rt, one, other)?);
        assert!(rt; are_equal::<ReferenceOr<Box<Schema>>>(&rt, one, one)?);
    }
    assert!(rt; !are_equal::<AdditionalProperties>(&rt, "false", "true")?);
    assert!(rt; !are_equal::<AdditionalProperties>(&rt, r#"{"$ref":"r"}"#, "false")?);
    Ok(())
}

#[test]
fn operations_that_differ_are_not_equal(rt: HostRuntime) -> Result<(), Fail> {
    let callback =
        r#"{"u":{"post":{"tags":["t"],"responses":{},"callbacks":{"d":{"v":{}}}}},"x-a":[1]}"#;
    let other = r#"{"u":{"post":{"tags":["t"],"responses":{},"callbacks":{"d":{}}}},"x-a":[1]}"#;
    assert!(rt; !are_equal::<Callback>(&rt, callback, other)?);
    let paths = r##"{"/a":{"get":{"responses":{}}},"/r":{"$ref":"#/x"},"x-":null}"##;
    let other = r##"{"/a":{"put":{"responses":{}}},"/r":{"$ref":"#/x"},"x-":null}"##;
    assert!(rt; !are_equal::<Paths>(&rt, paths, other)?);
    let responses =
        r##"{"default":{"$ref":"#/a"},"418":{"description":"b"},"1XX":{"$ref":"#/c"},"x-a":1}"##;
    let other = r##"{"default":{"$ref":"#/a"},"418":{"description":"b"},"x-a":1}"##;
    assert!(rt; !are_equal::<Responses>(&rt, responses, other)?);
    Ok(())
}

// Extensions that differ in their order alone are equal, as maps are.
#[test]
fn equality_ignores_the_order_of_extensions(rt: HostRuntime) -> Result<(), Fail> {
    let one = r#"{"name":"t","x-a":1,"x-b":null}"#;
    assert!(rt; are_equal::<Tag>(&rt, one, r#"{"name":"t","x-b":null,"x-a":1}"#)?);
    assert!(rt; !are_equal::<Tag>(&rt, one, r#"{"name":"t","x-b":1,"x-a":null}"#)?);
    assert!(rt; !are_equal::<Tag>(&rt, one, r#"{"name":"t","x-a":1}"#)?);
    Ok(())
}

/// Returns the node of a JSON text, with members in the order of their names.
fn sorted(rt: &HostRuntime, text: &str) -> Result<Node, Fail> {
    let value = Value::from_slice(rt.alloc(), text.as_bytes())?;
    Ok(Node::from_value(rt.alloc(), &value)?)
}

/// Returns whether this value is read from a node.
fn is_read<T: FromNode + PartialEq + Drop>(
    rt: &HostRuntime,
    node: &Node,
    value: &T,
) -> Result<bool, Fail> {
    let mut steps = Steps::new(rt);
    Ok(T::from_node(rt.alloc(), node, &mut steps)? == *value)
}

/// Returns whether what is read from a JSON text is also read from it with its members in the order of their names.
fn is_read_sorted<T: FromNode + PartialEq + Drop>(
    rt: &HostRuntime,
    text: &str,
) -> Result<bool, Fail> {
    let node = sorted(rt, text)?;
    is_read::<T>(rt, &node, &read_value(rt, text)?)
}

#[test]
fn equality_ignores_the_order_of_properties(rt: HostRuntime) -> Result<(), Fail> {
    let text = r#"{"type":"object","properties":{"z":{},"a":{},"b":{}}}"#;
    assert!(rt; is_read_sorted::<ReferenceOr<Schema>>(&rt, text)?);
    Ok(())
}

/// Checks that what is read from a node is written as a JSON text, member order included.
fn check_order<T: ToNode + Drop>(rt: &HostRuntime, node: &Node, wanted: &str) -> Result<(), Fail> {
    let mut steps = Steps::new(rt);
    let value = T::from_node(rt.alloc(), node, &mut steps)?;
    check_written(rt, value.to_node(rt.alloc()), Ok(wanted))
}

// Equality does not depend on the order. Properties keep that of the node, which is by name if the node was read from a
// `Value` or from text by name.
#[test]
fn properties_keep_the_order_of_the_tree(rt: HostRuntime) -> Result<(), Fail> {
    let text = r#"{"type":"object","properties":{"z":{},"a":{},"b":{}}}"#;
    check_order::<ReferenceOr<Schema>>(&rt, &tree(&rt, text)?, text)?;
    let by_name = r#"{"type":"object","properties":{"a":{},"b":{},"z":{}}}"#;
    check_order::<ReferenceOr<Schema>>(&rt, &sorted(&rt, text)?, by_name)?;
    let node = node_from_json(rt.alloc(), text.as_bytes())?;
    check_order::<ReferenceOr<Schema>>(&rt, &node, by_name)
}

/// Checks that a new value equals what is read from an object without members.
fn check_new<T: FromNode + PartialEq + Drop>(rt: &HostRuntime, made: T) -> Result<(), Fail> {
    if read_value::<T>(rt, "{}")? != made {
        return Err(Fail::from("not what is read of {}"));
    }
    Ok(())
}

#[test]
fn new_values_are_those_of_empty_objects(rt: HostRuntime) -> Result<(), Fail> {
    check_new(&rt, StringType::new(rt.alloc()))?;
    check_new(&rt, NumberType::new(rt.alloc()))?;
    check_new(&rt, IntegerType::new(rt.alloc()))?;
    check_new(&rt, BooleanType::new(rt.alloc()))?;
    check_new(&rt, ObjectType::new(rt.alloc()))?;
    check_new(&rt, AnySchema::new(rt.alloc()))?;
    check_new(&rt, SchemaData::new(rt.alloc()))
}
