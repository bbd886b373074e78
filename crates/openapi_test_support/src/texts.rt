//! JSON text that is read as nodes and written from them, where a case can't express it: bytes that are no text, nodes
//! that are built, and what is printed.
use crate::nodes::object;
use openapi_json::{
    JsonFault, json_from_node, json_from_node_in_order, node_from_json, node_from_json_in_order,
    position_of,
};
use openapi_node::{Node, Steps, Whole};
use std::test::Fail;

/// Returns what is written of a node by name.
fn written(rt: &HostRuntime, node: &Node) -> Result<String, Fail> {
    let mut steps = Steps::new(rt);
    Ok(json_from_node(rt.alloc(), node, &mut steps)?)
}

/// Returns what is written of a node in order.
fn written_in_order(rt: &HostRuntime, node: &Node) -> Result<String, Fail> {
    let mut steps = Steps::new(rt);
    Ok(json_from_node_in_order(rt.alloc(), node, &mut steps)?)
}

#[test]
fn bytes_that_are_no_text_are_refused(rt: HostRuntime) -> Result<(), Fail> {
    let bytes = b"\"\xff\"";
    assert!(rt; node_from_json(rt.alloc(), bytes) == Err(JsonFault::NotJson));
    assert!(rt; node_from_json_in_order(rt.alloc(), bytes) == Err(JsonFault::NotJson));
    assert!(rt; position_of(rt.alloc(), bytes, &[])?.is_none());
    Ok(())
}

#[test]
fn members_of_a_node_stand_by_name_or_in_order(rt: HostRuntime) -> Result<(), Fail> {
    let text = br#"{"b":1,"a":null,"b":[]}"#;
    let node = node_from_json(rt.alloc(), text)?;
    let shown = format!(in rt.alloc(); "{node:?}")?;
    assert_eq!(rt; shown.as_str(), r#"Object {"a": Null, "b": Array []}"#);
    let node = node_from_json_in_order(rt.alloc(), text)?;
    let shown = format!(in rt.alloc(); "{node:?}")?;
    assert_eq!(rt; shown.as_str(), r#"Object {"b": Array [], "a": Null}"#);
    Ok(())
}

#[test]
fn nodes_are_written_by_name_or_in_order(rt: HostRuntime) -> Result<(), Fail> {
    let rows = [("m", 1), ("b", 2), ("z", 3), ("a", 4)];
    let node = object(rt.alloc(), &rows)?;
    assert_eq!(rt;
        written(&rt, &node)?.as_str(),
        r#"{"a":4,"b":2,"m":1,"z":3}"#
    );
    assert_eq!(rt;
        written_in_order(&rt, &node)?.as_str(),
        r#"{"m":1,"b":2,"z":3,"a":4}"#
    );
    let mut items = Vec::new(rt.alloc());
    items.push(Node::whole(Whole::from(-7_i64)))?;
    items.push(node)?;
    items.push(Node::text(String::from_str(rt.alloc(), "\u{1f}\"é")?))?;
    items.push(object(rt.alloc(), &[("a", 1), ("b", 2)])?)?;
    let wanted = r#"[-7,{"a":4,"b":2,"m":1,"z":3},"\u001f\"é",{"a":1,"b":2}]"#;
    assert_eq!(rt; written(&rt, &Node::list(items))?.as_str(), wanted);
    Ok(())
}

#[test]
fn faults_print_as_a_line(rt: HostRuntime) -> Result<(), Fail> {
    let memory = JsonFault::Memory;
    assert_eq!(rt;
        format!(in rt.alloc(); "{memory}")?.as_str(),
        "out of memory"
    );
    assert!(rt; memory == JsonFault::Memory);
    assert!(rt; memory != JsonFault::NotJson);
    Ok(())
}
