//! Nodes from JSON text, and nodes as text, with their members in order.

use openapiv3::{Fault, Node, OrderedMap, ToNode, node_from_json_in_order};
use std::test::Fail;

/// Returns the node of a JSON text, whose members are in the order of the text.
///
/// # Errors
///
/// Returns [`Fail`] if an allocation fails, or if the text is no JSON whose numbers are whole.
pub fn tree(rt: &HostRuntime, text: &str) -> Result<Node, Fail> {
    Ok(node_from_json_in_order(rt.alloc(), text.as_bytes())?)
}

/// Returns a map with one entry.
///
/// # Errors
///
/// Returns [`Fail`] if an allocation fails.
pub fn map_with<V: Drop>(rt: &HostRuntime, name: &str, value: V) -> Result<OrderedMap<V>, Fail> {
    let name = name.to_string(rt.alloc())?;
    let mut map = OrderedMap::new(rt.alloc());
    map.insert(name, value)?;
    Ok(map)
}

/// Returns a node as text, with the members of each object in their order. Equality of nodes does not depend on it.
fn shown(rt: &HostRuntime, node: &Node) -> Result<String, Fail> {
    Ok(format!(in rt.alloc(); "{node:?}")?)
}

/// Returns the printed form of a fault.
///
/// # Errors
///
/// Returns [`Fail`] if an allocation fails.
pub fn fault_text(rt: &HostRuntime, fault: &Fault) -> Result<String, Fail> {
    Ok(format!(in rt.alloc(); "{fault}")?)
}

/// Returns the text of the fault that refuses to write a value, or `written`.
///
/// # Errors
///
/// Returns [`Fail`] if an allocation fails.
pub fn write_refusal<T: ToNode>(rt: &HostRuntime, value: &T) -> Result<String, Fail> {
    match value.to_node(rt.alloc()) {
        Ok(_) => Ok(String::from_str(rt.alloc(), "written")?),
        Err(fault) => fault_text(rt, &fault),
    }
}

/// Fails the test with a text, unless the two texts are the same.
///
/// # Errors
///
/// Returns [`Fail`] if the texts differ, or if an allocation fails.
pub fn check_same(rt: &HostRuntime, found: &str, wanted: &str) -> Result<(), Fail> {
    if found != wanted {
        Err::<(), String>(format!(in rt.alloc(); "{found} in place of {wanted}")?)?;
    }
    Ok(())
}

/// Checks that a node is the one of a JSON text, member order included.
///
/// # Errors
///
/// Returns [`Fail`] if the values differ, or if an allocation fails.
pub fn check_tree(rt: &HostRuntime, found: &Node, text: &str) -> Result<(), Fail> {
    let wanted = shown(rt, &tree(rt, text)?)?;
    check_same(rt, shown(rt, found)?.as_str(), wanted.as_str())
}

/// Checks that the node of a JSON text was written, member order included, or that the fault has a text.
///
/// # Errors
///
/// Returns [`Fail`] if what was written differs, or if an allocation fails.
pub fn check_written(
    rt: &HostRuntime,
    written: Result<Node, Fault>,
    wanted: Result<&str, &str>,
) -> Result<(), Fail> {
    match (written, wanted) {
        (Ok(node), Ok(text)) => check_tree(rt, &node, text),
        (Ok(node), Err(fault)) => check_same(rt, shown(rt, &node)?.as_str(), fault),
        (Err(fault), Ok(text) | Err(text)) => {
            check_same(rt, fault_text(rt, &fault)?.as_str(), text)
        }
    }
}
