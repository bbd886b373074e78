//! The calls on nodes, values of `serde_json` and JSON text for `tests/memory.sh`.

use crate::marks::{Moment, mark};
use crate::samples::Sample;
use crate::told::{Told, told_by, told_by_growth, told_by_value};
use openapi_test_support::trees::tree;
use openapiv3::{JsonFault, Node, PlaceStep, Point, Position, Steps};
use serde_json::Value;
use std::alloc::{AllocError, Global};
use std::test::Fail;

/// Makes a node of a value.
///
/// # Errors
///
/// Returns [`Fail`] if an allocation fails, or if the text of the sample is not read.
pub fn from_value(rt: &HostRuntime, text: &str) -> Result<Told, Fail> {
    let alloc = rt.alloc();
    let value = Value::from_slice(alloc, text.as_bytes())?;
    let before = value.clone()?;
    let wanted = tree(rt, text)?;
    mark(alloc, Moment::CallBegins)?;
    let answer = Node::from_value(alloc, &value);
    mark(alloc, Moment::CallEnds)?;
    Ok(told_by(answer, &wanted).if_kept(&value, &before))
}

/// Makes a value of a node.
///
/// # Errors
///
/// Returns [`Fail`] if an allocation fails, or if the text of the sample is not read.
pub fn to_value(rt: &HostRuntime, text: &str) -> Result<Told, Fail> {
    let alloc = rt.alloc();
    let node = tree(rt, text)?;
    let before = node.clone()?;
    let wanted = Value::from_slice(alloc, text.as_bytes())?;
    let mut steps = Steps::new(rt);
    mark(alloc, Moment::CallBegins)?;
    let answer = node.to_value(alloc, &mut steps);
    mark(alloc, Moment::CallEnds)?;
    Ok(told_by(answer, &wanted).if_kept(&node, &before))
}

/// Reads a node of JSON text.
///
/// # Errors
///
/// Returns [`Fail`] if an allocation fails, or if the text of the sample is not read.
pub fn node_from_json(rt: &HostRuntime, text: &str) -> Result<Told, Fail> {
    let alloc = rt.alloc();
    let wanted = tree(rt, text)?;
    mark(alloc, Moment::CallBegins)?;
    let answer = openapiv3::node_from_json(alloc, text.as_bytes());
    mark(alloc, Moment::CallEnds)?;
    Ok(match answer {
        Ok(node) => told_by_value(&node, &wanted),
        Err(fault) => told_by_json_fault(&fault),
    })
}

/// Returns what came of a call that refused JSON text.
pub fn told_by_json_fault(fault: &JsonFault) -> Told {
    match fault {
        JsonFault::Memory => Told::OutOfMemory,
        JsonFault::NotJson | JsonFault::NotWhole(_) => Told::Differs("the text is refused"),
    }
}

/// Writes a node as JSON text.
///
/// # Errors
///
/// Returns [`Fail`] if an allocation fails, or if the text of the sample is not read.
pub fn json_from_node(rt: &HostRuntime, text: &str) -> Result<Told, Fail> {
    let alloc = rt.alloc();
    let node = tree(rt, text)?;
    let before = node.clone()?;
    let wanted = Value::from_slice(alloc, text.as_bytes())?.to_string(alloc)?;
    let mut steps = Steps::new(rt);
    mark(alloc, Moment::CallBegins)?;
    let answer = openapiv3::json_from_node(alloc, &node, &mut steps);
    mark(alloc, Moment::CallEnds)?;
    Ok(told_by_growth(answer, &wanted).if_kept(&node, &before))
}

/// Reads a node of JSON text in order.
///
/// # Errors
///
/// Returns [`Fail`] if an allocation fails, or if the text of the sample is not read.
pub fn node_from_json_in_order(rt: &HostRuntime, text: &str) -> Result<Told, Fail> {
    let alloc = rt.alloc();
    let wanted = tree(rt, text)?;
    mark(alloc, Moment::CallBegins)?;
    let answer = openapiv3::node_from_json_in_order(alloc, text.as_bytes());
    mark(alloc, Moment::CallEnds)?;
    Ok(match answer {
        Ok(node) => told_by_value(&node, &wanted),
        Err(fault) => told_by_json_fault(&fault),
    })
}

/// Writes a node as JSON text in order, which is to be read as that node again.
///
/// # Errors
///
/// Returns [`Fail`] if an allocation fails, or if the text of the sample is not read.
pub fn json_from_node_in_order(rt: &HostRuntime, text: &str) -> Result<Told, Fail> {
    let alloc = rt.alloc();
    let node = tree(rt, text)?;
    let before = node.clone()?;
    let mut steps = Steps::new(rt);
    mark(alloc, Moment::CallBegins)?;
    let answer = openapiv3::json_from_node_in_order(alloc, &node, &mut steps);
    mark(alloc, Moment::CallEnds)?;
    Ok(told_by_text(rt, answer, &node)?.if_kept(&node, &before))
}

/// Does the same with a line for each item and each member.
///
/// # Errors
///
/// Returns [`Fail`] if an allocation fails, or if the text of the sample is not read.
pub fn pretty_from_node_in_order(rt: &HostRuntime, text: &str) -> Result<Told, Fail> {
    let alloc = rt.alloc();
    let node = tree(rt, text)?;
    let before = node.clone()?;
    let mut steps = Steps::new(rt);
    mark(alloc, Moment::CallBegins)?;
    let answer = openapiv3::pretty_from_node_in_order(alloc, &node, &mut steps);
    mark(alloc, Moment::CallEnds)?;
    Ok(told_by_text(rt, answer, &node)?.if_kept(&node, &before))
}

/// Does the same with the members of each object in the order of their names. The node has them in that order already.
///
/// # Errors
///
/// Returns [`Fail`] if an allocation fails, or if the text of the sample is not read.
pub fn pretty_from_node(rt: &HostRuntime, text: &str) -> Result<Told, Fail> {
    let alloc = rt.alloc();
    let node = tree(rt, text)?;
    let before = node.clone()?;
    let mut steps = Steps::new(rt);
    mark(alloc, Moment::CallBegins)?;
    let answer = openapiv3::pretty_from_node(alloc, &node, &mut steps);
    mark(alloc, Moment::CallEnds)?;
    Ok(told_by_text(rt, answer, &node)?.if_kept(&node, &before))
}

/// Returns what came of a call that writes a node as JSON text.
fn told_by_text(
    rt: &HostRuntime,
    answer: Result<String, AllocError>,
    node: &Node,
) -> Result<Told, Fail> {
    Ok(match answer {
        Ok(text) => told_by_value(&tree(rt, text.as_str())?, node),
        Err(_) => Told::OutOfMemory,
    })
}

/// Finds the position of a text's root.
///
/// # Errors
///
/// Returns [`Fail`] if an allocation fails, or if the text of the sample is not read.
pub fn position_of(rt: &HostRuntime, text: &str) -> Result<Told, Fail> {
    let alloc = rt.alloc();
    let wanted = Some(Position {
        value: point_at(0),
        name: None,
    });
    mark(alloc, Moment::CallBegins)?;
    let answer = openapiv3::position_of(alloc, text.as_bytes(), &[]);
    mark(alloc, Moment::CallEnds)?;
    Ok(told_by_growth(answer, &wanted))
}

/// Finds the position of a member's value below a text's root.
///
/// # Errors
///
/// Returns [`Fail`] if an allocation fails, or if the text of the sample is not read.
pub fn position_below(rt: &HostRuntime, sample: Sample) -> Result<Told, Fail> {
    let alloc = rt.alloc();
    let (names, member) = sample.inner();
    let place = place_of(alloc, names)?;
    let wanted = Some(position_in(sample.text(), member)?);
    mark(alloc, Moment::CallBegins)?;
    let answer = openapiv3::position_of(alloc, sample.text().as_bytes(), place.as_slice());
    mark(alloc, Moment::CallEnds)?;
    Ok(told_by_growth(answer, &wanted))
}

/// Finds the positions of a text's root, of a member's value below it, and of a value that does not exist.
///
/// # Errors
///
/// Returns [`Fail`] if an allocation fails, or if the text of the sample is not read.
pub fn positions_of(rt: &HostRuntime, sample: Sample) -> Result<Told, Fail> {
    let alloc = rt.alloc();
    let (names, member) = sample.inner();
    let wanted = wanted_positions(alloc, sample.text(), member)?;
    let root = place_of(alloc, &[])?;
    let place = place_of(alloc, names)?;
    let missing = place_of(alloc, &["no such member"])?;
    let mut places = Vec::new(alloc);
    places.push(root.as_slice())?;
    places.push(place.as_slice())?;
    places.push(missing.as_slice())?;
    mark(alloc, Moment::CallBegins)?;
    let answer = openapiv3::positions_of(alloc, sample.text().as_bytes(), places.as_slice());
    mark(alloc, Moment::CallEnds)?;
    Ok(told_by_growth(answer, &wanted))
}

/// Returns the positions of a text's root and of a member, which the text has once, and none.
fn wanted_positions(
    alloc: Global,
    text: &str,
    member: &str,
) -> Result<Vec<Option<Position>>, Fail> {
    let root = Position {
        value: point_at(0),
        name: None,
    };
    let below = position_in(text, member)?;
    let mut wanted = Vec::new(alloc);
    wanted.push(Some(root))?;
    wanted.push(Some(below))?;
    wanted.push(None)?;
    Ok(wanted)
}

/// Returns the place that these names lead to.
fn place_of(alloc: Global, names: &[&str]) -> Result<Vec<PlaceStep>, Fail> {
    let mut place = Vec::new(alloc);
    for name in names {
        place.push(PlaceStep::Name(String::from_str(alloc, name)?))?;
    }
    Ok(place)
}

/// Returns the position of a member in a text of one line, which has the member's own text once.
fn position_in(text: &str, member: &str) -> Result<Position, Fail> {
    let (before, _) = text.split_once(member).ok_or("no such member")?;
    let (name, _) = member.split_once(':').ok_or("no member")?;
    let offset = before.len();
    Ok(Position {
        value: point_at(offset.saturating_add(name.len()).saturating_add(1)),
        name: Some(point_at(offset)),
    })
}

/// Returns the point at an offset of a text of one line, in ASCII.
fn point_at(offset: usize) -> Point {
    Point {
        offset,
        line: 1,
        column: offset.saturating_add(1),
    }
}

/// Copies a node, and counts its accesses.
///
/// # Errors
///
/// Returns [`Fail`] if an allocation fails, or if the text of the sample is not read.
pub fn copy(rt: &HostRuntime, text: &str) -> Result<Told, Fail> {
    let alloc = rt.alloc();
    let node = tree(rt, text)?;
    let wanted = tree(rt, text)?;
    let mut steps = Steps::new(rt);
    mark(alloc, Moment::CallBegins)?;
    let answer = node.copy(alloc, &mut steps);
    mark(alloc, Moment::CallEnds)?;
    Ok(told_by(answer, &wanted).if_kept(&node, &wanted))
}

/// Clones a node.
///
/// # Errors
///
/// Returns [`Fail`] if an allocation fails, or if the text of the sample is not read.
pub fn clone(rt: &HostRuntime, text: &str) -> Result<Told, Fail> {
    let alloc = rt.alloc();
    let node = tree(rt, text)?;
    let wanted = tree(rt, text)?;
    mark(alloc, Moment::CallBegins)?;
    let answer: Result<Node, AllocError> = node.clone();
    mark(alloc, Moment::CallEnds)?;
    Ok(told_by_growth(answer, &wanted).if_kept(&node, &wanted))
}
