//! The answer to a case: a line `= ` and what came, or `! ` and the fault that refuses it, each with its end.

use crate::case::Case;
use crate::empty::written_empty;
use crate::findings::{agree_with, all_dropped, all_faults, all_references};
use crate::functions::by_functions;
use crate::objects::rewritten;
use crate::row::Row;
use crate::sorts::{operations, sort};
use crate::table::{expected_of, full_object, other_objects};
use crate::texts::{by_name, in_order, ordered_text, position, positions, pretty, with_zeros};
use crate::types::of_type;
use crate::visited::visited;
use openapi_test_support::trees::tree;
use openapiv3::{Fault, Node, Settle, Steps, ToNode, json_from_node, node_from_json};
use std::test::Fail;

/// The question of a case about a type.
#[derive(Clone, Copy)]
pub enum Ask<'a> {
    /// What a node is cleaned to. A clone of what was read has to equal it, and the settled node has to stay as it is.
    Clean(&'a Node),
    /// What a node settles to.
    Settle(&'a Node),
    /// Whether what is read of what was written is what was read at first.
    Again(&'a Node),
    /// Whether the type follows a table.
    Table(&'a [Row<'a>]),
    /// What a node is cleaned to, as JSON text with members in the order of their names.
    Line(&'a Node),
}

/// Returns the answer to a case.
///
/// # Errors
///
/// Returns [`Fail`] if an allocation fails.
pub fn answer(rt: &HostRuntime, case: &Case<'_>) -> Result<String, Fail> {
    let (command, rest) = case.request.split_once(' ').unwrap_or((case.request, ""));
    match command {
        "json" => by_name(rt, rest),
        "order" => in_order(rt, rest),
        "pretty" => pretty(rt, rest),
        "zeros" => with_zeros(rt, rest),
        "position" => position(rt, rest),
        "positions" => positions(rt, rest),
        "to_json" | "to_json_in_order" | "to_json_pretty" => rewritten(rt, command, rest),
        "sort" => sort(rt, &tree(rt, rest)?),
        "operations" => operations(rt, &tree(rt, rest)?),
        "new" => told_if_known(rt, written_empty(rt, rest)),
        "table" => of_type(rt, rest, Ask::Table(case.rows.as_slice())),
        _ => match rest.split_once(' ') {
            Some((name, text)) => typed(rt, command, name, &tree(rt, text)?),
            None => Ok(String::from_str(rt.alloc(), "! no type and no JSON text\n")?),
        },
    }
}

/// Returns the answer to a command that has a type and a node.
fn typed(rt: &HostRuntime, command: &str, name: &str, node: &Node) -> Result<String, Fail> {
    match command {
        "clean" => clean(rt, name, node),
        "settle" => of_type(rt, name, Ask::Settle(node)),
        "again" => of_type(rt, name, Ask::Again(node)),
        "faults" => all_faults(rt, name, node),
        "dropped" => all_dropped(rt, name, node),
        "references" => all_references(rt, name, node),
        "visited" if name == "OpenAPI" => visited(rt, node),
        _ => Ok(String::from_str(rt.alloc(), "! no such command\n")?),
    }
}

/// Returns what a node is cleaned to by the type, and checks that functions of its own agree if it has any. The faults
/// of the node have to agree, too.
fn clean(rt: &HostRuntime, name: &str, node: &Node) -> Result<String, Fail> {
    let answer = of_type(rt, name, Ask::Clean(node))?;
    if !agree_with(rt, name, node, answer.as_str())? {
        return Ok(format!(in rt.alloc(); "{}its faults differ\n", answer.as_str())?);
    }
    match by_functions(rt, name, node) {
        Some(written) => {
            let other = told(rt, written)?;
            if other.as_str() == answer.as_str() {
                Ok(answer)
            } else {
                Ok(format!(in rt.alloc(); "{}another way {}", answer.as_str(), other.as_str())?)
            }
        }
        None => Ok(answer),
    }
}

/// Returns the answer for a node or a fault.
///
/// # Errors
///
/// Returns [`Fail`] if an allocation fails.
pub fn told(rt: &HostRuntime, answer: Result<Node, Fault>) -> Result<String, Fail> {
    match answer {
        Ok(node) => Ok(format!(in rt.alloc(); "= {}\n", ordered_text(rt, &node)?.as_str())?),
        Err(fault) => Ok(format!(in rt.alloc(); "! {fault}\n")?),
    }
}

/// Returns the answer for a node or a fault, if the command has one for the type.
fn told_if_known(rt: &HostRuntime, answer: Option<Result<Node, Fault>>) -> Result<String, Fail> {
    match answer {
        Some(answer) => told(rt, answer),
        None => Ok(String::from_str(rt.alloc(), "! no such type for this command\n")?),
    }
}

/// Returns the answer to a line of standard input: a type, a tab and a JSON text. If the line is a command and a type,
/// a tab and a JSON text, the answer ends with an empty line.
///
/// # Errors
///
/// Returns [`Fail`] if an allocation fails.
pub fn answer_line(rt: &HostRuntime, line: &str) -> Result<String, Fail> {
    let Some((request, text)) = line.split_once('\t') else {
        return Ok(String::from_str(rt.alloc(), "! no tab\n")?);
    };
    let node = match node_from_json(rt.alloc(), text.as_bytes()) {
        Ok(node) => node,
        Err(fault) => return Ok(format!(in rt.alloc(); "! {fault}\n")?),
    };
    match request.split_once(' ') {
        Some((command, name)) => {
            let answer = typed(rt, command, name, &node)?;
            Ok(format!(in rt.alloc(); "{}\n", answer.as_str())?)
        }
        None => of_type(rt, request, Ask::Line(&node)),
    }
}

/// Returns what a type answers.
///
/// # Errors
///
/// Returns [`Fail`] if an allocation fails.
pub fn answer_as<T: ToNode + Clone + PartialEq + Drop>(
    rt: &HostRuntime,
    ask: Ask<'_>,
) -> Result<String, Fail> {
    match ask {
        Ask::Clean(node) => cleaned::<T>(rt, node),
        Ask::Settle(node) => settled::<T>(rt, node),
        Ask::Again(node) => again::<T>(rt, node),
        Ask::Table(rows) => follows::<T>(rt, rows),
        Ask::Line(node) => line::<T>(rt, node),
    }
}

/// Returns what a node is cleaned to, after checks of a clone and of the settled node.
fn cleaned<T: ToNode + Clone + PartialEq + Drop>(
    rt: &HostRuntime,
    node: &Node,
) -> Result<String, Fail> {
    let mut steps = Steps::new(rt);
    match T::from_node(rt.alloc(), node, &mut steps) {
        Ok(value) => {
            if !is_its_clone(&value)? {
                return Ok(String::from_str(rt.alloc(), "its clone is another value\n")?);
            }
            if !stays_settled::<T>(rt, node)? {
                return Ok(String::from_str(rt.alloc(), "settling once more changes it\n")?);
            }
            told(rt, value.to_node(rt.alloc()))
        }
        Err(fault) => told(rt, Err(fault)),
    }
}

/// Returns whether a value equals its clone.
fn is_its_clone<T: Clone + PartialEq + Drop>(value: &T) -> Result<bool, Fail> {
    Ok(value.clone()? == *value)
}

/// Returns whether what a node settles to settles to itself.
fn stays_settled<T: ToNode + Drop>(rt: &HostRuntime, node: &Node) -> Result<bool, Fail> {
    let mut steps = Steps::new(rt);
    let once = T::settle(rt.alloc(), node, &mut steps)?;
    let twice = T::settle(rt.alloc(), &once, &mut steps)?;
    Ok(ordered_text(rt, &once)?.as_str() == ordered_text(rt, &twice)?.as_str())
}

/// Returns what a node settles to.
fn settled<T: ToNode + Drop>(rt: &HostRuntime, node: &Node) -> Result<String, Fail> {
    let mut steps = Steps::new(rt);
    told(rt, T::settle(rt.alloc(), node, &mut steps))
}

/// Returns whether what is read from what was written is what was read at first.
fn again<T: ToNode + PartialEq + Drop>(rt: &HostRuntime, node: &Node) -> Result<String, Fail> {
    let mut steps = Steps::new(rt);
    let first = T::from_node(rt.alloc(), node, &mut steps)?;
    let second = T::from_node(rt.alloc(), &first.to_node(rt.alloc())?, &mut steps)?;
    let same = if second == first {
        "= same\n"
    } else {
        "= another\n"
    };
    Ok(String::from_str(rt.alloc(), same)?)
}

/// Returns an empty text if the type follows a table, and else the first object with another result.
fn follows<T: ToNode + Clone + PartialEq + Drop>(
    rt: &HostRuntime,
    rows: &[Row<'_>],
) -> Result<String, Fail> {
    for it in expected_of(rt.alloc(), rows)?.iter() {
        let found = cleaned::<T>(rt, &tree(rt, it.given.as_str())?)?;
        if found.as_str() != it.wanted.as_str() {
            let (given, wanted) = (it.given.as_str(), it.wanted.as_str());
            return Ok(format!(in rt.alloc(); "of {given}\n{}and not {wanted}", found.as_str())?);
        }
    }
    let full = tree(rt, full_object(rt.alloc(), rows)?.as_str())?;
    for other in other_objects(rt.alloc(), rows)?.iter() {
        if are_same::<T>(rt, &tree(rt, other.as_str())?, &full)? {
            return Ok(format!(in rt.alloc(); "the same is read of {}\n", other.as_str())?);
        }
    }
    Ok(String::new(rt.alloc()))
}

/// Returns whether two nodes are read as the same value.
fn are_same<T: ToNode + PartialEq + Drop>(
    rt: &HostRuntime,
    one: &Node,
    other: &Node,
) -> Result<bool, Fail> {
    let mut steps = Steps::new(rt);
    let one = T::from_node(rt.alloc(), one, &mut steps)?;
    let other = T::from_node(rt.alloc(), other, &mut steps)?;
    Ok(one == other)
}

/// Returns what a node is cleaned to as JSON text, or `! ` and the fault.
fn line<T: ToNode + Drop>(rt: &HostRuntime, node: &Node) -> Result<String, Fail> {
    let mut steps = Steps::new(rt);
    let written = match T::from_node(rt.alloc(), node, &mut steps) {
        Ok(value) => value.to_node(rt.alloc()),
        Err(fault) => Err(fault),
    };
    match written {
        Ok(node) => {
            let mut text = json_from_node(rt.alloc(), &node, &mut steps)?;
            text.push('\n')?;
            Ok(text)
        }
        Err(fault) => Ok(format!(in rt.alloc(); "! {fault}\n")?),
    }
}
