//! Cases on JSON text: what is read from it, what is written again, and the positions of its values.

use openapiv3::{
    JsonFault, Node, PlaceStep, Point, Pointer, Position, Steps, json_from_node,
    json_from_node_in_order, node_from_json, node_from_json_in_order, node_with_zeros_in_order,
    position_of, positions_of, pretty_from_node, pretty_from_node_in_order,
};
use std::test::Fail;

/// Returns the answer of a line of text.
///
/// # Errors
///
/// Returns [`Fail`] if an allocation fails.
pub fn told(rt: &HostRuntime, text: &str) -> Result<String, Fail> {
    Ok(format!(in rt.alloc(); "= {text}\n")?)
}

/// Returns the answer of a fault.
fn refused(rt: &HostRuntime, fault: &JsonFault) -> Result<String, Fail> {
    Ok(format!(in rt.alloc(); "! {fault}\n")?)
}

/// Returns a node as compact JSON text, with the members of each object in their order.
///
/// # Errors
///
/// Returns [`Fail`] if an allocation fails.
pub fn ordered_text(rt: &HostRuntime, node: &Node) -> Result<String, Fail> {
    let mut steps = Steps::new(rt);
    Ok(json_from_node_in_order(rt.alloc(), node, &mut steps)?)
}

/// Returns a node with a line for each item and each member.
fn pretty_text(rt: &HostRuntime, node: &Node) -> Result<String, Fail> {
    let mut steps = Steps::new(rt);
    Ok(pretty_from_node_in_order(rt.alloc(), node, &mut steps)?)
}

/// Returns whether the pretty text of a node by name is read again as the text by name.
fn is_read_again(rt: &HostRuntime, node: &Node, text: &str) -> Result<bool, Fail> {
    let mut steps = Steps::new(rt);
    let pretty = pretty_from_node(rt.alloc(), node, &mut steps)?;
    let Ok(again) = node_from_json_in_order(rt.alloc(), pretty.as_bytes()) else {
        return Ok(false);
    };
    let again = ordered_text(rt, &again)?;
    Ok(again.as_str() == text)
}

/// Reads JSON text as a node, and writes it again, by name. The pretty text by name has to be read as the same, in that
/// order.
///
/// # Errors
///
/// Returns [`Fail`] if an allocation fails.
pub fn by_name(rt: &HostRuntime, text: &str) -> Result<String, Fail> {
    match node_from_json(rt.alloc(), text.as_bytes()) {
        Ok(node) => {
            let mut steps = Steps::new(rt);
            let text = json_from_node(rt.alloc(), &node, &mut steps)?;
            if !is_read_again(rt, &node, text.as_str())? {
                return Ok(String::from_str(rt.alloc(), "its pretty text is read otherwise\n")?);
            }
            told(rt, text.as_str())
        }
        Err(fault) => refused(rt, &fault),
    }
}

/// Reads JSON text as a node in order, and writes it again. A text that is refused has to be refused by name for the
/// same reason. Otherwise the pretty text of the node has to be read as the same, in order and by name.
///
/// # Errors
///
/// Returns [`Fail`] if an allocation fails.
pub fn in_order(rt: &HostRuntime, text: &str) -> Result<String, Fail> {
    let named = by_name(rt, text)?;
    match node_from_json_in_order(rt.alloc(), text.as_bytes()) {
        Ok(node) => {
            let answer = told(rt, ordered_text(rt, &node)?.as_str())?;
            let pretty = pretty_text(rt, &node)?;
            if again(rt, pretty.as_str())?.as_str() != answer.as_str() {
                return Ok(String::from_str(rt.alloc(), "its pretty text is read otherwise\n")?);
            }
            if by_name(rt, pretty.as_str())?.as_str() != named.as_str() {
                return Ok(String::from_str(rt.alloc(), "by name another tree is read\n")?);
            }
            Ok(answer)
        }
        Err(fault) => {
            let answer = refused(rt, &fault)?;
            if named.as_str() != answer.as_str() {
                return Ok(format!(in rt.alloc(); "by name {}", named.as_str())?);
            }
            Ok(answer)
        }
    }
}

/// Returns what is written in order of the node that is read in order of a text.
fn again(rt: &HostRuntime, text: &str) -> Result<String, Fail> {
    match node_from_json_in_order(rt.alloc(), text.as_bytes()) {
        Ok(node) => told(rt, ordered_text(rt, &node)?.as_str()),
        Err(fault) => refused(rt, &fault),
    }
}

/// Reads JSON text as a node, and writes it again, with a line for each item and each member.
///
/// # Errors
///
/// Returns [`Fail`] if an allocation fails.
pub fn pretty(rt: &HostRuntime, text: &str) -> Result<String, Fail> {
    match node_from_json_in_order(rt.alloc(), text.as_bytes()) {
        Ok(node) => {
            let mut answer = String::new(rt.alloc());
            for line in pretty_text(rt, &node)?.as_str().lines() {
                answer.push_str(told(rt, line)?.as_str())?;
            }
            Ok(answer)
        }
        Err(fault) => refused(rt, &fault),
    }
}

/// Returns the value of a text with 0 in place of each number that no node holds, and a line for each of these numbers. If there is
/// none, [`node_from_json_in_order`] has to read the same.
///
/// # Errors
///
/// Returns [`Fail`] if an allocation fails.
pub fn with_zeros(rt: &HostRuntime, text: &str) -> Result<String, Fail> {
    match node_with_zeros_in_order(rt.alloc(), text.as_bytes()) {
        Ok(read) => {
            let mut answer = told(rt, ordered_text(rt, &read.node)?.as_str())?;
            if read.numbers.is_empty() && again(rt, text)?.as_str() != answer.as_str() {
                return Ok(String::from_str(rt.alloc(), "in order another tree is read\n")?);
            }
            for number in &read.numbers {
                let place = Pointer(number.place.as_slice());
                let line = format!(in rt.alloc(); "= {} at #{place}\n", number.text.as_str())?;
                answer.push_str(line.as_str())?;
            }
            Ok(answer)
        }
        Err(fault) => refused(rt, &fault),
    }
}

/// Returns where the value at a place begins in a text. [`positions_of`] has to return the same of this place alone.
///
/// # Errors
///
/// Returns [`Fail`] if an allocation fails.
pub fn position(rt: &HostRuntime, request: &str) -> Result<String, Fail> {
    let (place, text) = request.split_once(' ').unwrap_or((request, ""));
    let text = spelled_out(rt, text)?;
    let place = place_of(rt, place)?;
    let found = position_of(rt.alloc(), text.as_str().as_bytes(), place.as_slice())?;
    let all = positions_of(rt.alloc(), text.as_str().as_bytes(), &[place.as_slice()])?;
    if all.as_slice() != [found].as_slice() {
        return Ok(String::from_str(rt.alloc(), "in a list of places it is another\n")?);
    }
    position_text(rt, found)
}

/// Returns where the values at several places, with a comma between two of them, begin in a text: a line for each place.
///
/// # Errors
///
/// Returns [`Fail`] if an allocation fails.
pub fn positions(rt: &HostRuntime, request: &str) -> Result<String, Fail> {
    let (pointers, text) = request.split_once(' ').unwrap_or((request, ""));
    let text = spelled_out(rt, text)?;
    let mut places = Vec::new(rt.alloc());
    for pointer in pointers.split(',') {
        places.push(place_of(rt, pointer)?)?;
    }
    let mut lent = Vec::new(rt.alloc());
    for place in &places {
        lent.push(place.as_slice())?;
    }
    let mut answer = String::new(rt.alloc());
    for position in positions_of(rt.alloc(), text.as_str().as_bytes(), lent.as_slice())? {
        answer.push_str(position_text(rt, position)?.as_str())?;
    }
    Ok(answer)
}

/// Returns a text with a line feed for each `↵`, a carriage return for each `␍` and a tab for each `⇥`.
///
/// # Errors
///
/// Returns [`Fail`] if an allocation fails.
pub fn spelled_out(rt: &HostRuntime, text: &str) -> Result<String, Fail> {
    let text = text.replace(rt.alloc(), "↵", "\n")?;
    let text = text.as_str().replace(rt.alloc(), "␍", "\r")?;
    Ok(text.as_str().replace(rt.alloc(), "⇥", "\t")?)
}

/// Returns the line of a position, or of none.
fn position_text(rt: &HostRuntime, position: Option<Position>) -> Result<String, Fail> {
    match position {
        Some(position) => {
            let value = point_text(rt, &position.value)?;
            match position.name {
                Some(name) => {
                    let name = point_text(rt, &name)?;
                    Ok(format!(in rt.alloc(); "= {value}, name {name}\n")?)
                }
                None => told(rt, value.as_str()),
            }
        }
        None => Ok(String::from_str(rt.alloc(), "! none\n")?),
    }
}

/// Returns a point as text: its line and its column, and how many bytes come before it.
fn point_text(rt: &HostRuntime, point: &Point) -> Result<String, Fail> {
    let Point {
        offset,
        line,
        column,
    } = *point;
    Ok(format!(in rt.alloc(); "{line}:{column} at {offset}")?)
}

/// Returns the location of a JSON Pointer whose tokens have no `~`, in which `[0]` is the index 0. So `#` is the root.
fn place_of(rt: &HostRuntime, pointer: &str) -> Result<Vec<PlaceStep>, Fail> {
    let mut place = Vec::new(rt.alloc());
    for token in pointer.split('/').skip(1) {
        let index = token
            .strip_prefix("[")
            .and_then(|rest| rest.strip_suffix("]"));
        place.push(match index {
            Some(index) => PlaceStep::Index(index.parse::<usize>()?),
            None => PlaceStep::Name(String::from_str(rt.alloc(), token)?),
        })?;
    }
    Ok(place)
}
