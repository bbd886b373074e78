//! The calls of the types of OpenAPI for `tests/memory.sh`.

use crate::marks::{Moment, mark};
use crate::nodes::told_by_json_fault;
use crate::samples::Sample;
use crate::told::{Told, told_by, told_by_fault, told_by_value};
use openapi_test_support::trees::{fault_text, tree};
use openapiv3::{
    Fault, FromNode, Node, ReadError, Settle, Steps, ToNode, from_json, from_json_in_order,
};
use std::test::Fail;

/// Returns what comes of a call that is made on a sample, which is read as a `T`.
///
/// # Errors
///
/// Returns [`Fail`] if an allocation fails, or if the text of the sample is not read.
pub fn on_sample<T: ToNode + Clone + PartialEq + Drop>(
    rt: &HostRuntime,
    call: &str,
    sample: Sample,
) -> Result<Told, Fail> {
    match call {
        "from_node" => from_node::<T>(rt, sample),
        "to_node" => to_node::<T>(rt, sample),
        "settle" => settle::<T>(rt, sample),
        "from_json" | "from_json_in_order" => from_text::<T>(rt, call, sample),
        _ => Err(Fail::new("no such call")),
    }
}

/// Reads a node, and compares what is written of what was read.
fn from_node<T: ToNode + Drop>(rt: &HostRuntime, sample: Sample) -> Result<Told, Fail> {
    let alloc = rt.alloc();
    let node = tree(rt, sample.text())?;
    let before = node.clone()?;
    let mut steps = Steps::new(rt);
    mark(alloc, Moment::CallBegins)?;
    let answer = T::from_node(alloc, &node, &mut steps);
    mark(alloc, Moment::CallEnds)?;
    let written = match answer {
        Ok(value) => value.to_node(alloc),
        Err(fault) => Err(fault),
    };
    let told = told_by_tree(rt, written, sample.cleaned())?;
    Ok(told.if_kept(&node, &before))
}

/// Reads JSON text by the function of this name, and compares what is written of what was read.
fn from_text<T: ToNode + Drop>(rt: &HostRuntime, call: &str, sample: Sample) -> Result<Told, Fail> {
    let alloc = rt.alloc();
    let bytes = sample.text().as_bytes();
    let is_by_name = call == "from_json";
    let wanted = if is_by_name {
        sample.cleaned_by_name()
    } else {
        sample.cleaned()
    };
    let mut steps = Steps::new(rt);
    mark(alloc, Moment::CallBegins)?;
    let answer = if is_by_name {
        from_json::<T>(alloc, bytes, &mut steps)
    } else {
        from_json_in_order::<T>(alloc, bytes, &mut steps)
    };
    mark(alloc, Moment::CallEnds)?;
    match answer {
        Ok(value) => told_by_tree(rt, value.to_node(alloc), wanted),
        Err(ReadError::Refused(fault)) => told_by_tree(rt, Err(fault), wanted),
        Err(ReadError::Json(fault)) => Ok(told_by_json_fault(&fault)),
    }
}

/// Settles a node.
fn settle<T: ToNode + Drop>(rt: &HostRuntime, sample: Sample) -> Result<Told, Fail> {
    let alloc = rt.alloc();
    let node = tree(rt, sample.text())?;
    let before = node.clone()?;
    let mut steps = Steps::new(rt);
    mark(alloc, Moment::CallBegins)?;
    let answer = T::settle(alloc, &node, &mut steps);
    mark(alloc, Moment::CallEnds)?;
    let told = told_by_tree(rt, answer, sample.settled())?;
    Ok(told.if_kept(&node, &before))
}

/// Returns what came of a call that returns a node, or a fault that has to print as a text.
fn told_by_tree(
    rt: &HostRuntime,
    answer: Result<Node, Fault>,
    wanted: Result<&str, &str>,
) -> Result<Told, Fail> {
    match (answer, wanted) {
        (Ok(node), Ok(text)) => Ok(told_by_value(&node, &tree(rt, text)?)),
        (Ok(_), Err(_)) => Ok(Told::Differs("the tree was not refused")),
        (Err(fault), Ok(_)) => Ok(told_by_fault(&fault)),
        (Err(fault), Err(text)) => {
            if fault_text(rt, &fault)?.as_str() == text {
                Ok(Told::Answered)
            } else {
                Ok(told_by_fault(&fault))
            }
        }
    }
}

/// Writes what was read from a node.
fn to_node<T: ToNode + Clone + PartialEq + Drop>(
    rt: &HostRuntime,
    sample: Sample,
) -> Result<Told, Fail> {
    let mut steps = Steps::new(rt);
    let value = T::from_node(rt.alloc(), &tree(rt, sample.text())?, &mut steps)?;
    write(rt, &value, sample)
}

/// Writes a value.
fn write<T: ToNode + Clone + PartialEq + Drop>(
    rt: &HostRuntime,
    value: &T,
    sample: Sample,
) -> Result<Told, Fail> {
    let alloc = rt.alloc();
    let before = value.clone()?;
    mark(alloc, Moment::CallBegins)?;
    let answer = value.to_node(alloc);
    mark(alloc, Moment::CallEnds)?;
    let told = told_by_tree(rt, answer, sample.cleaned())?;
    Ok(told.if_kept(value, &before))
}
