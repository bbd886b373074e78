//! Cases and calls on documents that are read from JSON text and written as JSON text.

use crate::marks::{Moment, mark};
use crate::samples::Sample;
use crate::texts::spelled_out;
use crate::told::{Told, told_by_fault, told_by_value};
use openapi_test_support::trees::tree;
use openapiv3::{
    Fault, FromNode, LocatedError, OpenAPI, Position, ReadError, Responses, Steps, from_json,
    from_json_in_order, position_of, to_json, to_json_in_order, to_json_pretty,
};
use std::alloc::Global;
use std::test::Fail;

/// Returns what a function writes of a document that is read from a text, a line for each line; or the error with its position.
///
/// # Errors
///
/// Returns [`Fail`] if an allocation fails.
pub fn rewritten(rt: &HostRuntime, function: &str, text: &str) -> Result<String, Fail> {
    let text = spelled_out(rt, text)?;
    let mut steps = Steps::new(rt);
    let written = match read(rt.alloc(), function, text.as_str().as_bytes(), &mut steps) {
        Ok(document) => write(rt.alloc(), function, &document, &mut steps)?,
        Err(error) => {
            let located = error.locate(rt.alloc(), text.as_str().as_bytes())?;
            return Ok(format!(in rt.alloc(); "! {located}\n")?);
        }
    };
    let mut answer = String::new(rt.alloc());
    for line in written.as_str().lines() {
        answer.push_str(format!(in rt.alloc(); "= {line}\n")?.as_str())?;
    }
    Ok(answer)
}

/// Reads a document in the order in which the function writes it.
fn read(
    alloc: Global,
    function: &str,
    bytes: &[u8],
    steps: &mut Steps,
) -> Result<OpenAPI, ReadError> {
    if function == "to_json" {
        from_json(alloc, bytes, steps)
    } else {
        from_json_in_order(alloc, bytes, steps)
    }
}

/// Writes a document by the function of this name.
fn write(
    alloc: Global,
    function: &str,
    document: &OpenAPI,
    steps: &mut Steps,
) -> Result<String, Fault> {
    match function {
        "to_json" => to_json(alloc, document, steps),
        "to_json_in_order" => to_json_in_order(alloc, document, steps),
        _ => to_json_pretty(alloc, document, steps),
    }
}

/// Writes the document of a sample as JSON text for `tests/memory.sh`.
///
/// # Errors
///
/// Returns [`Fail`] if an allocation fails, or if the text of the sample is not read.
pub fn written(rt: &HostRuntime, function: &str, sample: Sample) -> Result<Told, Fail> {
    let alloc = rt.alloc();
    let mut steps = Steps::new(rt);
    let document = OpenAPI::from_node(alloc, &tree(rt, sample.text())?, &mut steps)?;
    let before = document.clone()?;
    let wanted = tree(rt, sample.text())?;
    mark(alloc, Moment::CallBegins)?;
    let answer = write(alloc, function, &document, &mut steps);
    mark(alloc, Moment::CallEnds)?;
    let told = match answer {
        Ok(text) => told_by_value(&tree(rt, text.as_str())?, &wanted),
        Err(fault) => told_by_fault(&fault),
    };
    Ok(told.if_kept(&document, &before))
}

/// Locates the error of the refused sample for `tests/memory.sh`.
///
/// # Errors
///
/// Returns [`Fail`] if an allocation fails, or if the sample is not refused.
pub fn locate(rt: &HostRuntime, sample: Sample) -> Result<Told, Fail> {
    let (alloc, bytes) = (rt.alloc(), sample.text().as_bytes());
    let mut steps = Steps::new(rt);
    let Err(ReadError::Refused(fault)) = from_json::<Responses>(alloc, bytes, &mut steps) else {
        return Err(Fail::new("the sample is not refused"));
    };
    let wanted = position_of(alloc, bytes, fault.place.as_slice())?;
    let error = ReadError::Refused(fault);
    mark(alloc, Moment::CallBegins)?;
    let answer = error.locate(alloc, bytes);
    mark(alloc, Moment::CallEnds)?;
    Ok(match answer {
        Ok(located) => told_by_position(&located, &wanted),
        Err(_) => Told::OutOfMemory,
    })
}

/// Returns what came of a call that located an error.
fn told_by_position(located: &LocatedError, wanted: &Option<Position>) -> Told {
    told_by_value(&located.position, wanted)
}
