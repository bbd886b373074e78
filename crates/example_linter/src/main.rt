//! A linter: checks three rules for each operation of an OpenAPI document, which OpenAPI does not require.
//!
//! It has an `operationId` that no other operation has. It has a tag, and the document declares each of its tags. It
//! has a response for a request that fails. The document is read from standard input. Each finding is a line: the
//! location as a JSON Pointer, and what is missing there. The exit status is 0 if nothing was found, and 1 otherwise.
#![tactic(auto)]

use anyhow::Result;
use openapiv3::{OpenAPI, Operation, OrderedMap, ReferenceToken, StatusCode, Steps, from_json};
use std::io::Read;
use std::process::ExitCode;

/// Returns whether an operation has an identifier that none of those before it has. `places` holds the locations of
/// these.
fn check_id(
    rt: &HostRuntime,
    place: &str,
    operation: &Operation,
    places: &mut OrderedMap<String>,
) -> Result<bool> {
    let Some(id) = operation.operation_id.as_deref() else {
        println!(rt; "{place}: no operationId")?;
        return Ok(false);
    };
    if let Some(first) = places.get(id) {
        println!(rt; "{place}/operationId: `{id}` is that of {first}")?;
        return Ok(false);
    }
    places.insert(
        String::from_str(rt.alloc(), id)?,
        String::from_str(rt.alloc(), place)?,
    )?;
    Ok(true)
}

/// Returns whether an operation has tags, and the document declares all of them.
fn check_tags(
    rt: &HostRuntime,
    place: &str,
    operation: &Operation,
    document: &OpenAPI,
) -> Result<bool> {
    if operation.tags.is_empty() {
        println!(rt; "{place}: no tag")?;
        return Ok(false);
    }
    let mut well = true;
    for (index, tag) in operation.tags.iter().enumerate() {
        if !document.tags.iter().any(|it| it.name == *tag) {
            println!(rt; "{place}/tags/{index}: `{tag}` is not declared")?;
            well = false;
        }
    }
    Ok(well)
}

/// Returns whether an operation has a response for a request that fails.
fn check_failures(rt: &HostRuntime, place: &str, operation: &Operation) -> Result<bool> {
    let responses = &operation.responses;
    let is_failure = |code: &StatusCode| match code {
        StatusCode::Code(code) => *code >= 400,
        StatusCode::Range(digit) => *digit >= 4,
    };
    if responses.default.is_some() || responses.responses.keys().any(is_failure) {
        return Ok(true);
    }
    println!(rt; "{place}/responses: none for a request that fails")?;
    Ok(false)
}

/// Prints what is found in a document, and gives the exit status.
fn check(rt: &HostRuntime, document: &OpenAPI) -> Result<ExitCode> {
    let mut places = OrderedMap::new(rt.alloc());
    let mut well = true;
    for (path, method, operation) in document.operations() {
        let place = format!(in rt.alloc(); "#/paths/{}/{method}", ReferenceToken(path))?;
        let place = place.as_str();
        well = check_id(rt, place, operation, &mut places)? && well;
        well = check_tags(rt, place, operation, document)? && well;
        well = check_failures(rt, place, operation)? && well;
    }
    Ok(if well {
        ExitCode::SUCCESS
    } else {
        ExitCode::FAILURE
    })
}

fn main(rt: HostRuntime) -> Result<ExitCode> {
    let mut bytes = Vec::new(rt.alloc());
    rt.reader().read_to_end(&mut bytes)?;
    let document: OpenAPI = from_json(rt.alloc(), bytes.as_slice(), &mut Steps::new(&rt))?;
    check(&rt, &document)
}
