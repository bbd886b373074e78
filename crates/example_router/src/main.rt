//! A router: prints which operation of an OpenAPI document a request is for.
//!
//! The document is read from standard input. Without arguments, each operation is a line: its method, its path and its
//! `operationId` if it has one. With a method and a path as arguments, the output describes the operation that such a
//! request is for. It is the `operationId` of the operation, or its method and its path if it has none, and a line for
//! each parameter of its path.
#![tactic(auto)]

use anyhow::{Result, bail};
use matchit::Router;
use openapiv3::{OpenAPI, Steps, from_json};
use std::env;
use std::io::Read;

/// Returns the document that standard input holds.
fn read(rt: &HostRuntime) -> Result<OpenAPI> {
    let mut bytes = Vec::new(rt.alloc());
    rt.reader().read_to_end(&mut bytes)?;
    Ok(from_json(rt.alloc(), bytes.as_slice(), &mut Steps::new(rt))?)
}

/// Prints the routes of a document.
fn print_routes(rt: &HostRuntime, document: &OpenAPI) -> Result<()> {
    for (path, method, operation) in document.operations() {
        match &operation.operation_id {
            Some(id) => println!(rt; "{method} {path} {id}")?,
            None => println!(rt; "{method} {path}")?,
        }
    }
    Ok(())
}

/// Returns the routes of a document, as `/METHOD/PATH`, to what is printed of their operations.
fn routes(rt: &HostRuntime, document: &OpenAPI) -> Result<Router<String>> {
    let mut router = Router::new(rt.alloc());
    for (path, method, operation) in document.operations() {
        let name = match &operation.operation_id {
            Some(id) => id.clone()?,
            None => format!(in rt.alloc(); "{method} {path}")?,
        };
        router.insert(format!(in rt.alloc(); "/{method}{path}")?.as_str(), name)?;
    }
    Ok(router)
}

/// Prints which operation of a document a request is for.
fn print_operation(rt: &HostRuntime, document: &OpenAPI, method: &str, path: &str) -> Result<()> {
    let router = routes(rt, document)?;
    let wanted = format!(in rt.alloc(); "/{}{path}", method.to_ascii_lowercase(rt.alloc())?)?;
    let Ok(found) = router.at(wanted.as_str()) else {
        bail!("no operation has the method {method} and the path {path}");
    };
    println!(rt; "{}", found.value)?;
    for (name, value) in found.params.iter() {
        println!(rt; "{name} = {value}")?;
    }
    Ok(())
}

/// Answers the words of the command line.
fn answer(rt: &HostRuntime, document: &OpenAPI) -> Result<()> {
    let mut words = Vec::new(rt.alloc());
    for word in env::args(rt)? {
        words.push(word)?;
    }
    match words.as_slice() {
        [_] => print_routes(rt, document),
        [_, method, path] => print_operation(rt, document, method.as_str(), path.as_str()),
        _ => bail!("usage: example_router [METHOD PATH] < DOCUMENT"),
    }
}

fn main(rt: HostRuntime) -> Result<()> {
    let document = read(&rt)?;
    answer(&rt, &document)
}
