//! Prints all references of an OpenAPI document: a line each, with its location as a JSON Pointer and what it refers
//! to.
//!
//! The document is read from standard input. Objects in examples or extensions are no references, even if they have a
//! `$ref`.
#![tactic(auto)]

use anyhow::Result;
use openapiv3::{OpenAPI, Steps, Visitor, from_json, visit};
use std::io::Read;

/// Prints the references that it visits.
#[derive(Drop)]
struct Printer<'a> {
    rt: &'a HostRuntime,
}

impl Visitor for Printer<'_> {
    type Error = anyhow::Error;

    fn reference(&mut self, location: &str, reference: &str) -> Result<()> {
        println!(self.rt; "#{location} {reference}")?;
        Ok(())
    }
}

fn main(rt: HostRuntime) -> Result<()> {
    let mut bytes = Vec::new(rt.alloc());
    rt.reader().read_to_end(&mut bytes)?;
    let document: OpenAPI = from_json(rt.alloc(), bytes.as_slice(), &mut Steps::new(&rt))?;
    visit(rt.alloc(), &document, &mut Printer { rt: &rt })
}
