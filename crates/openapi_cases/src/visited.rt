//! Cases on what is visited of a document.

use crate::texts::told;
use openapi_visit_mut::{VisitorMut, visit_mut};
use openapiv3::{
    Callback, Components, Encoding, Example, FromNode, Header, Link, MediaType, Node, OpenAPI,
    Operation, Parameter, PathItem, RequestBody, Response, Schema, SecurityScheme, Steps, Visitor,
    visit,
};
use std::alloc::Global;
use std::test::Fail;

/// The lines of what was visited: each object by its kind and its location, and each reference by its text too.
#[derive(Drop)]
struct Lines {
    alloc: Global,
    text: String,
}

impl Lines {
    fn add(&mut self, what: &str, location: &str) -> Result<(), Fail> {
        let line = format!(in self.alloc; "= {what} #{location}\n")?;
        Ok(self.text.push_str(line.as_str())?)
    }
}

impl Visitor for Lines {
    type Error = Fail;

    fn components(&mut self, location: &str, _it: &Components) -> Result<(), Fail> {
        self.add("components", location)
    }

    fn path_item(&mut self, location: &str, _it: &PathItem) -> Result<(), Fail> {
        self.add("path item", location)
    }

    fn operation(&mut self, location: &str, _it: &Operation) -> Result<(), Fail> {
        self.add("operation", location)
    }

    fn parameter(&mut self, location: &str, _it: &Parameter) -> Result<(), Fail> {
        self.add("parameter", location)
    }

    fn request_body(&mut self, location: &str, _it: &RequestBody) -> Result<(), Fail> {
        self.add("request body", location)
    }

    fn response(&mut self, location: &str, _it: &Response) -> Result<(), Fail> {
        self.add("response", location)
    }

    fn header(&mut self, location: &str, _it: &Header) -> Result<(), Fail> {
        self.add("header", location)
    }

    fn media_type(&mut self, location: &str, _it: &MediaType) -> Result<(), Fail> {
        self.add("media type", location)
    }

    fn encoding(&mut self, location: &str, _it: &Encoding) -> Result<(), Fail> {
        self.add("encoding", location)
    }

    fn callback(&mut self, location: &str, _it: &Callback) -> Result<(), Fail> {
        self.add("callback", location)
    }

    fn schema(&mut self, location: &str, _it: &Schema) -> Result<(), Fail> {
        self.add("schema", location)
    }

    fn example(&mut self, location: &str, _it: &Example) -> Result<(), Fail> {
        self.add("example", location)
    }

    fn link(&mut self, location: &str, _it: &Link) -> Result<(), Fail> {
        self.add("link", location)
    }

    fn security_scheme(&mut self, location: &str, _it: &SecurityScheme) -> Result<(), Fail> {
        self.add("security scheme", location)
    }

    fn reference(&mut self, location: &str, reference: &str) -> Result<(), Fail> {
        let line = format!(in self.alloc; "= reference #{location} to {reference}\n")?;
        Ok(self.text.push_str(line.as_str())?)
    }
}

impl VisitorMut for Lines {
    type Error = Fail;

    fn components(&mut self, location: &str, _it: &mut Components) -> Result<(), Fail> {
        self.add("components", location)
    }

    fn path_item(&mut self, location: &str, _it: &mut PathItem) -> Result<(), Fail> {
        self.add("path item", location)
    }

    fn operation(&mut self, location: &str, _it: &mut Operation) -> Result<(), Fail> {
        self.add("operation", location)
    }

    fn parameter(&mut self, location: &str, _it: &mut Parameter) -> Result<(), Fail> {
        self.add("parameter", location)
    }

    fn request_body(&mut self, location: &str, _it: &mut RequestBody) -> Result<(), Fail> {
        self.add("request body", location)
    }

    fn response(&mut self, location: &str, _it: &mut Response) -> Result<(), Fail> {
        self.add("response", location)
    }

    fn header(&mut self, location: &str, _it: &mut Header) -> Result<(), Fail> {
        self.add("header", location)
    }

    fn media_type(&mut self, location: &str, _it: &mut MediaType) -> Result<(), Fail> {
        self.add("media type", location)
    }

    fn encoding(&mut self, location: &str, _it: &mut Encoding) -> Result<(), Fail> {
        self.add("encoding", location)
    }

    fn callback(&mut self, location: &str, _it: &mut Callback) -> Result<(), Fail> {
        self.add("callback", location)
    }

    fn schema(&mut self, location: &str, _it: &mut Schema) -> Result<(), Fail> {
        self.add("schema", location)
    }

    fn example(&mut self, location: &str, _it: &mut Example) -> Result<(), Fail> {
        self.add("example", location)
    }

    fn link(&mut self, location: &str, _it: &mut Link) -> Result<(), Fail> {
        self.add("link", location)
    }

    fn security_scheme(&mut self, location: &str, _it: &mut SecurityScheme) -> Result<(), Fail> {
        self.add("security scheme", location)
    }

    fn reference(&mut self, location: &str, reference: &mut String) -> Result<(), Fail> {
        let line = format!(in self.alloc; "= reference #{location} to {reference}\n")?;
        Ok(self.text.push_str(line.as_str())?)
    }
}

/// Returns no lines.
fn no_lines(alloc: Global) -> Lines {
    Lines {
        alloc,
        text: String::new(alloc),
    }
}

/// Returns a line for each object and each reference that is visited of a document, in the order of the visits. `visit`
/// and `visit_mut` visit the same.
///
/// # Errors
///
/// Returns [`Fail`] if an allocation fails, if the value is no document, or if `visit_mut` visits otherwise.
pub fn visited(rt: &HostRuntime, node: &Node) -> Result<String, Fail> {
    let mut document = OpenAPI::from_node(rt.alloc(), node, &mut Steps::new(rt))?;
    lines_of(rt, &mut document)
}

/// Returns the lines of a document that is read.
fn lines_of(rt: &HostRuntime, document: &mut OpenAPI) -> Result<String, Fail> {
    let (mut lines, mut lines_mut) = (no_lines(rt.alloc()), no_lines(rt.alloc()));
    visit(rt.alloc(), document, &mut lines)?;
    visit_mut(rt.alloc(), document, &mut lines_mut)?;
    if lines.text != lines_mut.text {
        return Err(Fail::from("visit_mut visits otherwise"));
    }
    if lines.text.is_empty() {
        return told(rt, "none");
    }
    Ok(lines.text)
}
