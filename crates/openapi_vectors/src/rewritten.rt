//! Documents that a visitor changes.
use crate::read::read_value;
use openapi_visit_mut::{VisitorMut, visit_mut};
use openapiv3::{OpenAPI, Operation, PathItem};
use std::alloc::{AllocError, Global};
use std::test::Fail;

/// Why a visit ends early.
#[derive(Drop)]
enum Stopped {
    Memory,
    Removed,
}

impl From<AllocError> for Stopped {
    fn from(_error: AllocError) -> Stopped {
        Stopped::Memory
    }
}

/// Renames a schema wherever a reference leads to it, and deprecates all operations.
#[derive(Drop)]
struct Renaming {
    alloc: Global,
}

impl VisitorMut for Renaming {
    type Error = Stopped;

    fn operation(&mut self, _location: &str, operation: &mut Operation) -> Result<(), Stopped> {
        operation.deprecated = true;
        Ok(())
    }

    fn reference(&mut self, _location: &str, reference: &mut String) -> Result<(), Stopped> {
        if reference.as_str() == "#/components/schemas/Pet" {
            *reference = String::from_str(self.alloc, "#/components/schemas/Animal")?;
        }
        Ok(())
    }
}

/// Removes all operations under `get`, and refuses to meet one at another location than this one.
#[derive(Drop)]
struct Removing {
    last: &'static str,
}

impl VisitorMut for Removing {
    type Error = Stopped;

    fn path_item(&mut self, _location: &str, path_item: &mut PathItem) -> Result<(), Stopped> {
        path_item.get = None;
        Ok(())
    }

    fn operation(&mut self, location: &str, operation: &mut Operation) -> Result<(), Stopped> {
        operation.deprecated = true;
        if location == self.last {
            Ok(())
        } else {
            Err(Stopped::Removed)
        }
    }
}

/// Checks that a document is the one of a text.
fn check_document(rt: &HostRuntime, document: &OpenAPI, text: &str) -> Result<(), Fail> {
    let wanted: OpenAPI = read_value(rt, text)?;
    if *document == wanted {
        Ok(())
    } else {
        Err(Fail::from("another document"))
    }
}

/// Checks that a visit ends with an error or without one.
fn check_visit<V: VisitorMut<Error = Stopped>>(
    rt: &HostRuntime,
    visitor: &mut V,
    document: &mut OpenAPI,
    is_ok: bool,
) -> Result<(), Fail> {
    if visit_mut(rt.alloc(), document, visitor).is_ok() == is_ok {
        Ok(())
    } else {
        Err(Fail::from("the visit ends otherwise"))
    }
}

/// Checks that a document is another one after a visit, and that the visit ends with an error or without one.
fn check_visited<V: VisitorMut<Error = Stopped>>(
    rt: &HostRuntime,
    visitor: &mut V,
    given: &str,
    wanted: &str,
    is_ok: bool,
) -> Result<(), Fail> {
    let mut document: OpenAPI = read_value(rt, given)?;
    match check_visit(rt, visitor, &mut document, is_ok) {
        Ok(()) => check_document(rt, &document, wanted),
        Err(fail) => Err(fail),
    }
}

#[test]
fn references_and_operations_are_changed(rt: HostRuntime) -> Result<(), Fail> {
    let given =
        r##"{"openapi":"3.0.3","info":{"title":"t","version":"1"},"paths":{"/a":{"get":{"responses":{"200":{"description":"d","content":{"text/plain":{"schema":{"$ref":"#/components/schemas/Pet"}}}},"2XX":{"$ref":"#/components/responses/Pet"}}}}},"components":{"schemas":{"Pets":{"type":"array","items":{"$ref":"#/components/schemas/Pet"}},"All":{"allOf":[{"type":"string"},{"not":{"$ref":"#/components/schemas/Pet"}}]}},"callbacks":{"c":{"u":{"post":{"responses":{}}}}}}}"##;
    let wanted =
        r##"{"openapi":"3.0.3","info":{"title":"t","version":"1"},"paths":{"/a":{"get":{"deprecated":true,"responses":{"200":{"description":"d","content":{"text/plain":{"schema":{"$ref":"#/components/schemas/Animal"}}}},"2XX":{"$ref":"#/components/responses/Pet"}}}}},"components":{"schemas":{"Pets":{"type":"array","items":{"$ref":"#/components/schemas/Animal"}},"All":{"allOf":[{"type":"string"},{"not":{"$ref":"#/components/schemas/Animal"}}]}},"callbacks":{"c":{"u":{"post":{"deprecated":true,"responses":{}}}}}}}"##;
    check_visited(
        &rt,
        &mut Renaming { alloc: rt.alloc() },
        given,
        wanted,
        true,
    )
}

#[test]
fn what_a_visitor_removes_is_not_visited(rt: HostRuntime) -> Result<(), Fail> {
    let given =
        r##"{"openapi":"3.0.3","info":{"title":"t","version":"1"},"paths":{"/a":{"get":{"responses":{}},"put":{"responses":{}}}}}"##;
    let wanted =
        r##"{"openapi":"3.0.3","info":{"title":"t","version":"1"},"paths":{"/a":{"put":{"deprecated":true,"responses":{}}}}}"##;
    check_visited(
        &rt,
        &mut Removing {
            last: "/paths/~1a/put",
        },
        given,
        wanted,
        true,
    )
}

#[test]
fn an_error_ends_a_visit_and_changes_stay(rt: HostRuntime) -> Result<(), Fail> {
    let given =
        r##"{"openapi":"3.0.3","info":{"title":"t","version":"1"},"paths":{"/a":{"put":{"responses":{}},"post":{"responses":{}},"patch":{"responses":{}}}}}"##;
    let wanted =
        r##"{"openapi":"3.0.3","info":{"title":"t","version":"1"},"paths":{"/a":{"put":{"deprecated":true,"responses":{}},"post":{"deprecated":true,"responses":{}},"patch":{"responses":{}}}}}"##;
    check_visited(
        &rt,
        &mut Removing {
            last: "/paths/~1a/put",
        },
        given,
        wanted,
        false,
    )
}
