//! What the iterators over path items and paths give.

use openapi_test_support::trees::{check_same, tree};
use openapiv3::{FromNode, Node, Operation, OrderedMap, PathItem, Paths, ReferenceOr, Steps};
use std::alloc::{AllocError, Global};
use std::test::Fail;

/// Adds a method and the identifier of its operation to a text.
fn note(text: &mut String, method: &str, operation: &Operation) -> Result<(), AllocError> {
    text.push_str(method)?;
    text.push_str(operation.operation_id.as_deref().unwrap_or(""))?;
    text.push_str(" ")
}

/// Returns the methods of the iterator that borrows, each with the identifier of its operation.
fn lent(alloc: Global, path_item: &PathItem) -> Result<String, AllocError> {
    let mut text = String::new(alloc);
    for (method, operation) in path_item.iter() {
        note(&mut text, method, operation)?;
    }
    Ok(text)
}

/// Returns the methods of the iterator that moves, each with the identifier of its operation.
fn given(alloc: Global, path_item: PathItem) -> Result<String, AllocError> {
    let mut text = String::new(alloc);
    for (method, operation) in path_item {
        note(&mut text, method, &operation)?;
    }
    Ok(text)
}

/// Checks that the iterator that borrows returns these methods, and these identifiers.
fn check_lent(rt: &HostRuntime, path_item: &PathItem, wanted: &str) -> Result<(), Fail> {
    check_same(rt, lent(rt.alloc(), path_item)?.as_str(), wanted)
}

/// Checks that the iterator that moves returns these methods, and these identifiers.
fn check_given(rt: &HostRuntime, path_item: PathItem, wanted: &str) -> Result<(), Fail> {
    check_same(rt, given(rt.alloc(), path_item)?.as_str(), wanted)
}

#[test]
fn present_operations_are_given_in_order(rt: HostRuntime) -> Result<(), Fail> {
    let rows = [
        ("{}", ""),
        (
            r#"{"trace":{"responses":{}},"wat":7,"get":{"responses":{}}}"#,
            "get trace ",
        ),
        (
            r#"{"patch":{"operationId":"8","responses":{}},"head":{"operationId":"7","responses":{}},"put":{"operationId":"6","responses":{}},"trace":{"operationId":"5","responses":{}},"options":{"operationId":"4","responses":{}},"post":{"operationId":"3","responses":{}},"get":{"operationId":"2","responses":{}},"delete":{"operationId":"1","responses":{}}}"#,
            "get2 put6 post3 delete1 options4 head7 patch8 trace5 ",
        ),
    ];
    let mut steps = Steps::new(&rt);
    for (text, wanted) in rows {
        let node = tree(&rt, text)?;
        check_lent(
            &rt,
            &PathItem::from_node(rt.alloc(), &node, &mut steps)?,
            wanted,
        )?;
        check_given(
            &rt,
            PathItem::from_node(rt.alloc(), &node, &mut steps)?,
            wanted,
        )?;
    }
    Ok(())
}

/// Returns a path item with three operations.
fn with_three(alloc: Global) -> PathItem {
    PathItem {
        summary: None,
        description: None,
        get: Some(Operation::new(alloc)),
        put: None,
        post: Some(Operation::new(alloc)),
        delete: Some(Operation::new(alloc)),
        options: None,
        head: None,
        patch: None,
        trace: None,
        servers: Vec::new(alloc),
        parameters: Vec::new(alloc),
        extensions: OrderedMap::new(alloc),
    }
}

#[test]
fn operations_that_were_built_are_given_in_order(rt: HostRuntime) -> Result<(), Fail> {
    check_lent(&rt, &with_three(rt.alloc()), "get post delete ")?;
    check_given(&rt, with_three(rt.alloc()), "get post delete ")
}

/// Returns a path item with one operation.
fn with_head(alloc: Global) -> PathItem {
    let mut path_item = PathItem::new(alloc);
    path_item.head = Some(Operation::new(alloc));
    path_item
}

/// Checks that the iterator that borrows returns one operation, and stays at its end.
fn check_lends_one(path_item: &PathItem) -> Result<(), Fail> {
    let mut operations = path_item.iter();
    if operations.next().is_none() || operations.next().is_some() || operations.next().is_some() {
        return Err(Fail::from("not one operation"));
    }
    Ok(())
}

/// Checks that the iterator that moves returns one operation, and stays at its end.
fn check_gives_one(path_item: PathItem) -> Result<(), Fail> {
    let mut operations = path_item.into_iter();
    if operations.next().is_none() || operations.next().is_some() || operations.next().is_some() {
        return Err(Fail::from("not one operation"));
    }
    Ok(())
}

#[test]
fn iterators_stay_at_their_end(rt: HostRuntime) -> Result<(), Fail> {
    check_lends_one(&with_head(rt.alloc()))?;
    check_gives_one(with_head(rt.alloc()))
}

/// Adds the name of a path to a text, with a mark if it has a reference.
fn note_path(
    text: &mut String,
    name: &str,
    value: &ReferenceOr<PathItem>,
) -> Result<(), AllocError> {
    text.push_str(name)?;
    text.push_str(if matches!(value, ReferenceOr::Item(_)) {
        " "
    } else {
        "! "
    })
}

/// Returns the names of both iterators over paths, first those of the one that borrows.
fn names_of(alloc: Global, paths: Paths) -> Result<String, AllocError> {
    let mut names = String::new(alloc);
    for (name, value) in paths.iter() {
        note_path(&mut names, name, value)?;
    }
    for (name, value) in paths {
        note_path(&mut names, name.as_str(), &value)?;
    }
    Ok(names)
}

/// Returns the names that the iterators over the paths of a node return.
fn names_in(alloc: Global, node: &Node, steps: &mut Steps) -> Result<String, Fail> {
    match Paths::from_node(alloc, node, steps) {
        Ok(paths) => Ok(names_of(alloc, paths)?),
        Err(fault) => Err(Fail::from(fault)),
    }
}

#[test]
fn paths_are_given_in_order(rt: HostRuntime) -> Result<(), Fail> {
    let text = r##"{"a":7,"x-":null,"/b":{},"/r":{"$ref":"#/x"},"/a":{}}"##;
    let mut steps = Steps::new(&rt);
    let names = names_in(rt.alloc(), &tree(&rt, text)?, &mut steps)?;
    check_same(&rt, names.as_str(), "/b /r! /a /b /r! /a ")
}
