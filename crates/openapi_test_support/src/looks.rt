//! Accesses of nodes, and what their views show.
use crate::nodes::{object, read};
use openapi_node::{Node, Steps, View, find_member};
use std::alloc::Global;
use std::test::Fail;

#[test]
fn looks_at_an_object(rt: HostRuntime) -> Result<(), Fail> {
    let mut steps = Steps::new(&rt);
    let node = object(rt.alloc(), &[("z", 7), ("", 8)])?;
    let View::Object(members) = node.open(&mut steps) else {
        return Err(Fail::from("no object"));
    };
    assert!(rt; find_member(members, "a").is_none());
    let Some(seven) = find_member(members, "z") else {
        return Err(Fail::from("no member"));
    };
    let View::Whole(seven) = seven.open(&mut steps) else {
        return Err(Fail::from("no number"));
    };
    assert_eq!(rt; seven.value(), 7);
    Ok(())
}

#[test]
fn looks_at_a_list(rt: HostRuntime) -> Result<(), Fail> {
    let mut steps = Steps::new(&rt);
    let mut items = Vec::new(rt.alloc());
    items.push(Node::null())?;
    items.push(Node::flag(true))?;
    let text = String::from_str(rt.alloc(), "q")?;
    items.push(Node::text(text))?;
    let node = Node::list(items);
    let View::List([first, second, third]) = node.open(&mut steps) else {
        return Err(Fail::from("no list of three"));
    };
    assert!(rt; matches!(first.open(&mut steps), View::Null));
    assert!(rt; matches!(second.open(&mut steps), View::Flag(true)));
    assert!(rt; matches!(third.open(&mut steps), View::Text("q")));
    Ok(())
}

/// Returns the words of the kinds of value that a view claims to show, with what is shown.
fn shown_as(alloc: Global, view: &View<'_>) -> Result<String, Fail> {
    let mut text = String::new(alloc);
    if view.is_null() {
        write!(text, "null ")?;
    }
    if let Some(flag) = view.as_flag() {
        write!(text, "flag {flag} ")?;
    }
    if let Some(whole) = view.as_whole() {
        write!(text, "whole {whole} ")?;
    }
    if let Some(words) = view.as_text() {
        write!(text, "text {words} ")?;
    }
    if let Some(items) = view.as_list() {
        let len = items.len();
        write!(text, "list of {len} ")?;
    }
    if let Some(members) = view.as_object() {
        write!(text, "object")?;
        for name in members.keys() {
            write!(text, " {name}")?;
        }
    }
    Ok(text)
}

#[test]
fn views_are_of_one_kind(rt: HostRuntime) -> Result<(), Fail> {
    let mut steps = Steps::new(&rt);
    let rows = [
        ("null", "null "),
        ("true", "flag true "),
        ("false", "flag false "),
        ("-7", "whole -7 "),
        ("\"\"", "text  "),
        ("\"pets\"", "text pets "),
        ("[]", "list of 0 "),
        ("[null,1]", "list of 2 "),
        ("{}", "object"),
        ("{\"b\":null,\"a\":1}", "object a b"),
    ];
    for (given, told) in rows {
        let node = read(rt.alloc(), given)?;
        let text = shown_as(rt.alloc(), &node.open(&mut steps))?;
        assert_eq!(rt; text.as_str(), told);
    }
    Ok(())
}

#[test]
fn texts_outlive_their_views(rt: HostRuntime) -> Result<(), Fail> {
    let mut steps = Steps::new(&rt);
    let node = read(rt.alloc(), "\"pets\"")?;
    let text = node.open(&mut steps).as_text();
    assert_eq!(rt; text, Some("pets"));
    Ok(())
}
