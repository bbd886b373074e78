//! Nodes, whole numbers and faults.
ghost use Rattle.std.specs.Prelude.{◌≡◌, true, IfOk};
ghost use Rattle.openapi_node.specs.Named.{well_named};

use openapi_node::{
    Cause, Expected, Fault, Node, OrderedMap, PlaceStep, Pointer, ReferenceToken, Steps, View,
    Whole, copy_shown,
};
use serde_json::Value;
use std::alloc::{AllocError, Global};
use std::cmp::Ordering;
use std::error::Error;
use std::hash::{DefaultHasher, Hash, Hasher};
use std::process::Abort;
use std::test::Fail;

/// Returns the node of a JSON text. Its contract shows how a caller proves that no object in it has a name twice.
pub(crate) fn read(alloc: Global, text: &str) -> Result<Node, Fail>
    ensures { IfOk result (λ node. well_named node ≡ true) }
{
    let value = Value::from_str(alloc, text)?;
    let node = Node::from_value(alloc, &value)?;
    node.names_differ();
    Ok(node)
}

fn refusal(alloc: Global, text: &str) -> Result<String, Fail> {
    let value = Value::from_str(alloc, text)?;
    match Node::from_value(alloc, &value) {
        Ok(_) => Err(Fail::from("it is read")),
        Err(fault) => Ok(format!(in alloc; "{fault}")?),
    }
}

fn written(alloc: Global, node: &Node, steps: &mut Steps) -> Result<String, Fail> {
    let value = node.to_value(alloc, steps)?;
    Ok(value.to_string(alloc)?)
}

fn debug(alloc: Global, node: &Node) -> Result<String, AllocError> {
    format!(in alloc; "{node:?}")
}

/// Returns an object of whole numbers, in this order.
pub(crate) fn object(alloc: Global, numbers: &[(&str, u64)]) -> Result<Node, AllocError> {
    let mut members = OrderedMap::new(alloc);
    for (name, number) in numbers {
        members.insert(
            String::from_str(alloc, *name)?,
            Node::whole(Whole::from(*number)),
        )?;
    }
    Ok(Node::object(members))
}

fn hash_of(whole: Whole) -> u64 {
    let mut state = DefaultHasher::new();
    whole.hash(&mut state);
    state.finish()
}

#[test]
fn whole_numbers(rt: HostRuntime) -> Result<(), Fail> {
    for (number, signed, unsigned) in [
        (-9223372036854775808, Some(-9223372036854775808), None),
        (0, Some(0), Some(0)),
        (18446744073709551615, None, Some(18446744073709551615)),
    ] {
        let whole = Whole::new(number).ok_or("in the range")?;
        assert_eq!(rt; whole.value(), number);
        assert_eq!(rt;
            (whole.as_i64(), whole.as_u64()),
            (signed, unsigned),
            "at {number}"
        );
    }
    assert!(rt; Whole::new(-9223372036854775809).is_none());
    assert!(rt; Whole::new(18446744073709551616).is_none());
    let low = Whole::from(-2i64);
    let printed = format!(in rt.alloc(); "{low} {low:?}")?;
    assert_eq!(rt; printed.as_str(), "-2 Whole(-2)");
    let high = Whole::from(1u64);
    assert_eq!(rt; low.cmp(&high), Ordering::Less);
    assert_eq!(rt; high.partial_cmp(&low), Some(Ordering::Greater));
    assert!(rt; low != high && Whole::from(1i64) == high);
    assert_eq!(rt; hash_of(Whole::from(1i64)), hash_of(high));
    Ok(())
}

/// Checks that a cause has a number, and prints as a text before its place.
fn check_cause(
    rt: &impl Abort,
    alloc: Global,
    cause: Cause,
    number: u8,
    printed: &str,
) -> Result<(), AllocError> {
    assert_eq!(rt; cause.number(), number);
    let shown = format!(in alloc; "{}", Fault::new(alloc, cause))?;
    assert_eq!(rt; shown.strip_suffix(" at #"), Some(printed));
    Ok(())
}

#[test]
fn causes(rt: HostRuntime) -> Result<(), Fail> {
    let alloc = rt.alloc();
    let either = Cause::MissingEither("schema", "content");
    check_cause(&rt, alloc, Cause::Missing("url"), 1, "missing field `url`")?;
    check_cause(&rt, alloc, either, 2, "missing field `schema` or `content`")?;
    check_cause(&rt, alloc, Cause::NotAllowed, 4, "invalid value")?;
    check_cause(&rt, alloc, Cause::UnknownVariant, 5, "unknown variant")?;
    check_cause(&rt, alloc, Cause::NameNotWritable, 6, "name not writable")?;
    check_cause(&rt, alloc, Cause::NotWhole, 7, "number not whole")?;
    check_cause(&rt, alloc, Cause::Memory, 8, "out of memory")?;
    for (expected, word) in [
        (Expected::Text, "text"),
        (Expected::Flag, "flag"),
        (Expected::Whole, "whole number"),
        (Expected::List, "list"),
        (Expected::Object, "object"),
        (Expected::TextOrNull, "text or null"),
        (Expected::WholeOrNull, "whole number or null"),
        (Expected::FlagOrNull, "flag or null"),
        (Expected::FlagOrObject, "flag or object"),
        (Expected::TextOrWhole, "text or whole number"),
    ] {
        let printed = format!(in alloc; "invalid type, expected {word}")?;
        check_cause(&rt, alloc, Cause::WrongKind(expected), 3, printed.as_str())?;
    }
    Ok(())
}

#[test]
fn places(rt: HostRuntime) -> Result<(), Fail> {
    let alloc = rt.alloc();
    let fault = Fault::new(alloc, Cause::NotWhole)
        .at_index(alloc, 0)
        .at_name(alloc, "x-a~/b");
    let shown = format!(in alloc; "{fault} {fault:?}")?;
    assert_eq!(rt;
        shown.as_str(),
        "number not whole at #/x-a~0~1b/0 Fault { place: [Name(\"x-a~/b\"), Index(0)], cause: NotWhole }"
    );
    Ok(())
}

/// Returns what any error prints.
fn said<E: Error>(alloc: Global, error: &E) -> Result<String, AllocError> {
    format!(in alloc; "{error}")
}

#[test]
fn faults_are_errors(rt: HostRuntime) -> Result<(), Fail> {
    assert!(rt; Fault::memory(rt.alloc()) == Fault::new(rt.alloc(), Cause::Memory));
    let fault = Fault::new(rt.alloc(), Cause::Missing("url")).at_name(rt.alloc(), "docs");
    let text = said(rt.alloc(), &fault)?;
    assert_eq!(rt; text.as_str(), "missing field `url` at #/docs");
    Ok(())
}

// The pointers of RFC 6901, section 5, to members of one object.
#[test]
fn names_print_as_reference_tokens(rt: HostRuntime) -> Result<(), Fail> {
    let rows = [
        ("foo", "foo"),
        ("", ""),
        ("a/b", "a~1b"),
        ("c%d", "c%d"),
        ("e^f", "e^f"),
        ("g|h", "g|h"),
        ("i\\j", "i\\j"),
        ("k\"l", "k\"l"),
        (" ", " "),
        ("m~n", "m~0n"),
        // (section 4: `~1` is made a `/` before `~0` is made a `~`, so that `~01` becomes `~1`)
        ("~1", "~01"),
    ];
    for (name, token) in rows {
        let printed = format!(in rt.alloc(); "{}", ReferenceToken(name))?;
        assert_eq!(rt; printed.as_str(), token);
    }
    Ok(())
}

#[test]
fn places_print_as_pointers(rt: HostRuntime) -> Result<(), Fail> {
    let alloc = rt.alloc();
    let root = Fault::new(alloc, Cause::NotAllowed);
    assert_eq!(rt; format!(in alloc; "{}", root.pointer())?.as_str(), "");
    let fault = root
        .at_index(alloc, 0)
        .at_name(alloc, "m~n")
        .at_name(alloc, "a/b");
    assert_eq!(rt;
        format!(in alloc; "{}", fault.pointer())?.as_str(),
        "/a~1b/m~0n/0"
    );
    let Some((_, inside)) = fault.place.as_slice().split_first() else {
        return Err(Fail::from("the place is empty"));
    };
    assert_eq!(rt;
        format!(in alloc; "{}", Pointer(inside))?.as_str(),
        "/m~0n/0"
    );
    Ok(())
}

#[test]
fn values_there_and_back(rt: HostRuntime) -> Result<(), Fail> {
    let rows = [
        ("null", "null"),
        ("[true,false,\"q\\\"\"]", "[true,false,\"q\\\"\"]"),
        ("18446744073709551615", "18446744073709551615"),
        ("-9223372036854775808", "-9223372036854775808"),
        ("{\"b\":{},\"a\":[ 1 , -1 ]}", "{\"a\":[1,-1],\"b\":{}}"),
        ("{\"a\":1,\"b\":2,\"a\":3}", "{\"a\":3,\"b\":2}"),
    ];
    for (given, back) in rows {
        let node = read(rt.alloc(), given)?;
        let text = written(rt.alloc(), &node, &mut Steps::new(&rt))?;
        assert_eq!(rt; text.as_str(), back);
    }
    Ok(())
}

#[test]
fn long_objects_go_by_name(rt: HostRuntime) -> Result<(), Fail> {
    let alloc = rt.alloc();
    let mut steps = Steps::new(&rt);
    let mut members = OrderedMap::new(alloc);
    for name in ["i", "a", "h", "b", "g", "c", "f", "d", "e"] {
        members.insert(
            String::from_str(alloc, name)?,
            Node::whole(Whole::from(0u64)),
        )?;
    }
    let by_name = "{\"a\":0,\"b\":0,\"c\":0,\"d\":0,\"e\":0,\"f\":0,\"g\":0,\"h\":0,\"i\":0}";
    let node = Node::object(members);
    assert_eq!(rt; written(alloc, &node, &mut steps)?.as_str(), by_name);
    Ok(())
}

/// Checks that a node prints as a text for programmers.
fn check_debug(rt: &impl Abort, alloc: Global, node: &Node, wanted: &str) -> Result<(), Fail> {
    assert_eq!(rt; debug(alloc, node)?.as_str(), wanted);
    Ok(())
}

#[test]
fn values_become_nodes(rt: HostRuntime) -> Result<(), Fail> {
    let alloc = rt.alloc();
    check_debug(&rt, alloc, &Node::from(true), "Bool(true)")?;
    check_debug(&rt, alloc, &Node::from(-1i32), "Number(-1)")?;
    check_debug(&rt, alloc, &Node::from(-2i64), "Number(-2)")?;
    check_debug(&rt, alloc, &Node::from(3u32), "Number(3)")?;
    check_debug(
        &rt,
        alloc,
        &Node::from(u64::MAX),
        "Number(18446744073709551615)",
    )?;
    check_debug(&rt, alloc, &Node::from(4usize), "Number(4)")?;
    check_debug(&rt, alloc, &Node::from(Whole::from(5u64)), "Number(5)")?;
    let text = Node::try_from_str(alloc, "t")?;
    check_debug(&rt, alloc, &text, "String(\"t\")")?;
    let text = Node::from(String::from_str(alloc, "owned")?);
    let list = Node::from(vec![in alloc; text, Node::from(false)]?);
    check_debug(&rt, alloc, &list, "Array [String(\"owned\"), Bool(false)]")?;
    let mut members = OrderedMap::new(alloc);
    members.insert(String::from_str(alloc, "a")?, list)?;
    let wanted = "Object {\"a\": Array [String(\"owned\"), Bool(false)]}";
    check_debug(&rt, alloc, &Node::from(members), wanted)
}

/// Returns the text under a name of an object.
fn text_under<'a>(rt: &HostRuntime, node: &'a Node, name: &str) -> Option<&'a str> {
    let View::Object(members) = node.view(rt) else {
        return None;
    };
    match members.get(name)?.view(rt) {
        View::Text(text) => Some(text),
        _ => None,
    }
}

#[test]
fn programs_view_nodes_without_a_count(rt: HostRuntime) -> Result<(), Fail> {
    let node = read(rt.alloc(), "{\"a\":\"first\",\"b\":[]}")?;
    assert_eq!(rt; text_under(&rt, &node, "a"), Some("first"));
    assert_eq!(rt; text_under(&rt, &node, "b"), None);
    assert_eq!(rt; text_under(&rt, &node, "c"), None);
    Ok(())
}

#[test]
fn copies(rt: HostRuntime) -> Result<(), Fail> {
    let alloc = rt.alloc();
    let mut steps = Steps::new(&rt);
    let wanted = "Object {\"z\": Number(1), \"a\": Number(2)}";
    let node = object(alloc, &[("z", 1), ("a", 2)])?;
    check_debug(&rt, alloc, &node.clone()?, wanted)?;
    check_debug(&rt, alloc, &node.copy(alloc, &mut steps)?, wanted)?;
    let shown = copy_shown(alloc, &node.open(&mut steps), &mut steps)?;
    check_debug(&rt, alloc, &shown, wanted)
}

#[test]
fn long_texts_are_copied(rt: HostRuntime) -> Result<(), Fail> {
    let alloc = rt.alloc();
    let mut steps = Steps::new(&rt);
    let text = "Everything about pets, and more than forty bytes of it.";
    let node = Node::text(String::from_str(alloc, text)?);
    let copy = node.copy(alloc, &mut steps)?;
    match copy.open(&mut steps) {
        View::Text(copied) => assert_eq!(rt; copied, text),
        _ => return Err(Fail::from("it is no text")),
    }
    Ok(())
}

#[test]
fn numbers_that_are_not_whole(rt: HostRuntime) -> Result<(), Fail> {
    let rows = [
        ("-0", "number not whole at #"),
        ("1e2", "number not whole at #"),
        ("1.0", "number not whole at #"),
        ("18446744073709551616", "number not whole at #"),
        ("-9223372036854775809", "number not whole at #"),
        ("{\"name\":\"t\",\"wat\":1.5}", "number not whole at #/wat"),
        (
            "{\"name\":\"t\",\"x-a~/b\":[0.5]}",
            "number not whole at #/x-a~0~1b/0",
        ),
        ("[0,[[],[1,2,0.5]]]", "number not whole at #/1/1/2"),
    ];
    for (given, printed) in rows {
        let text = refusal(rt.alloc(), given)?;
        assert_eq!(rt; text.as_str(), printed);
    }
    assert!(rt; Value::from_slice(rt.alloc(), b"1e309").is_err());
    Ok(())
}

#[test]
fn debug_texts(rt: HostRuntime) -> Result<(), Fail> {
    let rows = [
        ("[null,true,-1]", "Array [Null, Bool(true), Number(-1)]"),
        ("\"q\\\"\"", "String(\"q\\\"\")"),
        (
            "{\"b\":[],\"a\":{\"\":1}}",
            "Object {\"a\": Object {\"\": Number(1)}, \"b\": Array []}",
        ),
    ];
    for (given, printed) in rows {
        let node = read(rt.alloc(), given)?;
        let text = debug(rt.alloc(), &node)?;
        assert_eq!(rt; text.as_str(), printed);
    }
    Ok(())
}

#[test]
fn equal_by_members(rt: HostRuntime) -> Result<(), Fail> {
    let alloc = rt.alloc();
    let node = object(alloc, &[("b", 1), ("a", 2)])?;
    for turned in [[("a", 2), ("b", 1)], [("b", 1), ("a", 2)]] {
        let other = object(alloc, &turned)?;
        assert!(rt; node == other && other == node);
    }
    for changed in [
        [("a", 1), ("b", 2)],
        [("b", 1), ("c", 2)],
        [("b", 1), ("b", 1)],
    ] {
        let other = object(alloc, &changed)?;
        assert!(rt; node != other && other != node);
    }
    Ok(())
}

#[test]
fn equal_by_kind_and_value(rt: HostRuntime) -> Result<(), Fail> {
    let texts = [
        "null",
        "true",
        "false",
        "1",
        "2",
        "\"1\"",
        "[]",
        "[1]",
        "[1,2]",
        "[2,1]",
        "{}",
        "{\"1\":1}",
    ];
    for (i, one) in texts.iter().enumerate() {
        let node = read(rt.alloc(), *one)?;
        for (j, two) in texts.iter().enumerate() {
            let other = read(rt.alloc(), *two)?;
            assert_eq!(rt; node == other, i == j, "{one}, {two}");
        }
    }
    Ok(())
}
