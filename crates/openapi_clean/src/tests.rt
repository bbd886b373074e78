//! The commands: what is written, and what is reported, for worked inputs.
use crate::command::Command;
use crate::run::run;
use openapi_node::Steps;
use openapi_text::RunFault;
use std::test::Fail;

/// A tag with an unknown name, and what it is cleaned to.
pub(crate) const TAG: &[u8] = b"{\"name\":\"a\",\"wat\":1,\"x-q\":[]}";

pub(crate) const CLEAN_TAG: &[u8] = b"{\"name\":\"a\",\"x-q\":[]}\n";

/// What a run wrote, and its failure: its status and its text.
#[derive(Drop)]
pub(crate) struct Ran {
    pub(crate) written: Vec<u8>,
    pub(crate) fault: Option<(u8, String)>,
}

pub(crate) fn ran_on(rt: &HostRuntime, command: Command, input: &[u8]) -> Result<Ran, Fail> {
    let mut reader = input;
    let mut written = Vec::new(rt.alloc());
    let mut steps = Steps::new(rt);
    let fault = match run(rt.alloc(), command, &mut reader, &mut written, &mut steps) {
        Ok(()) => None,
        Err(fault) => Some((fault.status(), format!(in rt.alloc(); "{fault}")?)),
    };
    Ok(Ran { written, fault })
}

#[test]
fn tags_are_cleaned(rt: HostRuntime) -> Result<(), Fail> {
    let rows: [(&[u8], &[u8]); 3] = [
        (TAG, CLEAN_TAG),
        // If a name is repeated, the last member counts. Members are in the order of their names.
        (
            b"{\"x-b\":1,\"name\":\"t\",\"name\":\"u\",\"x-a\":2}",
            b"{\"name\":\"u\",\"x-a\":2,\"x-b\":1}\n",
        ),
        (
            b"{\"name\":\"t\",\"x-\":18446744073709551615,\"x-m\":-9223372036854775808}",
            b"{\"name\":\"t\",\"x-\":18446744073709551615,\"x-m\":-9223372036854775808}\n",
        ),
    ];
    for (input, line) in rows {
        let ran = ran_on(&rt, Command::Tag, input)?;
        assert_eq!(rt; ran.written.as_slice(), line);
        assert!(rt; ran.fault.is_none());
    }
    Ok(())
}

// Returns the result of a run as one text: the exit status, what was written, and the report of a failure.
pub(crate) fn report_of(rt: &HostRuntime, command: Command, input: &[u8]) -> Result<String, Fail> {
    let alloc = rt.alloc();
    let mut reader = input;
    let mut written = Vec::new(alloc);
    let mut steps = Steps::new(rt);
    let outcome = run(alloc, command, &mut reader, &mut written, &mut steps);
    let line = String::from_utf8_lossy(alloc, written.as_slice())?;
    match outcome {
        Ok(()) => Ok(format!(in alloc; "0: {line}")?),
        Err(fault) => {
            let status = fault.status();
            Ok(format!(in alloc; "{status}: {line}{fault}")?)
        }
    }
}

#[test]
fn inputs_are_refused(rt: HostRuntime) -> Result<(), Fail> {
    let rows: [(&[u8], &str); 6] = [
        (b"{\"description\":\"d\"}", "1: missing field `name` at #"),
        (b"[]", "1: invalid type, expected object at #"),
        // The whole text is read as a node first, and a node holds only whole numbers.
        (
            b"{\"name\":\"t\",\"x-a~/b\":[0.5]}",
            "1: number not whole at #/x-a~0~1b/0",
        ),
        (b"", "2: not JSON"),
        (b"{\"name\":\"t\"}}", "2: not JSON"),
        (b"{\"name\":\"\xff\"}", "2: not JSON"),
    ];
    for (input, report) in rows {
        let told = report_of(&rt, Command::Tag, input)?;
        assert_eq!(rt; told.as_str(), report);
    }
    Ok(())
}

#[test]
fn schemas_are_cleaned(rt: HostRuntime) -> Result<(), Fail> {
    let rows: [(&[u8], &str); 3] = [
        (
            b"{\"properties\":{\"b\":{\"type\":\"string\"},\"a\":{\"$ref\":\"#/x\",\"y\":1}},\"type\":\"object\"}",
            "0: {\"properties\":{\"a\":{\"$ref\":\"#/x\"},\"b\":{\"type\":\"string\"}},\"type\":\"object\"}\n",
        ),
        (
            b"{\"properties\":{\"a~/b\":{\"items\":[]}}}",
            "1: invalid type, expected object at #/properties/a~0~1b/items",
        ),
        (b"{\"type\":", "2: not JSON"),
    ];
    for (input, report) in rows {
        let told = report_of(&rt, Command::Schema, input)?;
        assert_eq!(rt; told.as_str(), report);
    }
    Ok(())
}

// Members come in the order of their names, since JSON is read as `serde_json` reads it. So `content` is before
// `schema`, and decides.
#[test]
fn documents_are_cleaned(rt: HostRuntime) -> Result<(), Fail> {
    let rows: [(&[u8], &str); 3] = [
        (
            b"{\"openapi\":\"3.0.3\",\"info\":{\"title\":\"t\",\"version\":\"1\"},\"paths\":{},\"components\":{\"parameters\":{\"P\":{\"in\":\"query\",\"name\":\"q\",\"schema\":5,\"content\":{}}}}}",
            "0: {\"components\":{\"parameters\":{\"P\":{\"content\":{},\"in\":\"query\",\"name\":\"q\",\"style\":\"form\"}}},\"info\":{\"title\":\"t\",\"version\":\"1\"},\"openapi\":\"3.0.3\",\"paths\":{}}\n",
        ),
        (
            b"{\"openapi\":\"3.0.3\",\"info\":{\"title\":\"t\",\"version\":\"1\"},\"paths\":{\"/a\":{\"get\":{\"responses\":{},\"callbacks\":{\"c\":{\"u\":{\"put\":{}}}}}}}}",
            "1: missing field `responses` at #/paths/~1a/get/callbacks/c/u/put",
        ),
        (b"{\"openapi\":", "2: not JSON"),
    ];
    for (input, report) in rows {
        let told = report_of(&rt, Command::Document, input)?;
        assert_eq!(rt; told.as_str(), report);
    }
    Ok(())
}

/// A document with a schema that is of another sort once it is written.
const UNSETTLED: &[u8] =
    b"{\"openapi\":\"3.0.3\",\"info\":{\"title\":\"t\",\"version\":\"1\"},\"paths\":{},\"components\":{\"schemas\":{\"S\":{\"type\":\"integer\",\"exclusiveMinimum\":false,\"required\":[]}}}}";

#[test]
fn documents_are_settled(rt: HostRuntime) -> Result<(), Fail> {
    let cleaned = report_of(&rt, Command::Document, UNSETTLED)?;
    assert_eq!(rt;
        cleaned.as_str(),
        "0: {\"components\":{\"schemas\":{\"S\":{\"exclusiveMinimum\":false,\"type\":\"integer\"}}},\"info\":{\"title\":\"t\",\"version\":\"1\"},\"openapi\":\"3.0.3\",\"paths\":{}}\n"
    );
    let settled = report_of(&rt, Command::Settle, UNSETTLED)?;
    assert_eq!(rt;
        settled.as_str(),
        "0: {\"components\":{\"schemas\":{\"S\":{\"type\":\"integer\"}}},\"info\":{\"title\":\"t\",\"version\":\"1\"},\"openapi\":\"3.0.3\",\"paths\":{}}\n"
    );
    let refused = report_of(&rt, Command::Settle, b"{\"openapi\":5}")?;
    assert_eq!(rt;
        refused.as_str(),
        "1: invalid type, expected text at #/openapi"
    );
    Ok(())
}

#[test]
fn operations_are_listed(rt: HostRuntime) -> Result<(), Fail> {
    let rows: [(&[u8], &str); 4] = [
        (
            b"{\"openapi\":\"3.0.3\",\"info\":{\"title\":\"t\",\"version\":\"1\"},\"paths\":{\"/b\":{\"trace\":{\"responses\":{}}},\"/r\":{\"$ref\":\"#/x\"},\"/a\":{\"get\":{\"responses\":{}},\"delete\":{\"responses\":{}},\"post\":{\"responses\":{}}},\"c\":7}}",
            "0: get /a\npost /a\ndelete /a\ntrace /b\n",
        ),
        (
            b"{\"openapi\":\"3.0.3\",\"info\":{\"title\":\"t\",\"version\":\"1\"},\"paths\":{}}",
            "0: ",
        ),
        (b"{}", "1: missing field `openapi` at #"),
        (b"", "2: not JSON"),
    ];
    for (input, report) in rows {
        let told = report_of(&rt, Command::Operations, input)?;
        assert_eq!(rt; told.as_str(), report);
    }
    Ok(())
}

#[test]
fn failures_are_told(rt: HostRuntime) -> Result<(), Fail> {
    let rows = [
        (RunFault::NotJson, 2, "not JSON"),
        (RunFault::Memory, 3, "out of memory"),
        (RunFault::Read, 3, "read failed"),
        (RunFault::Write, 3, "write failed"),
    ];
    for (fault, status, text) in Vec::from_array(rt.alloc(), rows)? {
        assert_eq!(rt; fault.status(), status);
        let shown = format!(in rt.alloc(); "{fault}")?;
        assert_eq!(rt; shown.as_str(), text);
    }
    Ok(())
}
