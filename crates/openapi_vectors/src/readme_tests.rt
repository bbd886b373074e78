//! What the example of the README does.
use crate::readme::with_version;
use openapi_test_support::trees::check_same;
use openapiv3::Steps;
use std::test::Fail;

/// Checks what the example returns for a text and the version 2, or the error that it prints.
fn check(rt: &HostRuntime, bytes: &[u8], wanted: &str) -> Result<(), Fail> {
    let mut steps = Steps::new(rt);
    match with_version(rt.alloc(), bytes, "2", &mut steps) {
        Ok(text) => check_same(rt, text.as_str(), wanted),
        Err(error) => check_same(rt, format!(in rt.alloc(); "{error}")?.as_str(), wanted),
    }
}

#[test]
fn readme_example_changes_the_version_alone(rt: HostRuntime) -> Result<(), Fail> {
    check(
        &rt,
        br#"{"openapi":"3.0.3","x-b":1,"info":{"version":"1","title":"t"},"paths":{"/b":{},"/a":{}},"x-a":2}"#,
        r#"{
  "openapi": "3.0.3",
  "info": {
    "title": "t",
    "version": "2"
  },
  "paths": {
    "/b": {},
    "/a": {}
  },
  "x-b": 1,
  "x-a": 2
}"#,
    )
}

#[test]
fn readme_example_prints_where_an_error_is(rt: HostRuntime) -> Result<(), Fail> {
    check(
        &rt,
        b"{\"openapi\":\"3.0.3\",\n \"info\":{\"title\":7,\"version\":\"1\"},\"paths\":{}}",
        "2:18: invalid type, expected text at #/info/title",
    )?;
    check(&rt, b"{", "not JSON")?;
    check(&rt, b"\"\xff\"", "not JSON")
}
