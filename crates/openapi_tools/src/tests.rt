//! What the tools return.
use crate::{deprecate, pets, properties_of, undescribed_operations, untitled_schemas};
use openapi_test_support::trees::{check_same, check_written};
use openapiv3::{OpenAPI, Steps, ToNode, from_json_in_order};
use std::test::Fail;

const DOCUMENT: &str = r##"{"openapi":"3.0.3","info":{"title":"Pets","version":"1"},"paths":{
    "/pets":{"get":{"description":"All pets","responses":{}},"post":{"requestBody":{"content":{"application/json":
        {"schema":{"type":"array","items":{"$ref":"#/components/schemas/Pet"}}}}},"responses":{}}},
    "/pets/{id}":{"delete":{"responses":{}}}},
    "components":{"schemas":{"Pet":{"$ref":"#/components/schemas/Animal"},"Name":{"title":"a name","type":"string"},
        "Animal":{"title":"an animal","type":"object","properties":{
            "name":{"$ref":"#/components/schemas/Name"},"age":{"type":"integer","title":"years"},"tag":{"type":"string"}}},
        "Odd":{"type":"object","properties":{"gone":{"$ref":"#/components/schemas/Gone"}}}}}}"##;

/// Returns the document of the tests.
fn document(rt: &HostRuntime) -> Result<OpenAPI, Fail> {
    let mut steps = Steps::new(rt);
    match from_json_in_order(rt.alloc(), DOCUMENT.as_bytes(), &mut steps) {
        Ok(document) => Ok(document),
        Err(_) => Err(Fail::from("the document is refused")),
    }
}

/// Checks texts, which are compared with commas between them.
fn check_texts(rt: &HostRuntime, found: &[String], wanted: &str) -> Result<(), Fail> {
    let mut text = String::new(rt.alloc());
    for it in found {
        if !text.is_empty() {
            text.push_str(", ")?;
        }
        text.push_str(it.as_str())?;
    }
    check_same(rt, text.as_str(), wanted)
}

/// Checks what is found in a document.
fn check_found(rt: &HostRuntime, document: &OpenAPI) -> Result<(), Fail> {
    let found = undescribed_operations(rt.alloc(), document)?;
    check_texts(rt, found.as_slice(), "post /pets, delete /pets/{id}")?;
    let found = untitled_schemas(rt.alloc(), document)?;
    let wanted =
        "/paths/~1pets/post/requestBody/content/application~1json/schema, /components/schemas/Animal/properties/tag, /components/schemas/Odd";
    check_texts(rt, found.as_slice(), wanted)
}

#[test]
fn parts_are_found(rt: HostRuntime) -> Result<(), Fail> {
    let document = document(&rt)?;
    check_found(&rt, &document)
}

/// Checks the properties of a schema, or the error.
fn check_properties(
    rt: &HostRuntime,
    document: &OpenAPI,
    reference: &str,
    wanted: &str,
) -> Result<(), Fail> {
    match properties_of(rt.alloc(), document, reference) {
        Ok(found) => check_texts(rt, found.as_slice(), wanted),
        Err(error) => check_same(rt, format!(in rt.alloc(); "{error}")?.as_str(), wanted),
    }
}

/// Checks the properties of the schemas of a document.
fn check_all_properties(rt: &HostRuntime, document: &OpenAPI) -> Result<(), Fail> {
    for (reference, wanted) in [
        (
            "#/components/schemas/Pet",
            "name: a name, age: years, tag: ",
        ),
        ("#/components/schemas/Name", ""),
        (
            "#/components/schemas/Odd",
            "#/components/schemas/Gone leads to no component of its kind",
        ),
    ] {
        check_properties(rt, document, reference, wanted)?;
    }
    Ok(())
}

#[test]
fn references_are_resolved(rt: HostRuntime) -> Result<(), Fail> {
    let document = document(&rt)?;
    check_all_properties(&rt, &document)
}

#[test]
fn operations_are_deprecated(rt: HostRuntime) -> Result<(), Fail> {
    let text =
        r#"{"openapi":"3.0.3","info":{"title":"t","version":"1"},"paths":{"/b":{"get":{"responses":{}},"trace":{"responses":{}}},"/a":{"get":{"responses":{}}}}}"#;
    let wanted = r#"{
  "openapi": "3.0.3",
  "info": {
    "title": "t",
    "version": "1"
  },
  "paths": {
    "/b": {
      "get": {
        "responses": {},
        "deprecated": true
      },
      "trace": {
        "responses": {},
        "deprecated": true
      }
    },
    "/a": {
      "get": {
        "responses": {}
      }
    }
  }
}"#;
    let mut steps = Steps::new(&rt);
    match deprecate(rt.alloc(), text.as_bytes(), "/b", &mut steps) {
        Ok(found) => check_same(&rt, found.as_str(), wanted),
        Err(_) => Err(Fail::from("the document is refused")),
    }
}

#[test]
fn documents_are_built(rt: HostRuntime) -> Result<(), Fail> {
    let wanted =
        r##"{"openapi":"3.0.3","info":{"title":"Pets","version":"1"},"paths":{"/pets/{id}":{"get":{"operationId":"getPet","parameters":[{"in":"path","name":"id","required":true,"schema":{"type":"integer"},"style":"simple"}],"responses":{"200":{"description":"A pet","content":{"application/json":{"schema":{"$ref":"#/components/schemas/Pet"}}}}}}}},"components":{"schemas":{"Pet":{"type":"object","properties":{"name":{"type":"string"}},"required":["name"]}}}}"##;
    let document = pets(rt.alloc())?;
    check_written(&rt, document.to_node(rt.alloc()), Ok(wanted))
}
