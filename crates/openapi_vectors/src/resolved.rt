//! References that are resolved to components.
use openapi_test_support::trees::check_same;
use openapiv3::{
    Callback, Component, Example, Header, Link, OpenAPI, Parameter, ReferenceOr, RequestBody,
    Resolve, ResolveError, Response, Schema, SchemaKind, SecurityScheme, Steps, Type, from_json,
};
use std::test::Fail;

const DOCUMENT: &str =
    r##"{"openapi":"3.0.3","info":{"title":"t","version":"1"},"paths":{},"components":{
    "schemas":{
        "Pet":{"title":"pet"},"Alias":{"$ref":"#/components/schemas/Pet"},"a/b~c":{"title":"odd"},"é":{"title":"accent"},
        "Start":{"$ref":"#/components/schemas/Loop"},"Loop":{"$ref":"#/components/schemas/B%61ck"},
        "Back":{"$ref":"#/components/schemas/Loop"},"Gone":{"$ref":"#/components/schemas/Nowhere"},
        "Owner":{"type":"object","properties":{"pet":{"$ref":"#/components/schemas/Alias"},"own":{"title":"own"}}}
    },
    "responses":{"Pet":{"description":"a response"}}}}"##;

// Each test makes the document, and lets a function check it that borrows it: a document that is alive at a `?` is expensive to prove.

/// Returns the document of a text.
fn read(rt: &HostRuntime, text: &str) -> Result<OpenAPI, Fail> {
    let mut steps = Steps::new(rt);
    match from_json(rt.alloc(), text.as_bytes(), &mut steps) {
        Ok(document) => Ok(document),
        Err(_) => Err(Fail::from("the document is refused")),
    }
}

/// Returns the document of the tests.
fn document(rt: &HostRuntime) -> Result<OpenAPI, Fail> {
    read(rt, DOCUMENT)
}

/// Returns the title of a schema, or the error.
fn title(rt: &HostRuntime, found: Result<&Schema, ResolveError>) -> Result<String, Fail> {
    match found {
        Ok(schema) => match &schema.schema_data.title {
            Some(title) => Ok(title.clone()?),
            None => Ok(String::from_str(rt.alloc(), "no title")?),
        },
        Err(error) => Ok(format!(in rt.alloc(); "{error}")?),
    }
}

/// Checks to which schema a reference leads, by its title, or which error there is.
fn check(rt: &HostRuntime, document: &OpenAPI, reference: &str, wanted: &str) -> Result<(), Fail> {
    let text = title(rt, document.component(reference))?;
    check_same(rt, text.as_str(), wanted)
}

/// Checks references that lead to schemas.
fn check_found(rt: &HostRuntime, document: &OpenAPI) -> Result<(), Fail> {
    for (reference, wanted) in [
        ("#/components/schemas/Pet", "pet"),
        ("#/components/schemas/Alias", "pet"),
        ("#/components/schemas/a~1b~0c", "odd"),
        ("#/components/schemas/%C3%A9", "accent"),
        ("#/components/schemas/é", "accent"),
        ("#/components%2Fschemas/P%65t", "pet"),
        ("#/components/schemas/Owner", "no title"),
    ] {
        check(rt, document, reference, wanted)?;
    }
    Ok(())
}

#[test]
fn references_lead_to_components(rt: HostRuntime) -> Result<(), Fail> {
    let document = document(&rt)?;
    check_found(&rt, &document)
}

/// Checks references that lead to no schema.
fn check_missing(rt: &HostRuntime, document: &OpenAPI) -> Result<(), Fail> {
    for reference in [
        "#/components/schemas/No",
        "#/components/responses/Pet",
        "other.json#/components/schemas/Pet",
        "#/components/schemas/Pet/properties/a",
        "#/components/schemas",
        "#/components/schemas/%FF",
        "#/components/schemas/a~2",
        "#/components/schemas/a/b~0c",
        "/components/schemas/Pet",
        "Pet",
        "",
        "#/components/schemas/Gone -> #/components/schemas/Nowhere",
    ] {
        let (first, _) = reference.split_once(" -> ").unwrap_or((reference, ""));
        let wanted = format!(in rt.alloc(); "{reference} leads to no component of its kind")?;
        check(rt, document, first, wanted.as_str())?;
    }
    Ok(())
}

#[test]
fn references_lead_nowhere(rt: HostRuntime) -> Result<(), Fail> {
    let document = document(&rt)?;
    check_missing(&rt, &document)
}

#[test]
fn documents_without_components_have_none(rt: HostRuntime) -> Result<(), Fail> {
    let document = OpenAPI::new(rt.alloc());
    let wanted = "#/components/schemas/Pet leads to no component of its kind";
    check(&rt, &document, "#/components/schemas/Pet", wanted)
}

/// Checks chains that end in a cycle.
fn check_cycles(rt: &HostRuntime, document: &OpenAPI) -> Result<(), Fail> {
    let cycle =
        "#/components/schemas/Loop -> #/components/schemas/B%61ck -> #/components/schemas/Loop is a cycle";
    check(rt, document, "#/components/schemas/Loop", cycle)?;
    let wanted = format!(in rt.alloc(); "#/components/schemas/Start -> {cycle}")?;
    check(rt, document, "#/components/schemas/Start", wanted.as_str())
}

#[test]
fn chains_end_in_cycles(rt: HostRuntime) -> Result<(), Fail> {
    let document = document(&rt)?;
    check_cycles(&rt, &document)
}

/// Checks that a response has the name of a schema.
fn check_response(rt: &HostRuntime, document: &OpenAPI) -> Result<(), Fail> {
    let found: Result<&Response, ResolveError> = document.component("#/components/responses/Pet");
    match found {
        Ok(response) => check_same(rt, response.description.as_str(), "a response"),
        Err(_) => Err(Fail::from("the response is not found")),
    }
}

#[test]
fn each_section_has_its_own_components(rt: HostRuntime) -> Result<(), Fail> {
    let document = document(&rt)?;
    check_response(&rt, &document)
}

/// Checks the properties of a schema.
fn check_properties(rt: &HostRuntime, document: &OpenAPI) -> Result<(), Fail> {
    let found: Result<&Schema, ResolveError> = document.component("#/components/schemas/Owner");
    let Ok(owner) = found else {
        return Err(Fail::from("the owner is not found"));
    };
    let SchemaKind::Typed(Type::Object(object)) = &owner.schema_kind else {
        return Err(Fail::from("the owner is no object"));
    };
    let mut titles = String::new(rt.alloc());
    for (name, property) in object.properties.iter() {
        let found = title(rt, document.resolve_boxed(property))?;
        titles.push_str(format!(in rt.alloc(); "{name}: {} ", found.as_str())?.as_str())?;
    }
    check_same(rt, titles.as_str(), "own: own pet: pet ")
}

#[test]
fn properties_are_resolved(rt: HostRuntime) -> Result<(), Fail> {
    let document = document(&rt)?;
    check_properties(&rt, &document)
}

/// Checks to what an item or a reference is resolved.
fn check_item(
    rt: &HostRuntime,
    document: &OpenAPI,
    item: &ReferenceOr<Schema>,
) -> Result<(), Fail> {
    let text = title(rt, document.resolve(item))?;
    check_same(rt, text.as_str(), "pet")
}

/// Checks an item and a reference among the schemas.
fn check_items(rt: &HostRuntime, document: &OpenAPI) -> Result<(), Fail> {
    let Some(components) = &document.components else {
        return Err(Fail::from("there are no components"));
    };
    for name in ["Pet", "Alias"] {
        match components.schemas.get(name) {
            Some(item) => check_item(rt, document, item)?,
            None => return Err(Fail::from("there is no such schema")),
        }
    }
    Ok(())
}

#[test]
fn items_are_their_own_targets(rt: HostRuntime) -> Result<(), Fail> {
    let document = document(&rt)?;
    check_items(&rt, &document)
}

/// A document with a component in each section.
const SECTIONS: &str =
    r##"{"openapi":"3.0.3","info":{"title":"t","version":"1"},"paths":{},"components":{
    "schemas":{"Schema":{}},"responses":{"Response":{"description":""}},"examples":{"Example":{}},
    "parameters":{"Parameter":{"name":"p","in":"query","schema":{}}},"requestBodies":{"Body":{"content":{}}},
    "headers":{"Header":{"schema":{}}},"securitySchemes":{"Scheme":{"type":"http","scheme":"basic"}},
    "links":{"Link":{"operationId":"o"}},"callbacks":{"Callback":{}}}}"##;

/// Checks that a reference leads to a component of a type.
fn check_section<T: Component>(document: &OpenAPI, reference: &str) -> Result<(), Fail> {
    let found: Result<&T, ResolveError> = document.component(reference);
    match found {
        Ok(_) => Ok(()),
        Err(_) => Err(Fail::from("a section lacks its component")),
    }
}

/// Checks that each section has its component.
fn check_sections(document: &OpenAPI) -> Result<(), Fail> {
    check_section::<Schema>(document, "#/components/schemas/Schema")?;
    check_section::<Response>(document, "#/components/responses/Response")?;
    check_section::<Parameter>(document, "#/components/parameters/Parameter")?;
    check_section::<Example>(document, "#/components/examples/Example")?;
    check_section::<RequestBody>(document, "#/components/requestBodies/Body")?;
    check_section::<Header>(document, "#/components/headers/Header")?;
    check_section::<SecurityScheme>(document, "#/components/securitySchemes/Scheme")?;
    check_section::<Link>(document, "#/components/links/Link")?;
    check_section::<Callback>(document, "#/components/callbacks/Callback")
}

#[test]
fn each_section_has_components(rt: HostRuntime) -> Result<(), Fail> {
    let document = read(&rt, SECTIONS)?;
    check_sections(&document)
}
