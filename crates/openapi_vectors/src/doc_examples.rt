//! The examples of the doc comments, word for word: `tests/readme.py` compares the two.

use crate::read::read_value;
use openapi_faults::{Kind, TableName, faults};
use openapiv3::{
    Contact, Info, OpenAPI, Operation, OrderedMap, PlaceStep, ReferenceOr, Resolve, ResolveError,
    Schema, Steps, Tag, Visitor, from_json, from_json_in_order, node_from_json, position_of,
    to_json, visit,
};
use std::alloc::{AllocError, Global};
use std::test::Fail;

#[test]
fn from_json_reads_an_object(rt: HostRuntime) -> Result<(), Fail> {
    let text = r#"{"title":"Pets","version":"1"}"#;
    let info: Info = from_json(rt.alloc(), text.as_bytes(), &mut Steps::new(&rt))?;
    assert_eq!(rt; info.title.as_str(), "Pets");
    Ok(())
}

#[test]
fn from_json_in_order_keeps_the_order_of_the_text(rt: HostRuntime) -> Result<(), Fail> {
    let text = r#"{"name":"pets","x-b":1,"x-a":2}"#;
    let tag: Tag = from_json_in_order(rt.alloc(), text.as_bytes(), &mut Steps::new(&rt))?;
    let mut names = tag.extensions.keys();
    assert_eq!(rt; names.next(), Some("x-b"));
    assert_eq!(rt; names.next(), Some("x-a"));
    Ok(())
}

#[test]
fn to_json_writes_an_object(rt: HostRuntime) -> Result<(), Fail> {
    let name = String::from_str(rt.alloc(), "Ann")?;
    let mut contact = Contact::new(rt.alloc());
    contact.name = Some(name);
    let text = to_json(rt.alloc(), &contact, &mut Steps::new(&rt))?;
    assert_eq!(rt; text.as_str(), r#"{"name":"Ann"}"#);
    Ok(())
}

#[test]
fn faults_are_all_returned(rt: HostRuntime) -> Result<(), Fail> {
    // The name is missing, and the description is no string.
    let node = node_from_json(rt.alloc(), br#"{"description":true}"#)?;
    let tag = Kind::Object(TableName::Tag);
    let found = faults(rt.alloc(), tag, &node, &mut Steps::new(&rt))?;
    assert_eq!(rt; found.len(), 2);
    Ok(())
}

#[test]
fn position_of_finds_a_line_and_a_column(rt: HostRuntime) -> Result<(), Fail> {
    let text = "{\n  \"info\": {}\n}";
    let place = [PlaceStep::Name(String::from_str(rt.alloc(), "info")?)];
    let position = position_of(rt.alloc(), text.as_bytes(), &place)?;
    let found = position.map(|it| (it.value.line, it.value.column));
    assert_eq!(rt; found, Some((2, 11)));
    Ok(())
}

/// Counts the operations of a document.
#[derive(Drop)]
struct Counter {
    operations: usize,
}

impl Visitor for Counter {
    type Error = AllocError;

    fn operation(&mut self, _location: &str, _operation: &Operation) -> Result<(), AllocError> {
        self.operations = self.operations.saturating_add(1);
        Ok(())
    }
}

fn count_operations(alloc: Global, document: &OpenAPI) -> Result<usize, AllocError> {
    let mut counter = Counter { operations: 0 };
    visit(alloc, document, &mut counter)?;
    Ok(counter.operations)
}

/// Checks that an example holds. It is called last, since an exit is expensive to prove while a document is alive.
fn check(holds: bool) -> Result<(), Fail> {
    if holds {
        Ok(())
    } else {
        Err(Fail::from("the example returns otherwise"))
    }
}

#[test]
fn visit_calls_a_method_for_each_operation(rt: HostRuntime) -> Result<(), Fail> {
    let text =
        r#"{"openapi":"3.0.3","info":{"title":"t","version":"1"},"paths":{"/a":{"get":{"responses":{}},"put":{"responses":{}}}}}"#;
    let document: OpenAPI = read_value(&rt, text)?;
    check(count_operations(rt.alloc(), &document) == Ok(2))
}

fn title_of<'a>(
    document: &'a OpenAPI,
    item: &'a ReferenceOr<Schema>,
) -> Result<Option<&'a str>, ResolveError> {
    let schema: &Schema = document.resolve(item)?;
    Ok(schema.schema_data.title.as_deref())
}

/// Returns the title of the schema to which the component `Alias` leads.
fn title_of_alias(document: &OpenAPI) -> Option<&str> {
    let components = document.components.as_ref()?;
    title_of(document, components.schemas.get("Alias")?).ok()?
}

#[test]
fn resolve_follows_a_reference(rt: HostRuntime) -> Result<(), Fail> {
    let text =
        r##"{"openapi":"3.0.3","info":{"title":"t","version":"1"},"paths":{},"components":{"schemas":{"Alias":{"$ref":"#/components/schemas/Pet"},"Pet":{"title":"A pet"}}}}"##;
    let document: OpenAPI = read_value(&rt, text)?;
    check(title_of_alias(&document) == Some("A pet"))
}

#[test]
fn ordered_map_keeps_the_order_of_insertion(rt: HostRuntime) -> Result<(), Fail> {
    let mut map: OrderedMap<u64> = OrderedMap::new(rt.alloc());
    map.insert(String::from_str(rt.alloc(), "b")?, 1)?;
    map.insert(String::from_str(rt.alloc(), "a")?, 2)?;
    map.insert(String::from_str(rt.alloc(), "b")?, 3)?;
    assert_eq!(rt; map.len(), 2);
    assert_eq!(rt; map.get("b").copied(), Some(3));
    assert_eq!(rt; map.keys().next(), Some("b"));
    Ok(())
}
