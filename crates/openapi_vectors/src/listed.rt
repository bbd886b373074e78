//! The operations of documents, which an iterator gives path by path.

use openapi_test_support::trees::{check_same, tree};
use openapiv3::{FromNode, Node, OpenAPI, Steps};
use std::test::Fail;

/// A value whose operations are listed.
trait Listed {
    /// Returns path, method and identifier of each operation.
    fn listed(&self, rt: &HostRuntime) -> Result<String, Fail>;
}

impl Listed for OpenAPI {
    fn listed(&self, rt: &HostRuntime) -> Result<String, Fail> {
        let mut text = String::new(rt.alloc());
        for (path, method, operation) in self.operations() {
            text.push_str(path)?;
            text.push(' ')?;
            text.push_str(method)?;
            text.push(' ')?;
            text.push_str(operation.operation_id.as_deref().unwrap_or(""))?;
            text.push(';')?;
        }
        Ok(text)
    }
}

/// Returns the list of the operations of what is read from a node.
fn list<T: FromNode + Listed + Drop>(rt: &HostRuntime, given: &Node) -> Result<String, Fail> {
    let mut steps = Steps::new(rt);
    let value = T::from_node(rt.alloc(), given, &mut steps)?;
    value.listed(rt)
}

/// Checks that a document with these paths has these operations.
fn check_operations(rt: &HostRuntime, paths: &str, wanted: &str) -> Result<(), Fail> {
    let text = format!(in rt.alloc();
        "{{\"openapi\":\"3.0.3\",\"info\":{{\"title\":\"t\",\"version\":\"1\"}},\"paths\":{paths}}}"
    )?;
    let given = tree(rt, text.as_str())?;
    check_same(rt, list::<OpenAPI>(rt, &given)?.as_str(), wanted)
}

// Path by path in the order of the map, and under a path from `get` to `trace`. References have none.
#[test]
fn operations_are_given_in_order(rt: HostRuntime) -> Result<(), Fail> {
    check_operations(&rt, "{}", "")?;
    check_operations(&rt, r##"{"/r":{"$ref":"#/x"},"/e":{}}"##, "")?;
    check_operations(
        &rt,
        r##"{"/b":{"trace":{"operationId":"1","responses":{}}},"/r":{"$ref":"#/x"},"/a":{"get":{"operationId":"2","responses":{}},"delete":{"operationId":"3","responses":{}},"post":{"operationId":"4","responses":{}}},"c":7}"##,
        "/b trace 1;/a get 2;/a post 4;/a delete 3;",
    )?;
    check_operations(
        &rt,
        r##"{"/e":{},"/a":{"head":{"responses":{}}},"/f":{"summary":"s"},"/b":{"$ref":"#/x"},"/c":{"get":{"responses":{}}},"/g":{}}"##,
        "/a head ;/c get ;",
    )
}

/// Checks that the operations of a document are at their end, and stay there.
fn check_end(document: &OpenAPI) -> Result<(), Fail> {
    let mut operations = document.operations();
    if operations.next().is_some() || operations.next().is_some() {
        return Err(Fail::from("an operation"));
    }
    Ok(())
}

#[test]
fn the_iterator_stays_at_its_end(rt: HostRuntime) -> Result<(), Fail> {
    check_end(&OpenAPI::new(rt.alloc()))
}
