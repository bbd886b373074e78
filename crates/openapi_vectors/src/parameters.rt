//! Parameters that were read, matched on.

use crate::read::{Tells, check_told, read_value};
use openapi_test_support::trees::check_written;
use openapiv3::{Fault, FromNode, Node, Parameter, ParameterSchemaOrContent, ToNode, Word};
use std::alloc::Global;
use std::test::Fail;

/// The location of the parameter, its style, and the fields that only a parameter of a query has.
impl Tells for Parameter {
    fn told(&self, alloc: Global) -> Result<String, Fail> {
        let mut text = String::new(alloc);
        match self {
            Parameter::Query {
                allow_reserved,
                style,
                allow_empty_value,
                ..
            } => {
                let style = style.as_str();
                write!(text, "query {style} {allow_reserved} {allow_empty_value:?}")?
            }
            Parameter::Header { style, .. } => {
                let style = style.as_str();
                write!(text, "header {style}")?
            }
            Parameter::Path { style, .. } => {
                let style = style.as_str();
                write!(text, "path {style}")?
            }
            Parameter::Cookie { style, .. } => {
                let style = style.as_str();
                write!(text, "cookie {style}")?
            }
        }
        Ok(text)
    }
}

#[test]
fn parameters_keep_their_places_and_styles(rt: HostRuntime) -> Result<(), Fail> {
    let rows = [
        (
            r#"{"in":"query","content":{},"name":"q","schema":5}"#,
            "query form false None",
        ),
        (
            r#"{"in":"query","schema":{},"name":"q","style":"deepObject","allowReserved":true,"allowEmptyValue":false}"#,
            "query deepObject true Some(false)",
        ),
        (r#"{"in":"header","name":"h","schema":{}}"#, "header simple"),
        (
            r#"{"in":"path","name":"p","schema":{},"style":"matrix"}"#,
            "path matrix",
        ),
        (r#"{"in":"cookie","name":"c","schema":{}}"#, "cookie form"),
    ];
    check_told::<Parameter>(&rt, &rows)
}

/// Whether there is a schema, or how many media types there are.
impl Tells for ParameterSchemaOrContent {
    fn told(&self, alloc: Global) -> Result<String, Fail> {
        match self {
            ParameterSchemaOrContent::Schema(_) => Ok(String::from_str(alloc, "schema")?),
            ParameterSchemaOrContent::Content(content) => {
                let count = content.len();
                Ok(format!(in alloc; "content of {count}")?)
            }
        }
    }
}

#[test]
fn the_first_of_schema_and_content_is_kept(rt: HostRuntime) -> Result<(), Fail> {
    let rows = [
        (r#"{"content":{},"schema":5}"#, "content of 0"),
        (r#"{"content":{"b":{},"a":{}}}"#, "content of 2"),
        (r#"{"schema":{},"content":5}"#, "schema"),
    ];
    check_told::<ParameterSchemaOrContent>(&rt, &rows)
}

/// What has the data that parameters of all places have.
trait HasData {
    /// Returns what the borrowed data is written as.
    fn lent(&self, alloc: Global) -> Result<Node, Fault>;

    /// Returns what the moved data is written as.
    fn given(self, alloc: Global) -> Result<Node, Fault>;
}

impl HasData for Parameter {
    fn lent(&self, alloc: Global) -> Result<Node, Fault> {
        self.parameter_data_ref().to_node(alloc)
    }

    fn given(self, alloc: Global) -> Result<Node, Fault> {
        self.parameter_data().to_node(alloc)
    }
}

/// Checks that the data of what is read from a JSON text is written as another text, whether it is borrowed or moved.
fn check_data<T: FromNode + HasData + Drop>(
    rt: &HostRuntime,
    given: &str,
    wanted: &str,
) -> Result<(), Fail> {
    let value: T = read_value(rt, given)?;
    check_written(rt, value.lent(rt.alloc()), Ok(wanted))?;
    check_written(rt, value.given(rt.alloc()), Ok(wanted))
}

#[test]
fn parameters_have_data_in_each_place(rt: HostRuntime) -> Result<(), Fail> {
    let rows = [
        (
            r#"{"in":"query","name":"n","required":true,"schema":{},"allowReserved":true}"#,
            r#"{"name":"n","required":true,"schema":{}}"#,
        ),
        (
            r#"{"in":"header","name":"n","deprecated":true,"content":{"b":{},"a":{}}}"#,
            r#"{"name":"n","deprecated":true,"content":{"b":{},"a":{}}}"#,
        ),
        (
            r#"{"in":"path","name":"n","schema":{"type":"string"},"example":null,"style":"label"}"#,
            r#"{"name":"n","schema":{"type":"string"}}"#,
        ),
        (
            r#"{"in":"cookie","name":"n","explode":false,"schema":{},"x-b":null,"x-a":1}"#,
            r#"{"name":"n","schema":{},"explode":false,"x-b":null,"x-a":1}"#,
        ),
    ];
    for (given, wanted) in rows {
        check_data::<Parameter>(&rt, given, wanted)?;
    }
    Ok(())
}
