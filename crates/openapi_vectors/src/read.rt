//! Callbacks and responses that were read, matched on and counted.

use openapi_test_support::trees::{check_same, tree};
use openapiv3::{Callback, FromNode, Operation, ReferenceOr, Response, Responses, Steps};
use std::alloc::Global;
use std::test::Fail;

/// Returns what is read from a JSON text.
pub(crate) fn read_value<T: FromNode>(rt: &HostRuntime, text: &str) -> Result<T, Fail> {
    let mut steps = Steps::new(rt);
    Ok(T::from_node(rt.alloc(), &tree(rt, text)?, &mut steps)?)
}

/// A value that describes itself.
pub(crate) trait Tells {
    /// Returns the description as a text.
    fn told(&self, alloc: Global) -> Result<String, Fail>;
}

/// Checks that what is read from each JSON text is described by a text.
pub(crate) fn check_told<T: FromNode + Tells + Drop>(
    rt: &HostRuntime,
    rows: &[(&str, &str)],
) -> Result<(), Fail> {
    for (given, wanted) in rows {
        let value: T = read_value(rt, given)?;
        check_same(rt, value.told(rt.alloc())?.as_str(), wanted)?;
    }
    Ok(())
}

/// How many path items and extensions a callback has.
impl Tells for ReferenceOr<Callback> {
    fn told(&self, alloc: Global) -> Result<String, Fail> {
        match self {
            ReferenceOr::Reference { .. } => Ok(String::from_str(alloc, "reference")?),
            ReferenceOr::Item(callback) => {
                let (paths, extensions) = (callback.paths.len(), callback.extensions.len());
                Ok(format!(in alloc; "paths {paths}, extensions {extensions}")?)
            }
        }
    }
}

#[test]
fn callbacks_are_told_from_references_and_extensions(rt: HostRuntime) -> Result<(), Fail> {
    let rows = [
        (r##"{"$ref":"#/x"}"##, "reference"),
        (r#"{"$ref":{}}"#, "paths 1, extensions 0"),
        (
            r#"{"x-a":{"get":{"responses":{},"wat":1}}}"#,
            "paths 0, extensions 1",
        ),
        (r#"{"x-a":5,"u":{},"x":{}}"#, "paths 2, extensions 1"),
    ];
    check_told::<ReferenceOr<Callback>>(&rt, &rows)
}

/// Appends the text of a reference behind a mark, or the description of a response.
fn note(text: &mut String, response: &ReferenceOr<Response>) -> Result<(), Fail> {
    match response {
        ReferenceOr::Reference { reference } => write!(text, "->{reference} ")?,
        ReferenceOr::Item(response) => write!(text, "{} ", response.description)?,
    }
    Ok(())
}

/// The default response, the codes in their order with their responses, and how many extensions there are.
impl Tells for Responses {
    fn told(&self, alloc: Global) -> Result<String, Fail> {
        let mut text = String::new(alloc);
        if let Some(response) = &self.default {
            write!(text, "default ")?;
            note(&mut text, response)?;
        }
        for place in 0..self.responses.len() {
            if let Some((code, response)) = self.responses.get_index(place) {
                write!(text, "{code:?} ")?;
                note(&mut text, response)?;
            }
        }
        let count = self.extensions.len();
        write!(text, "and {count}")?;
        Ok(text)
    }
}

// A later response of a code replaces the earlier one in its place. A name that is no code is not kept.
#[test]
fn responses_stand_at_their_codes(rt: HostRuntime) -> Result<(), Fail> {
    let rows = [
        ("{}", "and 0"),
        (
            r#"{"2xx":{"description":"a"},"404":{"description":"b"},"2XX":{"description":"c"},"wat":7}"#,
            "Range(2) c Code(404) b and 0",
        ),
        (
            r#"{"99":5,"1000":5,"+20":5,"2X":5,"é0":5,"2xX":{"description":"d"},"x-a":1}"#,
            "Range(2) d and 1",
        ),
    ];
    check_told::<Responses>(&rt, &rows)
}

/// An operation is described by its responses.
impl Tells for Operation {
    fn told(&self, alloc: Global) -> Result<String, Fail> {
        self.responses.told(alloc)
    }
}

// The codes of the responses are kept in their order, beside the default one.
#[test]
fn responses_of_an_operation_are_read(rt: HostRuntime) -> Result<(), Fail> {
    let rows = [(
        r#"{"responses":{"default":{"$ref":"def"},"666":{"$ref":"demo"},"418":{"$ref":"demo"}}}"#,
        "default ->def Code(666) ->demo Code(418) ->demo and 0",
    )];
    check_told::<Operation>(&rt, &rows)
}
