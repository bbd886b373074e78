//! The commands `operations` and `references`.
ghost use Rattle.std.specs.Prelude.{◌≡◌, ◌++◌, IfOk, option_map, string_bytes};
ghost use Rattle.std.specs.Fmt.{WritesOnOk};
ghost use Rattle.openapi.specs.Listed.{json_id, json_numbers, json_pointer, json_uri, operation_line, reference_line};

use crate::input::{INPUT, read_input, shown_name};
use crate::output::write_output;
use crate::report::{report_failure, report_refusal};
use crate::status::FAILED;
use openapi_faults::Reference;
use openapi_findings::{Quoted, QuotedPointer, Shown};
use openapi_json::{JsonFault, Position};
use openapi_listing::{ListedOperation, ReferenceList, list_operations, list_references};
use openapi_node::{PlaceStep, Steps};
use openapi_text::{Refusal, RunFault};
use std::alloc::{AllocError, Global};
use std::fmt;
use std::str::FromStr;

/// What is listed.
#[derive(Clone, Copy, Debug, PartialEq, Eq)]
pub enum Listing {
    /// The operations of each document.
    Operations,
    /// The references of each document.
    References,
}

/// How it is printed.
#[derive(Clone, Copy, Debug, PartialEq, Eq)]
pub enum ListFormat {
    /// For people.
    Text,
    /// One object of JSON a line.
    Json,
}

impl FromStr for ListFormat {
    type Err = ();

    /// Reads `text` or `json`.
    ///
    /// # Errors
    ///
    /// Returns `()` for any other word.
    fn from_str(word: &str) -> Result<ListFormat, ()> {
        match word {
            "text" => Ok(ListFormat::Text),
            "json" => Ok(ListFormat::Json),
            _ => Err(()),
        }
    }
}

/// Lists what there is in files, or in standard input if there is none, and returns the exit status.
pub fn list_files(rt: &HostRuntime, listing: Listing, format: ListFormat, files: &[&str]) -> u8 {
    if files.is_empty() {
        return list_file(rt, listing, format, INPUT);
    }
    let mut status = 0;
    for file in files {
        status = list_file(rt, listing, format, file).max(status);
    }
    status
}

/// Lists what there is in a file, and returns the exit status.
fn list_file(rt: &HostRuntime, listing: Listing, format: ListFormat, file: &str) -> u8 {
    let name = shown_name(file);
    let bytes = match read_input(rt, file) {
        Ok(bytes) => bytes,
        Err(error) => {
            report_failure(rt, name, &error);
            return FAILED;
        }
    };
    let mut steps = Steps::new(rt);
    let bytes = bytes.as_slice();
    let text = match listing {
        Listing::Operations => operations_text(rt.alloc(), format, name, bytes, &mut steps),
        Listing::References => references_text(rt.alloc(), format, name, bytes, &mut steps),
    };
    match text {
        Ok(text) if write_output(rt, text.as_str()).is_ok() => 0,
        Ok(_) => FAILED,
        Err(refusal) => report_refusal(rt, name, bytes, refusal),
    }
}

/// Returns the operations of a document as they are printed.
fn operations_text(
    alloc: Global,
    format: ListFormat,
    file: &str,
    bytes: &[u8],
    steps: &mut Steps,
) -> Result<String, Refusal> {
    let list = list_operations(alloc, bytes, steps)?;
    let mut text = String::new(alloc);
    for (operation, position) in list.operations.iter().zip(list.positions.iter()) {
        let start = Start {
            file,
            position: *position,
            place: operation.place.as_slice(),
        };
        push_operation(&mut text, format, start, operation)?;
    }
    Ok(text)
}

/// Returns the references of a document as they are printed.
fn references_text(
    alloc: Global,
    format: ListFormat,
    file: &str,
    bytes: &[u8],
    steps: &mut Steps,
) -> Result<String, Refusal> {
    let list = match list_references(alloc, bytes, steps) {
        Ok(list) => list,
        Err(fault) => return Err(refusal_of(fault)),
    };
    let found = in_text_order(alloc, &list)?;
    let mut text = String::new(alloc);
    for (reference, position) in found {
        let start = Start {
            file,
            position,
            place: reference.place.as_slice(),
        };
        push_reference(&mut text, format, start, reference)?;
    }
    Ok(text)
}

/// Returns why a text is refused that is no JSON.
fn refusal_of(fault: JsonFault) -> Refusal {
    Refusal {
        fault: RunFault::from(fault),
        position: None,
    }
}

/// Returns references with their positions, in the order of the text.
fn in_text_order(
    alloc: Global,
    list: &ReferenceList,
) -> Result<Vec<(&Reference, Option<Position>)>, AllocError> {
    let mut found = Vec::with_capacity(alloc, list.references.len())?;
    for (reference, position) in list.references.iter().zip(list.positions.iter()) {
        found.push((reference, *position))?;
    }
    found.sort_by_key(|it| offset_of(it.1))?;
    Ok(found)
}

/// Returns the offset of a position.
fn offset_of(position: Option<Position>) -> usize {
    match position {
        Some(position) => position.value.offset,
        None => 0,
    }
}

/// Where something is, as a line begins with it: `FILE:LINE:COLUMN`, or the first members of an object of JSON.
#[derive(Clone, Copy)]
struct Start<'a> {
    file: &'a str,
    position: Option<Position>,
    place: &'a [PlaceStep],
}

/// The same for people.
#[derive(Clone, Copy)]
struct InText<'a>(Start<'a>);

/// The same for programs.
#[derive(Clone, Copy)]
struct InJson<'a>(Start<'a>);

impl fmt::Display for InText<'_> {
    ghost use Rattle.std.specs.Prelude.{Some};
    ghost use Rattle.openapi.specs.Listed.{start_text};

    ghost output = { λ it. Some (start_text it.0) };

    #[tactic(auto, unfolding(crate::specs::Listed::numbers_text, crate::specs::Listed::start_text))]
    fn fmt<W: fmt::Write>(&self, f: &mut fmt::Formatter<W>) -> fmt::Result {
        let file = Shown(self.0.file);
        match self.0.position {
            Some(position) => {
                let (line, column) = (position.value.line, position.value.column);
                write!(f, "{file}:{line}:{column}")
            }
            None => write!(f, "{file}"),
        }
    }
}

impl fmt::Display for InJson<'_> {
    ghost use Rattle.std.specs.Prelude.{Some};
    ghost use Rattle.openapi.specs.Listed.{json_start};

    ghost output = { λ it. Some (json_start it.0) };

    #[tactic(auto, unfolding(crate::specs::Listed::json_start))]
    fn fmt<W: fmt::Write>(&self, f: &mut fmt::Formatter<W>) -> fmt::Result {
        let file = Quoted(self.0.file);
        write!(f, "{{\"file\":{file}")?;
        write_numbers(f, self.0.position)?;
        write_pointer(f, self.0.place)
    }
}

/// Writes the line and the column of a position.
#[tactic(auto, unfolding(crate::specs::Listed::json_numbers))]
fn write_numbers<W: fmt::Write>(
    f: &mut fmt::Formatter<W>,
    position: Option<Position>,
) -> fmt::Result
    ensures { WritesOnOk W.write_str_gives f.old result (json_numbers position) f.new }
{
    match position {
        Some(position) => {
            let (line, column) = (position.value.line, position.value.column);
            write!(f, ",\"line\":{line},\"column\":{column}")
        }
        None => f.write_str(",\"line\":null,\"column\":null"),
    }
}

/// Writes a location as a JSON Pointer.
#[tactic(auto, unfolding(crate::specs::Listed::json_pointer))]
fn write_pointer<W: fmt::Write>(f: &mut fmt::Formatter<W>, place: &[PlaceStep]) -> fmt::Result
    ensures { WritesOnOk W.write_str_gives f.old result (json_pointer place.now) f.new }
{
    let pointer = QuotedPointer(place);
    write!(f, ",\"pointer\":{pointer}")
}

/// An operation as one object of JSON.
#[derive(Clone, Copy)]
struct OperationInJson<'a> {
    start: Start<'a>,
    operation: &'a ListedOperation,
}

/// A reference as one object of JSON.
#[derive(Clone, Copy)]
struct ReferenceInJson<'a> {
    start: Start<'a>,
    reference: &'a Reference,
}

impl fmt::Display for OperationInJson<'_> {
    ghost use Rattle.std.specs.Prelude.{Some};
    ghost use Rattle.openapi.specs.Listed.{operation_json};

    ghost output = { λ it. Some (operation_json it.start it.operation.now) };

    #[tactic(auto, unfolding(crate::specs::Listed::operation_json))]
    fn fmt<W: fmt::Write>(&self, f: &mut fmt::Formatter<W>) -> fmt::Result {
        let start = InJson(self.start);
        let method = Quoted(self.operation.method.as_str());
        let path = Quoted(self.operation.path.as_str());
        write!(f, "{start},\"method\":{method},\"path\":{path}")?;
        write_id(f, &self.operation.operation_id)?;
        f.write_str("}")
    }
}

impl fmt::Display for ReferenceInJson<'_> {
    ghost use Rattle.std.specs.Prelude.{Some};
    ghost use Rattle.openapi.specs.Listed.{reference_json};

    ghost output = { λ it. Some (reference_json it.start it.reference.now) };

    #[tactic(auto, unfolding(crate::specs::Listed::reference_json))]
    fn fmt<W: fmt::Write>(&self, f: &mut fmt::Formatter<W>) -> fmt::Result {
        let start = InJson(self.start);
        write!(f, "{start}")?;
        write_uri(f, self.reference.text.as_str())?;
        f.write_str("}")
    }
}

/// Writes the `operationId` of an operation.
#[tactic(auto, unfolding(crate::specs::Listed::json_id))]
fn write_id<W: fmt::Write>(f: &mut fmt::Formatter<W>, id: &Option<String>) -> fmt::Result
    ensures { WritesOnOk W.write_str_gives f.old result (json_id (option_map string_bytes id.now)) f.new }
{
    match id {
        Some(id) => {
            let id = Quoted(id.as_str());
            write!(f, ",\"operationId\":{id}")
        }
        None => f.write_str(",\"operationId\":null"),
    }
}

/// Writes the text of a reference.
#[tactic(auto, unfolding(crate::specs::Listed::json_uri))]
fn write_uri<W: fmt::Write>(f: &mut fmt::Formatter<W>, uri: &str) -> fmt::Result
    ensures { WritesOnOk W.write_str_gives f.old result (json_uri uri.now) f.new }
{
    let uri = Quoted(uri);
    write!(f, ",\"reference\":{uri}")
}

/// Appends the line of an operation.
#[tactic(auto, unfolding(crate::specs::Listed::operation_line))]
fn push_operation(
    text: &mut String,
    format: ListFormat,
    start: Start<'_>,
    operation: &ListedOperation,
) -> Result<(), AllocError>
    ensures { IfOk result (λ _. string_bytes text.new ≡ string_bytes text.old ++ operation_line format start.entry operation.now) }
{
    match format {
        ListFormat::Text => {
            let (method, path) = (operation.method.as_str(), Shown(operation.path.as_str()));
            writeln!(text, "{method} {path}")
        }
        ListFormat::Json => {
            let line = OperationInJson { start, operation };
            writeln!(text, "{line}")
        }
    }
}

/// Appends the line of a reference.
#[tactic(auto, unfolding(crate::specs::Listed::reference_line))]
fn push_reference(
    text: &mut String,
    format: ListFormat,
    start: Start<'_>,
    reference: &Reference,
) -> Result<(), AllocError>
    ensures { IfOk result (λ _. string_bytes text.new ≡ string_bytes text.old ++ reference_line format start.entry reference.now) }
{
    match format {
        ListFormat::Text => {
            let (start, uri) = (InText(start), Shown(reference.text.as_str()));
            writeln!(text, "{start}: {uri}")
        }
        ListFormat::Json => {
            let line = ReferenceInJson { start, reference };
            writeln!(text, "{line}")
        }
    }
}
