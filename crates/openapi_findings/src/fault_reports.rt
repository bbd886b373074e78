//! Reports of the faults of a document.
ghost use Rattle.std.specs.Prelude.{◌≡◌, IfOk, OnOk};
ghost use Rattle.openapi_node.specs.Fault.{place_of};
ghost use Rattle.openapi_faults.specs.Adds.{Adds};
ghost use Rattle.openapi_faults.specs.Told.{cause_in};
ghost use Rattle.openapi_findings.specs.Stated.{cause_code, faults_in, statement_of};

use crate::code::Code;
use crate::found::{Allowed, Found, NumberText};
use crate::kind_at::{DOCUMENT, asked_at};
use crate::places::{PlaceIndex, find_place, keys_of};
use crate::report::Report;
use openapi_faults::faults;
use openapi_json::ReplacedNumber;
use openapi_node::{Cause, Fault, Node, PlaceStep, Steps, View};
use std::alloc::{AllocError, Global};

/// Appends a report for each fault of a document, in which 0 is in place of each of these numbers.
pub(crate) fn report_faults(
    alloc: Global,
    document: &Node,
    numbers: &[ReplacedNumber],
    reports: &mut Vec<Report>,
    steps: &mut Steps,
) -> Result<(), AllocError>
    ensures { OnOk result (Adds statement_of reports.old.items reports.new.items (faults_in document.now)) }
{
    let places = number_places(alloc, numbers)?;
    let keys = keys_of(alloc, places.as_slice())?;
    let index = PlaceIndex {
        places: places.as_slice(),
        keys: &keys,
    };
    for fault in faults(alloc, DOCUMENT, document, steps)? {
        let report = report_of(alloc, document, numbers, &index, fault, steps)?;
        reports.push(report)?;
    }
    Ok(())
}

/// Returns the locations of numbers.
fn number_places<'a>(
    alloc: Global,
    numbers: &'a [ReplacedNumber],
) -> Result<Vec<&'a [PlaceStep]>, AllocError> {
    let mut places: Vec<&[PlaceStep]> = Vec::with_capacity(alloc, numbers.len())?;
    for number in numbers {
        places.push(number.place.as_slice())?;
    }
    Ok(places)
}

/// Returns the report of a fault. `index` has the locations of the numbers.
fn report_of(
    alloc: Global,
    document: &Node,
    numbers: &[ReplacedNumber],
    index: &PlaceIndex<'_>,
    fault: Fault,
    steps: &mut Steps,
) -> Result<Report, AllocError>
    ensures { IfOk result (λ r. statement_of r ≡ (place_of fault, cause_code (cause_in fault.cause))) }
{
    let Fault { place, cause } = fault;
    let message = cause.to_string(alloc)?;
    let help = help_for(
        alloc,
        document,
        numbers,
        index,
        place.as_slice(),
        cause,
        steps,
    )?;
    Ok(Report {
        code: code_of(cause),
        message,
        help,
        place,
    })
}

/// Returns the code of the faults with a cause.
pub(crate) fn code_of(cause: Cause) -> Code
    ensures { result ≡ cause_code (cause_in cause) }
{
    match cause {
        Cause::Missing(_) => Code::MissingMember,
        Cause::MissingEither(_, _) => Code::MissingEither,
        Cause::WrongKind(_) => Code::WrongType,
        Cause::UnknownVariant => Code::UnknownValue,
        Cause::NotAllowed => Code::ValueNotAllowed,
        // No fault of a value has these causes: texts, writers and allocations have them.
        Cause::NotWhole | Cause::NameNotWritable | Cause::Memory => Code::ValueNotAllowed,
    }
}

/// Returns which value was found, and which ones are allowed in its place.
fn help_for(
    alloc: Global,
    document: &Node,
    numbers: &[ReplacedNumber],
    index: &PlaceIndex<'_>,
    place: &[PlaceStep],
    cause: Cause,
    steps: &mut Steps,
) -> Result<Option<String>, AllocError> {
    match cause {
        Cause::WrongKind(_) | Cause::NotAllowed | Cause::UnknownVariant => {}
        _ => return Ok(None),
    }
    let Some(asked) = asked_at(document, place, steps) else {
        return Ok(None);
    };
    let view = asked.node.open(steps);
    let allowed = Allowed(asked.kind);
    let help = match replaced_at(alloc, numbers, index, place, &view)? {
        Some(number) => {
            let found = NumberText(number.text.as_str());
            format!(in alloc; "found {found}{allowed}")?
        }
        None => {
            let found = Found(view);
            format!(in alloc; "found {found}{allowed}")?
        }
    };
    Ok(Some(help))
}

/// Returns the number that is replaced at a location, if there is one.
fn replaced_at<'a>(
    alloc: Global,
    numbers: &'a [ReplacedNumber],
    index: &PlaceIndex<'_>,
    place: &[PlaceStep],
    view: &View<'_>,
) -> Result<Option<&'a ReplacedNumber>, AllocError> {
    if numbers.is_empty() || view.as_whole().is_none() {
        return Ok(None);
    }
    match find_place(alloc, index, place)? {
        Some(found) => Ok(numbers.get(found)),
        None => Ok(None),
    }
}
