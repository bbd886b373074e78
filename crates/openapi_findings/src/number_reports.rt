//! Reports of the numbers of a document that no node holds.
ghost use Rattle.std.specs.Prelude.{◌≡◌, ◌++◌, [], ◌∷◌, IfOk, OnOk, flat_map, is_some, map, option_to_list};
ghost use Rattle.openapi_node.specs.Fault.{step_of};
ghost use Rattle.openapi_json.specs.Zeros.{replaced_of};
ghost use Rattle.openapi_faults.specs.Adds.{Adds};
ghost use Rattle.openapi_faults.specs.Limited.{limited_place};
ghost use Rattle.openapi_findings.specs.Numbers.{IsIndexed, number_stated, numbers_stated, places_in, stated_by};
ghost use Rattle.openapi_findings.specs.Stated.{errors_in, place_in_report, statement_of};

use crate::code::Code;
use crate::found::{Allowed, NumberText};
use crate::kind_at::DOCUMENT;
use crate::places::{PlaceIndex, find_place, keys_of};
use crate::report::{Report, report_places};
use openapi_faults::{Kind, LimitedNumber, Limits, limited_numbers};
use openapi_json::{ReplacedNumber, copied_place};
use openapi_node::{Node, PlaceStep, Steps};
use std::alloc::{AllocError, Global};

/// Appends a report for each number that no node holds. The reports that are there are those of the errors: where one is at the
/// location of a number, the number gets none.
pub(crate) fn report_numbers(
    alloc: Global,
    document: &Node,
    numbers: &[ReplacedNumber],
    reports: &mut Vec<Report>,
    steps: &mut Steps,
) -> Result<(), AllocError>
    requires { map statement_of reports.old.items ≡ errors_in document.now }
    ensures { OnOk result (Adds statement_of reports.old.items reports.new.items
        (numbers_stated document.now (map replaced_of numbers.now))) }
{
    if numbers.is_empty() {
        return Ok(());
    }
    let limited = limited_numbers(alloc, DOCUMENT, document, steps)?;
    let mut more = reports_of(alloc, numbers, limited.as_slice(), reports.as_slice())?;
    reports.append(&mut more)?;
    Ok(())
}

/// Returns the reports of numbers, by where numbers within limits are required and by the errors.
fn reports_of(
    alloc: Global,
    numbers: &[ReplacedNumber],
    limited: &[LimitedNumber],
    errors: &[Report],
) -> Result<Vec<Report>, AllocError>
    ensures { IfOk result (λ v. map statement_of v.items ≡ flat_map
        (number_stated (map limited_place limited.now) (map place_in_report errors.now)) (map replaced_of numbers.now)) }
{
    let limit_places = limited_places(alloc, limited)?;
    let limit_keys = keys_of(alloc, limit_places.as_slice())?;
    let error_places = report_places(alloc, errors)?;
    let error_keys = keys_of(alloc, error_places.as_slice())?;
    let limits = PlaceIndex {
        places: limit_places.as_slice(),
        keys: &limit_keys,
    };
    let wrong = PlaceIndex {
        places: error_places.as_slice(),
        keys: &error_keys,
    };
    reports_by(alloc, numbers, limited, &limits, &wrong)
}

/// Returns the locations at which numbers within limits are required.
fn limited_places<'a>(
    alloc: Global,
    limited: &'a [LimitedNumber],
) -> Result<Vec<&'a [PlaceStep]>, AllocError>
    ensures { IfOk result (λ v. map (λ p. map step_of p.now) v.items ≡ map limited_place limited.now) }
{
    let mut places: Vec<&[PlaceStep]> = Vec::with_capacity(alloc, limited.len())?;
    for number in limited {
        places.push(number.place.as_slice())?;
    }
    Ok(places)
}

/// Returns the reports of numbers, by these two indices.
fn reports_by(
    alloc: Global,
    numbers: &[ReplacedNumber],
    limited: &[LimitedNumber],
    limits: &PlaceIndex<'_>,
    wrong: &PlaceIndex<'_>,
) -> Result<Vec<Report>, AllocError>
    requires limits { IsIndexed limits.now }
    requires wrong { IsIndexed wrong.now }
    ensures { IfOk result (λ v. map statement_of v.items
        ≡ flat_map (number_stated (places_in limits.now) (places_in wrong.now)) (map replaced_of numbers.now)) }
{
    let mut reports = Vec::new(alloc);
    for number in numbers {
        let report = report_at(alloc, number, limited, limits, wrong)?;
        push_if(&mut reports, report)?;
    }
    Ok(reports)
}

/// Appends a report, if there is one.
fn push_if(reports: &mut Vec<Report>, report: Option<Report>) -> Result<(), AllocError>
    ensures { OnOk result (reports.new.items ≡ reports.old.items ++ option_to_list report) }
{
    let Some(report) = report else {
        return Ok(());
    };
    reports.push(report)?;
    Ok(())
}

/// Returns the report of a number, if it has one of its own.
fn report_at(
    alloc: Global,
    number: &ReplacedNumber,
    limited: &[LimitedNumber],
    limits: &PlaceIndex<'_>,
    wrong: &PlaceIndex<'_>,
) -> Result<Option<Report>, AllocError>
    requires limits { IsIndexed limits.now }
    requires wrong { IsIndexed wrong.now }
    ensures { IfOk result (λ o. map statement_of (option_to_list o)
        ≡ number_stated (places_in limits.now) (places_in wrong.now) (replaced_of number.now)) }
{
    let place = number.place.as_slice();
    let limit = find_place(alloc, limits, place)?;
    let error = find_place(alloc, wrong, place)?;
    report_by(alloc, number, limited, limit, error.is_some())
}

/// Returns the report of a number, by where a number within limits is required at its location and by whether an error
/// is there.
fn report_by(
    alloc: Global,
    number: &ReplacedNumber,
    limited: &[LimitedNumber],
    limit: Option<usize>,
    is_wrong: bool,
) -> Result<Option<Report>, AllocError>
    ensures { IfOk result (λ o. map statement_of (option_to_list o)
        ≡ stated_by (is_some limit) is_wrong (map step_of number.now.place.items)) }
{
    if let Some(index) = limit {
        let report = not_whole(alloc, number, limited.get(index))?;
        return Ok(Some(report));
    }
    if is_wrong {
        return Ok(None);
    }
    let report = fraction(alloc, number)?;
    Ok(Some(report))
}

/// Returns the report of a number where a whole number within limits is required.
fn not_whole(
    alloc: Global,
    number: &ReplacedNumber,
    limited: Option<&LimitedNumber>,
) -> Result<Report, AllocError>
    ensures { IfOk result (λ r. statement_of r ≡ (map step_of number.now.place.items, Code.NotWhole)) }
{
    let message = message_of(alloc, number.text.as_str())?;
    let help = match limited {
        Some(limited) => Some(limits_help(alloc, number.text.as_str(), limited.limits)?),
        None => None,
    };
    let place = copied_place(alloc, number.place.as_slice())?;
    Ok(Report {
        code: Code::NotWhole,
        message,
        help,
        place,
    })
}

/// Returns which numbers are allowed in place of a number.
fn limits_help(alloc: Global, text: &str, limits: Limits) -> Result<String, AllocError> {
    let found = NumberText(text);
    let allowed = Allowed(Kind::Number(limits));
    format!(in alloc; "found {found}{allowed}")
}

/// Returns the report of a number that is valid, but can't be written.
fn fraction(alloc: Global, number: &ReplacedNumber) -> Result<Report, AllocError>
    ensures { IfOk result (λ r. statement_of r ≡ (map step_of number.now.place.items, Code.Fraction)) }
{
    let message = message_of(alloc, number.text.as_str())?;
    let help = String::from_str(
        alloc,
        "`openapi normalize` can't write it; `check` and `clean` can",
    )?;
    let place = copied_place(alloc, number.place.as_slice())?;
    Ok(Report {
        code: Code::Fraction,
        message,
        help: Some(help),
        place,
    })
}

/// Returns why no node holds a number.
fn message_of(alloc: Global, text: &str) -> Result<String, AllocError> {
    let number = NumberText(text);
    let why = why_not_held(text);
    format!(in alloc; "{number} {why}")
}

/// Returns why no node holds a number, as the end of a sentence.
fn why_not_held(text: &str) -> &'static str {
    let is_plain = |byte: &u8| *byte == b'-' || byte.is_ascii_digit();
    if text == "-0" {
        "is a negative zero"
    } else if text.as_bytes().iter().all(is_plain) {
        "is out of the range of 64 bits"
    } else {
        "is not written as a whole number"
    }
}
