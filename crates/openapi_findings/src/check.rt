//! All findings of a text.
ghost use Rattle.std.specs.Prelude.{◌≡◌, All, IfOk, Some, map};
ghost use Rattle.std.specs.List.{AllZip};
ghost use Rattle.std.specs.List.Sorted.{IsNonDecreasingBy, IsPermutation};
ghost use Rattle.json.specs.Json.{Json};
ghost use Rattle.openapi_json.specs.Ordered.{parsed};
ghost use Rattle.openapi_json.specs.Positions.{IsPositionAt};
ghost use Rattle.openapi_json.specs.Reading.{Explains};
ghost use Rattle.openapi_json.specs.Zeros.{IsTreeWithZeros, replaced_of};
ghost use Rattle.openapi_json.specs.declared.fault.JsonFault.TheVariants as unread;
ghost use Rattle.openapi_findings.specs.Findings.{AreFindings, IsPlaced, finds, found, stated_in};
ghost use Rattle.openapi_findings.specs.Findings as spec;
ghost use Rattle.openapi_findings.specs.Stated.{place_in_report, statement_of};

use crate::dropped_reports::report_dropped;
use crate::fault_reports::report_faults;
use crate::finding::Finding;
use crate::number_reports::report_numbers;
use crate::reference_reports::report_references;
use crate::repeated_reports::report_repeated;
use crate::report::{Report, report_places};
use crate::syntax::syntax_finding;
use crate::version_report::report_version;
use openapi_json::{JsonFault, Position, WithZeros, node_with_zeros_in_order, positions_of};
use openapi_node::Steps;
use std::alloc::{AllocError, Global};

/// Returns the findings of a text that should be an OpenAPI document in JSON, in the order of the text.
///
/// A text that is no JSON has one finding, [`Code::NotJson`]. A number that a node can't hold is [`Code::NotWhole`] or
/// [`Code::Fraction`], and 0 replaces it in all other checks.
///
/// [`Code::NotJson`]: crate::Code::NotJson
/// [`Code::NotWhole`]: crate::Code::NotWhole
/// [`Code::Fraction`]: crate::Code::Fraction
///
/// # Errors
///
/// Returns [`AllocError`] if an allocation fails.
pub fn findings(alloc: Global, bytes: &[u8], steps: &mut Steps) -> Result<Vec<Finding>, AllocError>
    ensures { IfOk result (λ v. AreFindings bytes.now v.items) }
{
    match node_with_zeros_in_order(alloc, bytes) {
        Ok(read) => of_document(alloc, bytes, &read, steps),
        Err(JsonFault::NotJson) => of_no_json(alloc, bytes),
        Err(JsonFault::Memory | JsonFault::NotWhole(_)) => Err(AllocError),
    }
}

/// Returns the findings of a document that was read of a text.
fn of_document(
    alloc: Global,
    bytes: &[u8],
    read: &WithZeros,
    steps: &mut Steps,
) -> Result<Vec<Finding>, AllocError>
    requires { IsTreeWithZeros bytes.now read.now.node (map replaced_of read.now.numbers.items) }
    ensures { IfOk result (λ v. AreFindings bytes.now v.items) }
{
    let reports = reports_of(alloc, bytes, read, steps)?;
    let findings = placed(alloc, bytes, reports)?;
    sorted(findings)
}

/// Returns the one finding of a text that is no JSON.
fn of_no_json(alloc: Global, bytes: &[u8]) -> Result<Vec<Finding>, AllocError>
    requires { Explains bytes.now unread.NotJson }
    ensures { IfOk result (λ v. AreFindings bytes.now v.items) }
{
    let finding = syntax_finding(alloc, bytes)?;
    let mut findings = Vec::new(alloc);
    findings.push(finding)?;
    Ok(findings)
}

/// Returns what there is to report of a document.
fn reports_of(
    alloc: Global,
    bytes: &[u8],
    read: &WithZeros,
    steps: &mut Steps,
) -> Result<Vec<Report>, AllocError>
    ensures { IfOk result (λ v. (j : Json) → parsed bytes.now ≡ Some j
        → map statement_of v.items ≡ stated_in read.now.node (map replaced_of read.now.numbers.items) j) }
{
    let document = &read.node;
    let numbers = read.numbers.as_slice();
    let mut reports = Vec::new(alloc);
    report_version(alloc, document, &mut reports, steps)?;
    report_faults(alloc, document, numbers, &mut reports, steps)?;
    report_numbers(alloc, document, numbers, &mut reports, steps)?;
    report_dropped(alloc, document, &mut reports, steps)?;
    report_references(alloc, document, &mut reports, steps)?;
    report_repeated(alloc, bytes, &mut reports)?;
    Ok(reports)
}

/// Returns each report as a finding at its position.
fn placed(alloc: Global, bytes: &[u8], reports: Vec<Report>) -> Result<Vec<Finding>, AllocError>
    ensures finds { IfOk result (λ v. map finds v.items ≡ map (λ r. found (statement_of r)) reports.items) }
    ensures placed { IfOk result (λ v. All (IsPlaced bytes.now) v.items) }
{
    let found = positions_for(alloc, bytes, reports.as_slice())?;
    let positions = found.as_slice();
    let mut findings = Vec::with_capacity(alloc, positions.len())?;
    let mut i = 0;
    for report in reports {
        let finding = report.at(positions[i]);
        findings.push(finding)?;
        i += 1;
    }
    Ok(findings)
}

/// Returns the positions of the locations of reports.
fn positions_for(
    alloc: Global,
    bytes: &[u8],
    reports: &[Report],
) -> Result<Vec<Option<Position>>, AllocError>
    ensures { IfOk result (λ v. AllZip (IsPositionAt bytes.now) (map place_in_report reports.now) v.items) }
{
    let places = report_places(alloc, reports)?;
    positions_of(alloc, bytes, places.as_slice())
}

/// Sorts findings by where they are shown, and keeps the order of those that are shown at one point.
fn sorted(mut findings: Vec<Finding>) -> Result<Vec<Finding>, AllocError>
    ensures permutation { IfOk result (λ v. IsPermutation findings.items v.items) }
    ensures order { IfOk result (λ v. IsNonDecreasingBy spec.offset_of v.items) }
{
    findings.sort_by_key(|finding| offset_of(finding))?;
    Ok(findings)
}

/// Returns the offset of the point at which a finding is shown.
fn offset_of(finding: &Finding) -> usize
    ensures { result ≡ spec.offset_of finding.now }
{
    match finding.point() {
        Some(point) => point.offset,
        None => 0,
    }
}
