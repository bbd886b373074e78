//! Reports of the references that lead to no value.
ghost use Rattle.std.specs.Prelude.{◌≡◌, IfOk, OnOk};
ghost use Rattle.openapi_faults.specs.Adds.{Adds};
ghost use Rattle.openapi_faults.specs.References.{reference_of};
ghost use Rattle.openapi_findings.specs.Stated.{statement_of, unresolved_at, unresolved_in};

use crate::code::Code;
use crate::kind_at::DOCUMENT;
use crate::pointer::leads_to_value;
use crate::report::Report;
use openapi_faults::{Reference, references};
use openapi_node::{Node, PlaceStep, Steps};
use std::alloc::{AllocError, Global};

/// Appends a report for each reference within a document that leads to no value.
pub(crate) fn report_references(
    alloc: Global,
    document: &Node,
    reports: &mut Vec<Report>,
    steps: &mut Steps,
) -> Result<(), AllocError>
    ensures { OnOk result (Adds statement_of reports.old.items reports.new.items (unresolved_in document.now)) }
{
    for reference in references(alloc, DOCUMENT, document, steps)? {
        if !leads_to_value(alloc, document, reference.text.as_str(), steps)? {
            let report = report_of(alloc, reference)?;
            reports.push(report)?;
        }
    }
    Ok(())
}

/// Returns the report of a reference that leads to no value.
fn report_of(alloc: Global, reference: Reference) -> Result<Report, AllocError>
    ensures { IfOk result (λ r. statement_of r ≡ unresolved_at (reference_of reference)) }
{
    let Reference {
        mut place,
        text,
        target: _,
    } = reference;
    let message = format!(in alloc; "the reference `{text}` leads to no value")?;
    let name = String::from_str(alloc, "$ref")?;
    place.push(PlaceStep::Name(name))?;
    Ok(Report {
        code: Code::UnresolvedReference,
        message,
        help: None,
        place,
    })
}
