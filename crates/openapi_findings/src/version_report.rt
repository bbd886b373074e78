//! The report of a document that is of another version than OpenAPI 3.0.x.
ghost use Rattle.std.specs.Prelude.{◌≡◌, [], ◌∷◌, codes, IfOk, MatchOption, OnOk, map};
ghost use Rattle.openapi_node.specs.Fault.{step_of};
ghost use Rattle.openapi_node.specs.Place.{named};
ghost use Rattle.openapi_tables.specs.Kind.{begins};
ghost use Rattle.openapi_faults.specs.Adds.{Adds};
ghost use Rattle.openapi_findings.specs.Stated.{statement_of, version_at, version_in};

use crate::code::Code;
use crate::fields::text_of;
use crate::report::Report;
use openapi_node::{Node, PlaceStep, Steps, View};
use std::alloc::{AllocError, Global};

/// A member with a version that is not supported.
#[derive(Clone, Copy)]
struct OtherVersion<'a> {
    name: &'static str,
    version: &'a str,
    help: &'static str,
}

/// Appends a report if a document is of another version than OpenAPI 3.0.x.
pub(crate) fn report_version(
    alloc: Global,
    document: &Node,
    reports: &mut Vec<Report>,
    steps: &mut Steps,
) -> Result<(), AllocError>
    ensures { OnOk result (Adds statement_of reports.old.items reports.new.items (version_in document.now)) }
{
    let Some(other) = other_version(document, steps) else {
        return Ok(());
    };
    let version = other.version;
    let message = format!(in alloc; "version `{version}` is not supported, expected `3.0.x`")?;
    let help = String::from_str(alloc, other.help)?;
    let place = place_of(alloc, other.name)?;
    reports.push(Report {
        code: Code::Version,
        message,
        help: Some(help),
        place,
    })?;
    Ok(())
}

/// Returns the member with a version that is not supported: `openapi` if it does not begin with `3.0.`, or `swagger`.
fn other_version<'a>(document: &'a Node, steps: &mut Steps) -> Option<OtherVersion<'a>>
    ensures { MatchOption result (version_in document.now ≡ []) (λ o. version_in document.now ≡ version_at o.name.now) }
{
    let View::Object(members) = document.open(steps) else {
        return None;
    };
    if let Some(version) = text_of(members, "swagger", steps) {
        return Some(OtherVersion {
            name: "swagger",
            version,
            help: "convert the document to OpenAPI 3.0",
        });
    }
    let version = text_of(members, "openapi", steps)?;
    if is_supported(version) {
        return None;
    }
    Some(OtherVersion {
        name: "openapi",
        version,
        help: "the document is checked as one of OpenAPI 3.0",
    })
}

/// Returns whether a version is one of OpenAPI 3.0.x.
fn is_supported(version: &str) -> bool
    ensures { result ≡ begins (codes "3.0.") version.now }
{
    version.as_bytes().starts_with(b"3.0.")
}

/// Returns the location of a member of the document.
fn place_of(alloc: Global, name: &str) -> Result<Vec<PlaceStep>, AllocError>
    ensures { IfOk result (λ p. map step_of p.items ≡ named name.now ∷ []) }
{
    let name = String::from_str(alloc, name)?;
    let mut place = Vec::new(alloc);
    place.push(PlaceStep::Name(name))?;
    Ok(place)
}
