//! A finding whose position in the text is not known yet.
ghost use Rattle.std.specs.Prelude.{◌≡◌, IfOk, map};
ghost use Rattle.openapi_node.specs.Fault.{step_of};
ghost use Rattle.openapi_findings.specs.Findings.{finds, found};
ghost use Rattle.openapi_findings.specs.Stated.{place_in_report, statement_of};

use crate::code::Code;
use crate::finding::Finding;
use openapi_json::Position;
use openapi_node::PlaceStep;
use std::alloc::{AllocError, Global};

/// A finding whose position in the text is not known yet.
#[derive(Debug, Drop)]
pub(crate) struct Report {
    pub code: Code,
    pub message: String,
    pub help: Option<String>,
    pub place: Vec<PlaceStep>,
}

impl Report {
    /// Returns the finding at a position.
    pub(crate) fn at(self, position: Option<Position>) -> Finding
        ensures finds { finds result ≡ found (statement_of self) }
        ensures position { result.position ≡ position }
    {
        let Report {
            code,
            message,
            help,
            place,
        } = self;
        Finding {
            code,
            message,
            help,
            place: Some(place),
            position,
        }
    }
}

/// Returns the locations of reports.
pub(crate) fn report_places<'a>(
    alloc: Global,
    reports: &'a [Report],
) -> Result<Vec<&'a [PlaceStep]>, AllocError>
    ensures { IfOk result (λ v. map (λ p. map step_of p.now) v.items ≡ map place_in_report reports.now) }
{
    let mut places: Vec<&[PlaceStep]> = Vec::with_capacity(alloc, reports.len())?;
    for report in reports {
        places.push(report.place.as_slice())?;
    }
    Ok(places)
}
