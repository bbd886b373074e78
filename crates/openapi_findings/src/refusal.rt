//! The finding of the fault that a reader returned.
ghost use Rattle.std.specs.Prelude.{◌≡◌, IfOk, Some};
ghost use Rattle.openapi_node.specs.Fault.{place_of};
ghost use Rattle.openapi_findings.specs.Findings.{finds};
ghost use Rattle.openapi_findings.specs.Stated.{refusal_code};

use crate::code::Code;
use crate::fault_reports::code_of;
use crate::finding::Finding;
use openapi_json::Position;
use openapi_node::{Cause, Fault};
use std::alloc::{AllocError, Global};

impl Finding {
    /// Creates the finding of the fault that a reader returned, at a position.
    ///
    /// # Errors
    ///
    /// Returns [`AllocError`] if an allocation fails.
    pub fn of_refusal(
        alloc: Global,
        fault: Fault,
        position: Option<Position>,
    ) -> Result<Finding, AllocError>
        ensures finds { IfOk result (λ f. finds f ≡ (Some (place_of fault), refusal_code fault.cause)) }
        ensures position { IfOk result (λ f. f.position ≡ position) }
    {
        let Fault { place, cause } = fault;
        let message = cause.to_string(alloc)?;
        let help = help_for(alloc, cause)?;
        Ok(Finding {
            code: refused_code(cause),
            message,
            help,
            place: Some(place),
            position,
        })
    }
}

/// Returns the code of the refusals with a cause.
fn refused_code(cause: Cause) -> Code
    ensures { result ≡ refusal_code cause }
{
    match cause {
        Cause::NotWhole => Code::NotWhole,
        _ => code_of(cause),
    }
}

/// Returns what to do about a cause.
fn help_for(alloc: Global, cause: Cause) -> Result<Option<String>, AllocError> {
    let help = match cause {
        Cause::NotWhole => {
            "only whole numbers within 64 bits are supported here; `openapi check` takes any"
        }
        _ => return Ok(None),
    };
    Ok(Some(String::from_str(alloc, help)?))
}
