//! Why a text is refused, with the position of the value.
ghost use Rattle.std.specs.Prelude.{◌≡◌, IfOk, IfSome};
ghost use Rattle.openapi_tables.specs.Kind.{Kind};
ghost use Rattle.openapi_text.specs.Located.{IsPositionOf, IsRefusal};
ghost use Rattle.openapi_text.specs.Texts.{Explains};
ghost use Rattle.openapi_text.specs.declared.layout.Layout.TheVariants as layout;

use crate::fault::RunFault;
use openapi_json::{Position, position_of};
use std::alloc::{AllocError, Global};

/// Why a text is refused.
#[derive(Debug, Drop)]
pub struct Refusal {
    /// What is wrong, or that an allocation failed.
    pub fault: RunFault,
    /// The position of the value that breaks a rule, if it is known. `None` if the text is not JSON or an allocation
    /// failed.
    pub position: Option<Position>,
}

impl Refusal {
    /// Returns the refusal of a text for a fault, with its position; or an allocation failure while the position is
    /// searched.
    pub fn located(alloc: Global, bytes: &[u8], fault: RunFault) -> Refusal
        ensures { (k : Kind) → Explains layout.InOrder k bytes.now fault → IsRefusal k bytes.now result }
    {
        match position_in(alloc, bytes, &fault) {
            Ok(position) => Refusal { fault, position },
            Err(error) => {
                drop(fault);
                Refusal::from(error)
            }
        }
    }
}

/// Returns the position of the value that a fault is about, if it is about one.
fn position_in(
    alloc: Global,
    bytes: &[u8],
    fault: &RunFault,
) -> Result<Option<Position>, AllocError>
    ensures { IfOk result (λ p. IfSome p (IsPositionOf bytes.now fault.now)) }
{
    match fault {
        RunFault::Refused(refusal) => position_of(alloc, bytes, refusal.place.as_slice()),
        _ => Ok(None),
    }
}

impl From<AllocError> for Refusal {
    ghost use Rattle.openapi_text.specs.Located.{no_memory};

    ghost from_gives = { λ e r. r ≡ no_memory };

    fn from(_: AllocError) -> Refusal {
        Refusal {
            fault: RunFault::Memory,
            position: None,
        }
    }
}
