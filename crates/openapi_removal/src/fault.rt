//! The errors of the removal of members.
use std::alloc::{AllocError, AllocFailed};
use thiserror::Error;

/// Why no text is returned. It prints as one line of text.
#[derive(Debug, Drop, Error, PartialEq)]
pub enum CleanFault {
    /// The bytes are not UTF-8, or not JSON as `serde_json` reads it: arrays and objects are nested at most 127 deep.
    #[error("not JSON")]
    NotJson,
    /// An allocation failed.
    #[error("out of memory")]
    Memory,
    /// The result was read again and is not the document without the members that reading drops. This is a bug.
    #[error("internal error: the cleaned text differs from the document in more than the removed members")]
    Internal,
}

impl From<AllocError> for CleanFault {
    ghost use Rattle.std.specs.Prelude.{◌≡◌};
    ghost use Rattle.openapi_removal.specs.declared.fault.CleanFault.TheVariants.{Memory};

    ghost from_gives = { λ _ f. f ≡ Memory };

    fn from(_refused: AllocError) -> CleanFault {
        CleanFault::Memory
    }
}

impl From<Failure> for CleanFault {
    ghost use Rattle.std.specs.Prelude.{◌≡◌};
    ghost use Rattle.openapi_removal.specs.Faults.{fault_of};

    ghost from_gives = { λ e f. f ≡ fault_of e };

    fn from(failure: Failure) -> CleanFault {
        match failure {
            Failure::Memory => CleanFault::Memory,
            Failure::Internal => CleanFault::Internal,
        }
    }
}

/// Why no text was made of a document that was read.
#[derive(Clone, Copy, Drop)]
pub(crate) enum Failure {
    /// An allocation failed.
    Memory,
    /// The text is not what it has to be.
    Internal,
}

impl From<AllocError> for Failure {
    fn from(_refused: AllocError) -> Failure {
        Failure::Memory
    }
}

impl<T: Drop> From<AllocFailed<T>> for Failure {
    fn from(_refused: AllocFailed<T>) -> Failure {
        Failure::Memory
    }
}
