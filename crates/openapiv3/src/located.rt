//! Errors of reading with their position in the text.
ghost use Rattle.std.specs.Prelude.{◌≡◌, IfOk};
ghost use Rattle.openapiv3.specs.Read.{IsPositionIn};

use crate::read::ReadError;
use openapi_json::{JsonFault, Point, Position, position_of};
use openapi_node::{Cause, PlaceStep};
use std::alloc::{AllocError, Global};
use std::fmt;

/// A [`ReadError`] with the position of the value that it is about. It prints as one line of text, such as
/// `4:15: invalid type, expected a string at #/info/title`, or without the line and the column if it has no position.
#[derive(Debug, Drop)]
pub struct LocatedError {
    /// What is wrong.
    pub error: ReadError,
    /// The position of the value. `None` if the bytes are no JSON, or if an allocation failed.
    pub position: Option<Position>,
}

impl fmt::Display for LocatedError {
    fn fmt<W: fmt::Write>(&self, f: &mut fmt::Formatter<W>) -> fmt::Result {
        if let Some(position) = &self.position {
            let Point { line, column, .. } = position.value;
            write!(f, "{line}:{column}: ")?;
        }
        let error = &self.error;
        write!(f, "{error}")
    }
}

impl std::error::Error for LocatedError {}

impl ReadError {
    /// Returns the error with its position in the bytes that were read.
    ///
    /// # Errors
    ///
    /// Returns [`AllocError`] if an allocation fails.
    pub fn locate(self, alloc: Global, bytes: &[u8]) -> Result<LocatedError, AllocError>
        ensures same { IfOk result (λ e. e.error ≡ self) }
        ensures position { IfOk result (λ e. IsPositionIn bytes.now self e.position) }
    {
        let position = self.position_in(alloc, bytes)?;
        Ok(LocatedError {
            error: self,
            position,
        })
    }

    /// Returns the position of the value that the error is about, if it is about one.
    fn position_in(&self, alloc: Global, bytes: &[u8]) -> Result<Option<Position>, AllocError>
        ensures { IfOk result (IsPositionIn bytes.now self.now) }
    {
        match self {
            ReadError::Json(JsonFault::NotWhole(fault)) => position_of(
                alloc,
                bytes,
                fault.place.as_slice(),
            ),
            ReadError::Json(_) => Ok(None),
            ReadError::Refused(fault) => match fault.cause {
                Cause::Memory => Ok(None),
                _ => position_of(alloc, bytes, fault.place.as_slice()),
            },
        }
    }
}
