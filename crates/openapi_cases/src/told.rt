//! What came of a call for `tests/memory.sh`.

use openapiv3::{Cause, Fault};
use std::alloc::AllocError;
use std::fmt;
use std::process::ExitCode;

/// What came of a call.
#[derive(Clone, Copy)]
pub enum Told {
    /// It answered what it is to answer.
    Answered,
    /// It reported an allocation failure, by that cause and the empty location.
    OutOfMemory,
    /// It did neither, or a value that it borrowed is not as it was: what differs.
    Differs(&'static str),
}

impl Told {
    /// Returns what the process ends with.
    pub fn exit_code(self) -> ExitCode {
        match self {
            Told::Answered | Told::OutOfMemory => ExitCode::SUCCESS,
            Told::Differs(_) => ExitCode::FAILURE,
        }
    }

    /// Returns the same if the value that the call borrowed is as it was before.
    pub fn if_kept<T: PartialEq>(self, lent: &T, before: &T) -> Told {
        if lent == before {
            self
        } else {
            Told::Differs("what the call was lent is not as it was")
        }
    }
}

impl fmt::Display for Told {
    fn fmt<W: fmt::Write>(&self, f: &mut fmt::Formatter<W>) -> fmt::Result {
        match self {
            Told::Answered => write!(f, "answered"),
            Told::OutOfMemory => write!(f, "refused: out of memory"),
            Told::Differs(what) => write!(f, "differs: {what}"),
        }
    }
}

/// Returns what came of a call that gave a value.
pub fn told_by_value<T: PartialEq>(value: &T, wanted: &T) -> Told {
    if value == wanted {
        Told::Answered
    } else {
        Told::Differs("the answer is another one")
    }
}

/// Returns what came of a call that gave a fault.
pub fn told_by_fault(fault: &Fault) -> Told {
    if fault.cause != Cause::Memory {
        Told::Differs("the fault has another cause")
    } else if !fault.place.is_empty() {
        Told::Differs("the fault has a place")
    } else {
        Told::OutOfMemory
    }
}

/// Returns what came of a call that gives a value or a fault.
pub fn told_by<T: PartialEq + Drop>(answer: Result<T, Fault>, wanted: &T) -> Told {
    match answer {
        Ok(value) => told_by_value(&value, wanted),
        Err(fault) => told_by_fault(&fault),
    }
}

/// Returns what came of a call whose only error is an allocation failure.
pub fn told_by_growth<T: PartialEq + Drop>(answer: Result<T, AllocError>, wanted: &T) -> Told {
    match answer {
        Ok(value) => told_by_value(&value, wanted),
        Err(_) => Told::OutOfMemory,
    }
}
