//! The failures of a run.
ghost use Rattle.std.specs.Prelude.{◌≡◌};
ghost use Rattle.openapi_text.specs.Status.{status_of};

use openapi_json::JsonFault;
use openapi_node::Fault;
use std::alloc::AllocError;
use thiserror::Error;

/// The reason why a run wrote no whole line. It prints as one line of text, without a line feed.
#[derive(Debug, Drop, Error)]
pub enum RunFault {
    /// The input is JSON, but a number in it is not whole, or it is not the object of the command. The fault, with its
    /// cause and location, is what is printed.
    #[error("{0}")]
    Refused(Fault),
    /// The input is not UTF-8 or not JSON (RFC 8259).
    #[error("not JSON")]
    NotJson,
    /// An allocation failed.
    #[error("out of memory")]
    Memory,
    /// The reader failed, or did not end.
    #[error("read failed")]
    Read,
    /// The writer failed, or accepted nothing.
    #[error("write failed")]
    Write,
}

impl From<AllocError> for RunFault {
    ghost use Rattle.openapi_text.specs.declared.fault.RunFault.TheVariants as faults;

    ghost from_gives = { λ e f. f ≡ faults.Memory };

    fn from(_: AllocError) -> RunFault {
        RunFault::Memory
    }
}

impl From<JsonFault> for RunFault {
    ghost use Rattle.openapi_text.specs.Texts.{run_fault_of};

    ghost from_gives = { λ j e. e ≡ run_fault_of j };

    fn from(fault: JsonFault) -> RunFault {
        match fault {
            JsonFault::NotJson => RunFault::NotJson,
            JsonFault::NotWhole(fault) => RunFault::Refused(fault),
            JsonFault::Memory => RunFault::Memory,
        }
    }
}

impl RunFault {
    /// Returns the exit status of the program: 1 for [`RunFault::Refused`], 2 for [`RunFault::NotJson`], and 3 for the
    /// others.
    pub fn status(&self) -> u8
        ensures { result ≡ status_of self.now }
    {
        match self {
            RunFault::Refused(_) => 1,
            RunFault::NotJson => 2,
            RunFault::Memory | RunFault::Read | RunFault::Write => 3,
        }
    }
}
