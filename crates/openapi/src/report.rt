//! What goes to standard error.
use crate::output::{Format, printed};
use crate::status::FAILED;
use openapi_findings::{Finding, findings};
use openapi_node::Steps;
use openapi_text::{Refusal, RunFault};
use std::alloc::AllocError;
use std::io;

/// The name of standard output in what is printed.
pub const OUTPUT_SHOWN: &str = "<stdout>";

/// Prints that reading or writing failed. If standard error is closed, the exit status still shows how the run ended.
pub fn report_failure(rt: &HostRuntime, name: &str, error: &io::Error) {
    let _printed = eprintln!(rt; "error: {name}: {error}");
}

/// Prints an out-of-memory error for a file.
pub fn report_no_memory(rt: &HostRuntime, name: &str) {
    report_failure(rt, name, &io::Error::from(AllocError));
}

/// Prints why a text was refused, and returns the exit status.
pub fn report_refusal(rt: &HostRuntime, name: &str, bytes: &[u8], refusal: Refusal) -> u8 {
    let status = refusal.fault.status();
    match refusal_text(rt, name, bytes, refusal) {
        Ok(text) => {
            let _printed = eprint!(rt; "{text}");
            status
        }
        Err(AllocError) => {
            report_no_memory(rt, name);
            FAILED
        }
    }
}

/// Returns a refusal as it is printed.
fn refusal_text(
    rt: &HostRuntime,
    name: &str,
    bytes: &[u8],
    refusal: Refusal,
) -> Result<String, AllocError> {
    let found = refusal_findings(rt, bytes, refusal)?;
    printed(rt.alloc(), Format::Text, name, bytes, found.as_slice())
}

/// Returns a refusal as findings.
fn refusal_findings(
    rt: &HostRuntime,
    bytes: &[u8],
    refusal: Refusal,
) -> Result<Vec<Finding>, AllocError> {
    let Refusal { fault, position } = refusal;
    match fault {
        RunFault::Refused(fault) => {
            let finding = Finding::of_refusal(rt.alloc(), fault, position)?;
            let mut found = Vec::new(rt.alloc());
            found.push(finding)?;
            Ok(found)
        }
        RunFault::NotJson => findings(rt.alloc(), bytes, &mut Steps::new(rt)),
        RunFault::Memory | RunFault::Read | RunFault::Write => Err(AllocError),
    }
}
