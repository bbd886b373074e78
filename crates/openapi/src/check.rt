//! The command `check`.
use crate::input::{INPUT, read_input, shown_name};
use crate::output::{Format, printed, write_output};
use crate::report;
use crate::tally::Tally;
use openapi_findings::{Finding, findings};
use openapi_node::Steps;
use std::alloc::AllocError;
use std::io;

/// How `check` runs.
#[derive(Clone, Copy, Debug, PartialEq, Eq)]
pub struct CheckOptions {
    /// How findings are printed.
    pub format: Format,
    /// Whether a warning makes the status 1.
    pub deny_warnings: bool,
}

/// Checks files, or standard input if there is none, and returns the exit status. Findings go to standard output, and what fails
/// and a summary to standard error.
pub fn check_files(rt: &HostRuntime, options: CheckOptions, files: &[&str]) -> u8 {
    let mut tally = Tally::new();
    if files.is_empty() {
        let _written = check_file(rt, options, INPUT, &mut tally);
    }
    for file in files {
        // Where one finding can't be written, no other can be.
        if check_file(rt, options, file, &mut tally).is_err() {
            break;
        }
    }
    // If standard error is closed, the exit status still shows how the run ended.
    let _printed = eprintln!(rt; "{tally}");
    tally.status()
}

/// Checks a file, and writes its findings. The error is that of standard output, which is reported here.
fn check_file(
    rt: &HostRuntime,
    options: CheckOptions,
    file: &str,
    tally: &mut Tally,
) -> io::Result<()> {
    let name = shown_name(file);
    let bytes = match read_input(rt, file) {
        Ok(bytes) => bytes,
        Err(error) => {
            report_failure(rt, name, &error, tally);
            return Ok(());
        }
    };
    let mut steps = Steps::new(rt);
    match findings(rt.alloc(), bytes.as_slice(), &mut steps) {
        Ok(findings) => {
            tally.add_file(findings.as_slice(), options.deny_warnings);
            write_findings(
                rt,
                options,
                name,
                bytes.as_slice(),
                findings.as_slice(),
                tally,
            )
        }
        Err(AllocError) => {
            report_failure(rt, name, &io::Error::from(AllocError), tally);
            Ok(())
        }
    }
}

/// Writes the findings of a file to standard output.
fn write_findings(
    rt: &HostRuntime,
    options: CheckOptions,
    name: &str,
    bytes: &[u8],
    findings: &[Finding],
    tally: &mut Tally,
) -> io::Result<()> {
    let text = match printed(rt.alloc(), options.format, name, bytes, findings) {
        Ok(text) => text,
        Err(AllocError) => {
            report_failure(rt, name, &io::Error::from(AllocError), tally);
            return Ok(());
        }
    };
    let written = write_output(rt, text.as_str());
    if written.is_err() {
        tally.add_failure();
    }
    written
}

/// Reports on standard error what failed.
fn report_failure(rt: &HostRuntime, name: &str, error: &io::Error, tally: &mut Tally) {
    report::report_failure(rt, name, error);
    tally.add_failure();
}
