//! The command `clean`.
use crate::input::{INPUT, read_input, shown_name};
use crate::report::{report_failure, report_no_memory, report_refusal};
use crate::status::{FAILED, WRONG_ARGUMENTS};
use crate::target::{Rewrite, Target};
use openapi_node::Steps;
use openapi_removal::{CleanFault, without_dropped};
use openapi_text::{Refusal, RunFault};

/// Removes from files what has no effect, or from standard input if there is none, and returns the exit status.
pub fn clean_files(rt: &HostRuntime, target: Target<'_>, files: &[&str]) -> u8 {
    if let Some(message) = target.misfit(files) {
        let _printed = eprintln!(rt; "error: {message}");
        return WRONG_ARGUMENTS;
    }
    if files.is_empty() {
        return clean_file(rt, target, INPUT);
    }
    let mut status = 0;
    for file in files {
        status = clean_file(rt, target, file).max(status);
    }
    status
}

/// Removes from a file what has no effect, and returns the exit status.
fn clean_file(rt: &HostRuntime, target: Target<'_>, file: &str) -> u8 {
    let source = match read_input(rt, file) {
        Ok(source) => source,
        Err(error) => {
            report_failure(rt, shown_name(file), &error);
            return FAILED;
        }
    };
    let mut steps = Steps::new(rt);
    match without_dropped(rt.alloc(), source.as_slice(), &mut steps) {
        Ok(cleaned) => target.deliver(
            rt,
            Rewrite {
                file,
                source: source.as_slice(),
                text: cleaned.text.as_str(),
                dropped: cleaned.dropped.len(),
                is_document: true,
                state: "clean",
            },
        ),
        Err(fault) => report_fault(rt, shown_name(file), source.as_slice(), fault),
    }
}

/// Reports why a text was not cleaned, and returns the exit status.
fn report_fault(rt: &HostRuntime, name: &str, bytes: &[u8], fault: CleanFault) -> u8 {
    match fault {
        CleanFault::NotJson => {
            let refusal = Refusal {
                fault: RunFault::NotJson,
                position: None,
            };
            report_refusal(rt, name, bytes, refusal)
        }
        CleanFault::Memory => {
            report_no_memory(rt, name);
            FAILED
        }
        CleanFault::Internal => {
            let _printed = eprintln!(rt; "error: {name}: {fault}; nothing was written");
            FAILED
        }
    }
}
