//! The command `normalize`.
use crate::input::{INPUT, read_input, shown_name};
use crate::report::{OUTPUT_SHOWN, report_failure, report_no_memory, report_refusal};
use crate::status::{FAILED, FOUND, WRONG_ARGUMENTS};
use crate::target::{Rewrite, Target, report_dropped};
use openapi_node::Steps;
use openapi_normalize::{Failure, Object, Task, normalize, run};
use openapi_text::Refusal;
use std::fs::File;
use std::io;

/// How `normalize` runs.
#[derive(Clone, Copy, Debug, PartialEq, Eq)]
pub struct NormalizeOptions<'a> {
    /// What is read, and how it is printed.
    pub task: Task,
    /// Where it goes.
    pub target: Target<'a>,
}

/// Normalizes files, or standard input if there is none, and returns the exit status.
pub fn normalize_files(rt: &HostRuntime, options: NormalizeOptions<'_>, files: &[&str]) -> u8 {
    if let Some(message) = options.target.misfit(files) {
        let _printed = eprintln!(rt; "error: {message}");
        return WRONG_ARGUMENTS;
    }
    if files.is_empty() {
        return normalize_file(rt, options, INPUT, true);
    }
    let mut status = 0;
    for i in 0..files.len() {
        let is_last = i + 1 == files.len();
        status = normalize_file(rt, options, files[i], is_last).max(status);
    }
    status
}

/// Normalizes a file, which may be the last, and returns the exit status.
fn normalize_file(
    rt: &HostRuntime,
    options: NormalizeOptions<'_>,
    file: &str,
    is_last: bool,
) -> u8 {
    let object = options.task.object;
    let outcome = if options.target == Target::Output {
        print_normalized(rt, options.task, file, is_last)
    } else {
        rewrite_normalized(rt, options, file, is_last)
    };
    match outcome {
        Ok(status) => status,
        Err(Failure::Read(error)) => {
            report_failure(rt, shown_name(file), &error);
            FAILED
        }
        Err(Failure::Write(error)) => {
            report_failure(rt, OUTPUT_SHOWN, &error);
            FAILED
        }
        Err(Failure::Memory) => {
            report_no_memory(rt, shown_name(file));
            FAILED
        }
        Err(Failure::Refused(bytes, refusal)) => {
            report_refused(rt, object, file, bytes.as_slice(), refusal)
        }
    }
}

/// Normalizes a file to standard output, and returns the exit status.
fn print_normalized(
    rt: &HostRuntime,
    task: Task,
    file: &str,
    is_last: bool,
) -> Result<u8, Failure> {
    let mut steps = Steps::new(rt);
    let mut writer = io::writer(rt);
    let outcome = if file == INPUT {
        run(
            rt.alloc(),
            task,
            is_last,
            &mut rt.reader(),
            &mut writer,
            &mut steps,
        )
    } else {
        match File::open(rt, file) {
            Ok(mut reader) => run(
                rt.alloc(),
                task,
                is_last,
                &mut reader,
                &mut writer,
                &mut steps,
            ),
            Err(error) => Err(Failure::Read(error)),
        }
    };
    let dropped = outcome?;
    report_dropped(rt, file, dropped, task.object == Object::Document);
    Ok(0)
}

/// Normalizes a file to another target, and returns the exit status.
fn rewrite_normalized(
    rt: &HostRuntime,
    options: NormalizeOptions<'_>,
    file: &str,
    is_last: bool,
) -> Result<u8, Failure> {
    let source = match read_input(rt, file) {
        Ok(source) => source,
        Err(error) => return Err(Failure::Read(error)),
    };
    let mut steps = Steps::new(rt);
    match normalize(
        rt.alloc(),
        options.task,
        is_last,
        source.as_slice(),
        &mut steps,
    ) {
        Ok(normalized) => {
            let rewrite = Rewrite {
                file,
                source: source.as_slice(),
                text: normalized.text.as_str(),
                dropped: normalized.dropped,
                is_document: options.task.object == Object::Document,
                state: "normalized",
            };
            Ok(options.target.deliver(rt, rewrite))
        }
        Err(refusal) => Err(Failure::Refused(source, refusal)),
    }
}

/// Reports why a text was refused, and returns the exit status.
fn report_refused(
    rt: &HostRuntime,
    object: Object,
    file: &str,
    bytes: &[u8],
    refusal: Refusal,
) -> u8 {
    let status = report_refusal(rt, shown_name(file), bytes, refusal);
    if status == FOUND && object == Object::Document && file != INPUT {
        let _printed = eprintln!(rt; "help: `openapi check {file}` prints every finding");
    }
    status
}
