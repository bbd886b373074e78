//! Checks, rewrites and lists OpenAPI 3.0 documents in JSON.
//!
//! `openapi check` prints every finding of each file, `clean` its text without what has no effect, `normalize` its
//! serialized value, and `operations` and `references` list what there is in it.
//!
//! Exit statuses, of which the highest counts for several files:
//!
//! - 0: all is well.
//! - 1: a file breaks a rule, has warnings that are denied, or would change with `--check`.
//! - 2: a file is no JSON, or the arguments are wrong.
//! - 3: reading, writing or an allocation failed.
#![tactic(auto)]

mod arguments;
mod check;
mod clean;
mod input;
mod listing;
mod normalize;
mod output;
mod replace;
mod report;
mod status;
mod tally;
mod target;

use arguments::{check_options, command_line, list_format, normalize_options, target_of};
use check::check_files;
use clap::ArgMatches;
use clap::error::ErrorKind;
use clean::clean_files;
use listing::{Listing, list_files};
use normalize::normalize_files;
use status::{FAILED, WRONG_ARGUMENTS};
use std::process::ExitCode;
use std::{env, io};

/// Returns the words of the command line, the name of the program first.
fn words_of(rt: &HostRuntime) -> io::Result<Vec<String>> {
    let mut words = Vec::new(rt.alloc());
    for word in env::args(rt)? {
        words.push(word)?;
    }
    Ok(words)
}

/// Runs the command that the words name, and returns the exit status.
fn run_command(rt: &HostRuntime, matches: &ArgMatches<'_>) -> u8 {
    let Some((name, matches)) = matches.subcommand() else {
        return WRONG_ARGUMENTS;
    };
    let files = matches.get_strs("FILE").unwrap_or(&[]);
    match name {
        "check" => check_files(rt, check_options(matches), files),
        "clean" => clean_files(rt, target_of(matches), files),
        "normalize" => normalize_files(rt, normalize_options(matches), files),
        "operations" => list_files(rt, Listing::Operations, list_format(matches), files),
        "references" => list_files(rt, Listing::References, list_format(matches), files),
        _ => WRONG_ARGUMENTS,
    }
}

/// Runs the command that the words name, and returns the exit status.
fn status_of(rt: &HostRuntime, words: &[String]) -> u8 {
    let Ok(line) = command_line(rt.alloc()) else {
        let _printed = eprintln!(rt; "error: out of memory");
        return FAILED;
    };
    match line.try_get_matches_from(words) {
        Ok(matches) => run_command(rt, &matches),
        Err(error) => {
            let printed = error.print(rt);
            match error.kind() {
                ErrorKind::OutOfMemory => FAILED,
                ErrorKind::DisplayHelp | ErrorKind::DisplayVersion if printed.is_err() => FAILED,
                ErrorKind::DisplayHelp | ErrorKind::DisplayVersion => 0,
                _ => WRONG_ARGUMENTS,
            }
        }
    }
}

fn main(rt: HostRuntime) -> ExitCode {
    let status = match words_of(&rt) {
        Ok(words) => status_of(&rt, words.as_slice()),
        Err(error) => {
            let _printed = eprintln!(rt; "error: {error}");
            if error.kind() == io::ErrorKind::OutOfMemory {
                FAILED
            } else {
                WRONG_ARGUMENTS
            }
        }
    };
    ExitCode::from(status)
}
