//! Reads an OpenAPI object as JSON from standard input, and writes it cleaned to standard output.
//!
//! The one argument is the command, which names the object. Exit statuses: 0, the cleaned object was written; 1, the
//! input was refused; 2, the input was no JSON or the arguments were wrong; 3, memory, reading or writing failed.
#![tactic(auto)]

mod answer;
mod command;
#[cfg(test)]
mod input_tests;
mod outcome;
mod run;
#[cfg(test)]
mod tests;

use command::Command;
use openapi_node::Steps;
use openapi_text::RunFault;
use outcome::Outcome;
use run::run;
use std::process::ExitCode;
use std::{env, io};

/// Returns the words of the command line, the name of the program first. A word that is not UTF-8 is in no command, and
/// leaves no words.
fn words_of(rt: &HostRuntime) -> Result<Vec<String>, RunFault> {
    let mut words = Vec::new(rt.alloc());
    match env::args(rt) {
        Ok(args) => {
            for word in args {
                words.push(word).map_err(|_| RunFault::Memory)?;
            }
        }
        Err(error) => {
            if error.kind() == io::ErrorKind::OutOfMemory {
                return Err(RunFault::Memory);
            }
        }
    }
    Ok(words)
}

/// Runs the command of the words on standard input and standard output.
fn outcome_of(rt: &HostRuntime) -> Outcome {
    let words = match words_of(rt) {
        Ok(words) => words,
        Err(fault) => return Outcome::Failed(fault),
    };
    let Some(command) = Command::of_words(words.as_slice()) else {
        return Outcome::WrongArguments;
    };
    let mut steps = Steps::new(rt);
    let mut reader = rt.reader();
    let mut writer = io::writer(rt);
    match run(rt.alloc(), command, &mut reader, &mut writer, &mut steps) {
        Ok(()) => Outcome::Written,
        Err(fault) => Outcome::Failed(fault),
    }
}

/// Prints why a run failed to standard error. It prints nothing if the output was written.
fn tell(rt: &HostRuntime, outcome: &Outcome) -> io::Result<()> {
    match outcome {
        Outcome::Written => Ok(()),
        Outcome::WrongArguments => rt.eprintln(Command::usage()),
        Outcome::Failed(fault) => eprintln!(rt; "{fault}"),
    }
}

fn main(rt: HostRuntime) -> ExitCode {
    let outcome = outcome_of(&rt);
    // If standard error is closed, the exit status still shows how the run ended.
    let _told = tell(&rt, &outcome);
    outcome.exit_code()
}
