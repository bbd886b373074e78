//! Answers cases: what a type of OpenAPI makes of a JSON text.
//!
//! With words, each names a file of cases (`docs/CONTRIBUTING.md` describes how to write one). A line is printed for
//! each file, with the number of its cases, and more for each case with another answer.
//!
//! Without words, each line of standard input is a type, a tab and a JSON text. Each line of standard output is what
//! the type reads from it, written again, or `! ` and the fault.
//!
//! With the word `memory` it makes one call for `tests/memory.sh`, which the words behind it name.
//!
//! Exit statuses: 0, all answers are as they have to be; 1, some are not, or the words name nothing.
#![tactic(auto)]

mod answer;
mod calls;
mod case;
mod empty;
mod findings;
mod functions;
mod kinds;
mod marks;
mod nodes;
mod objects;
mod row;
mod samples;
mod sorts;
mod table;
mod texts;
mod told;
mod typed;
mod types;
mod visited;

use answer::{answer, answer_line};
use case::{Case, cases_of};
use marks::{Moment, mark};
use samples::Sample;
use std::io::{BufRead, BufReader};
use std::process::ExitCode;
use std::test::Fail;
use std::{env, fs};
use told::Told;

/// Returns the words of the command line, the name of the program first.
fn words_of(rt: &HostRuntime) -> Result<Vec<String>, Fail> {
    let mut words = Vec::new(rt.alloc());
    for word in env::args(rt)? {
        words.push(word)?;
    }
    Ok(words)
}

/// Returns what comes of the call that the words behind `memory` name.
fn told_by(rt: &HostRuntime, words: &[String]) -> Result<Told, Fail> {
    match words {
        [call] => calls::alone(rt, call.as_str()),
        [call, sample] => calls::on_sample(rt, call.as_str(), sample.as_str().parse::<Sample>()?),
        _ => Err(Fail::new("usage: openapi_cases memory CALL [SAMPLE]")),
    }
}

/// Makes the call that the words behind `memory` name, between two marks.
fn make_call(rt: &HostRuntime, words: &[String]) -> Result<ExitCode, Fail> {
    mark(rt.alloc(), Moment::Start)?;
    let told = told_by(rt, words)?;
    mark(rt.alloc(), Moment::End)?;
    println!(rt; "{told}")?;
    Ok(told.exit_code())
}

/// Returns the answer to a case. If there is none, it prints to standard error which case it is.
fn answer_or_tell(rt: &HostRuntime, file: &str, case: &Case<'_>) -> Result<String, Fail> {
    match answer(rt, case) {
        Ok(text) => Ok(text),
        Err(fail) => {
            let _told = eprintln!(rt; "{file}:{}: has no answer", case.line);
            Err(fail)
        }
    }
}

/// Returns whether a case has the wanted answer. If not, it prints the answer.
fn is_met(rt: &HostRuntime, file: &str, case: &Case<'_>) -> Result<bool, Fail> {
    let found = answer_or_tell(rt, file, case)?;
    if found.as_str() == case.wanted.as_str() {
        return Ok(true);
    }
    let (line, request) = (case.line, case.request);
    println!(rt;
        "{file}:{line}: {request}\ncame:\n{found}in place of:\n{}",
        case.wanted.as_str()
    )?;
    Ok(false)
}

/// Returns whether all cases of a file have the wanted answers, and prints how many there are.
fn run_file(rt: &HostRuntime, file: &str) -> Result<bool, Fail> {
    let text = fs::read_to_string(rt, file)?;
    let cases = cases_of(rt.alloc(), text.as_str())?;
    let mut all = true;
    for case in cases.iter() {
        all = is_met(rt, file, case)? && all;
    }
    println!(rt; "{file}: {}", cases.len())?;
    Ok(all)
}

/// Returns success if all cases of all files have the wanted answers.
fn run_files(rt: &HostRuntime, files: &[String]) -> Result<ExitCode, Fail> {
    let mut all = true;
    for file in files {
        all = run_file(rt, file.as_str())? && all;
    }
    Ok(if all {
        ExitCode::SUCCESS
    } else {
        ExitCode::FAILURE
    })
}

/// Answers the lines of standard input.
fn run_lines(rt: &HostRuntime) -> Result<ExitCode, Fail> {
    for line in BufReader::new(rt.alloc(), rt.reader())?.lines(rt.alloc()) {
        let line = line?;
        print!(rt; "{}", answer_line(rt, line.as_str())?)?;
    }
    Ok(ExitCode::SUCCESS)
}

fn main(rt: HostRuntime) -> Result<ExitCode, Fail> {
    let words = words_of(&rt)?;
    match words.as_slice() {
        [_, first, rest @ ..] if first.as_str() == "memory" => make_call(&rt, rest),
        [_, files @ ..] if !files.is_empty() => run_files(&rt, files),
        _ => run_lines(&rt),
    }
}
