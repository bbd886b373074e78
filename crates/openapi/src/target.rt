//! Where the text of a command that rewrites files goes.
use crate::input::{INPUT, shown_name};
use crate::output::write_output;
use crate::replace::replace_file;
use crate::report::report_failure;
use crate::status::{FAILED, FOUND};

/// Where a text goes.
#[derive(Clone, Copy, Debug, PartialEq, Eq)]
pub enum Target<'a> {
    /// To standard output.
    Output,
    /// To this file.
    File(&'a str),
    /// To the file that was read.
    InPlace,
    /// Nowhere: the exit status shows whether the file would change.
    Check,
}

/// A file and the text that replaces its own.
#[derive(Clone, Copy)]
pub struct Rewrite<'a> {
    /// The name of the file.
    pub file: &'a str,
    /// What it holds.
    pub source: &'a [u8],
    /// What it is to hold.
    pub text: &'a str,
    /// How many members are left out.
    pub dropped: usize,
    /// Whether `openapi check` lists these.
    pub is_document: bool,
    /// What a file is that needs no change.
    pub state: &'static str,
}

impl Target<'_> {
    /// Returns what is wrong with these files for the target.
    pub fn misfit(self, files: &[&str]) -> Option<&'static str> {
        match self {
            Target::File(_) if files.len() > 1 => Some("`-o` takes the text of one FILE"),
            Target::InPlace if files.is_empty() || files.contains(&INPUT) => Some(
                "`--write` needs a FILE: standard input can't be replaced",
            ),
            _ => None,
        }
    }

    /// Writes the text of a file to the target, and returns the exit status.
    pub fn deliver(self, rt: &HostRuntime, rewrite: Rewrite<'_>) -> u8 {
        let is_same = rewrite.text.as_bytes() == rewrite.source;
        match self {
            Target::Check => report_check(rt, rewrite, is_same),
            Target::InPlace if is_same => 0,
            Target::InPlace => replace(rt, rewrite.file, rewrite),
            Target::File(file) => replace(rt, file, rewrite),
            Target::Output => {
                if write_output(rt, rewrite.text).is_err() {
                    return FAILED;
                }
                report_dropped(rt, rewrite.file, rewrite.dropped, rewrite.is_document);
                0
            }
        }
    }
}

/// Reports whether a file would change, and returns the exit status.
fn report_check(rt: &HostRuntime, rewrite: Rewrite<'_>, is_same: bool) -> u8 {
    if is_same {
        return 0;
    }
    let (name, state) = (shown_name(rewrite.file), rewrite.state);
    let _printed = eprintln!(rt; "error: {name} is not {state}");
    FOUND
}

/// Replaces the content of a file, and returns the exit status.
fn replace(rt: &HostRuntime, file: &str, rewrite: Rewrite<'_>) -> u8 {
    match replace_file(rt, file, rewrite.text.as_bytes()) {
        Ok(()) => {
            report_dropped(rt, rewrite.file, rewrite.dropped, rewrite.is_document);
            0
        }
        Err(error) => {
            report_failure(rt, file, &error);
            FAILED
        }
    }
}

/// Reports how many members of a file are left out, if there are any.
pub fn report_dropped(rt: &HostRuntime, file: &str, dropped: usize, is_document: bool) {
    if dropped == 0 {
        return;
    }
    let name = shown_name(file);
    let (members, were, them) = if dropped == 1 {
        ("member", "was", "it")
    } else {
        ("members", "were", "them")
    };
    let _printed = eprintln!(rt;
        "warning: {name}: {dropped} {members} without effect {were} left out"
    );
    if is_document && file != INPUT {
        let _printed = eprintln!(rt; "  = help: `openapi check {file}` lists {them}");
    }
}
