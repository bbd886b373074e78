//! What goes to standard output.
ghost use Rattle.std.specs.Prelude.{◌≡◌, ◌++◌, IfOk, string_bytes};
ghost use Rattle.openapi.specs.Lines.{finding_line, findings_text};

use crate::report::{OUTPUT_SHOWN, report_failure};
use openapi_findings::{AsGithub, AsJson, AsText, Finding};
use std::alloc::{AllocError, Global};
use std::io;
use std::io::Write;
use std::str::FromStr;

/// How findings are printed.
#[derive(Clone, Copy, Debug, PartialEq, Eq)]
pub enum Format {
    /// For people.
    Text,
    /// One object of JSON a line.
    Json,
    /// One workflow command of GitHub a line.
    Github,
}

impl FromStr for Format {
    type Err = ();

    /// Reads `text`, `json` or `github`.
    ///
    /// # Errors
    ///
    /// Returns `()` for any other word.
    fn from_str(word: &str) -> Result<Format, ()> {
        match word {
            "text" => Ok(Format::Text),
            "json" => Ok(Format::Json),
            "github" => Ok(Format::Github),
            _ => Err(()),
        }
    }
}

/// Returns the findings of a file as they are printed.
///
/// # Errors
///
/// Returns [`AllocError`] if an allocation fails.
pub fn printed(
    alloc: Global,
    format: Format,
    file: &str,
    bytes: &[u8],
    findings: &[Finding],
) -> Result<String, AllocError>
    ensures { IfOk result (λ s. string_bytes s ≡ findings_text format file.now bytes.now findings.now) }
{
    let mut text = String::new(alloc);
    for finding in findings {
        push_finding(&mut text, format, file, bytes, finding)?;
    }
    Ok(text)
}

/// Appends a finding as it is printed, with a line feed.
fn push_finding(
    text: &mut String,
    format: Format,
    file: &str,
    bytes: &[u8],
    finding: &Finding,
) -> Result<(), AllocError>
    ensures { IfOk result (λ _. string_bytes text.new ≡ string_bytes text.old ++ finding_line format file.now bytes.now finding.now) }
{
    match format {
        Format::Text => {
            let shown = AsText {
                finding,
                file,
                bytes,
            };
            writeln!(text, "{shown}")
        }
        Format::Json => {
            let shown = AsJson { finding, file };
            writeln!(text, "{shown}")
        }
        Format::Github => {
            let shown = AsGithub { finding, file };
            writeln!(text, "{shown}")
        }
    }
}

/// Writes a text to standard output.
///
/// # Errors
///
/// Returns the error of the system, after it is reported on standard error.
pub fn write_output(rt: &HostRuntime, text: &str) -> io::Result<()> {
    let written = io::writer(rt).write_all(text.as_bytes());
    if let Err(error) = &written {
        report_failure(rt, OUTPUT_SHOWN, error);
    }
    written
}
