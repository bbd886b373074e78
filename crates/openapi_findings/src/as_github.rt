//! Findings as workflow commands of GitHub.
ghost use Rattle.std.specs.Fmt.{WritesOnOk};
ghost use Rattle.std.specs.Prelude.{◌≡◌};
ghost use Rattle.openapi_findings.specs.Printed.{command_word, github_point};

use crate::code::Severity;
use crate::escape::Escape;
use crate::finding::Finding;
use openapi_json::Point;
use std::fmt;

/// A finding as a workflow command of GitHub, without a line feed. GitHub shows it as an annotation of the line in a
/// pull request.
#[derive(Clone, Copy)]
pub struct AsGithub<'a> {
    /// The finding.
    pub finding: &'a Finding,
    /// The name of the file.
    pub file: &'a str,
}

impl fmt::Display for AsGithub<'_> {
    ghost use Rattle.std.specs.Prelude.{Some};
    ghost use Rattle.openapi_findings.specs.Printed.{github_text};

    ghost output = { λ it. Some (github_text it.file.now it.finding.now) };

    #[tactic(auto, unfolding(crate::specs::Printed::github_text))]
    fn fmt<W: fmt::Write>(&self, f: &mut fmt::Formatter<W>) -> fmt::Result {
        let finding = self.finding;
        let command = command_of(finding.severity());
        write!(f, "::{command} file=")?;
        Escape::Property.write(f, self.file)?;
        write_point(f, finding.point())?;
        f.write_str("::")?;
        Escape::Message.write(f, finding.message.as_str())
    }
}

/// Writes the line and the column of a point, if there is one.
#[tactic(auto, unfolding(crate::specs::Printed::github_point))]
fn write_point<W: fmt::Write>(f: &mut fmt::Formatter<W>, point: Option<Point>) -> fmt::Result
    ensures { WritesOnOk W.write_str_gives f.old result (github_point point) f.new }
{
    match point {
        Some(point) => {
            let (line, column) = (point.line, point.column);
            write!(f, ",line={line},col={column}")
        }
        None => Ok(()),
    }
}

/// Returns the name of the command for findings of a severity.
fn command_of(severity: Severity) -> &'static str
    ensures { result.now ≡ command_word severity }
{
    match severity {
        Severity::Error => "error",
        Severity::Warning => "warning",
        Severity::Note => "notice",
    }
}
