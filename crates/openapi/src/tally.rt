//! How many findings there are, and the exit status.
ghost use Rattle.std.specs.Prelude.{◌≡◌, max};
ghost use Rattle.openapi.specs.Statuses.{file_status, finding_status};

use crate::status::{FAILED, FOUND, NOT_JSON};
use openapi_findings::{Code, Finding, Severity};
use std::fmt;

/// How many findings the files have that were checked, and the exit status so far. It prints as a summary.
#[derive(Clone, Copy, Debug, PartialEq, Eq)]
pub struct Tally {
    errors: usize,
    warnings: usize,
    notes: usize,
    files: usize,
    status: u8,
}

impl Tally {
    /// Creates a tally of no files.
    pub fn new() -> Tally
        ensures { result.status ≡ 0 }
    {
        Tally {
            errors: 0,
            warnings: 0,
            notes: 0,
            files: 0,
            status: 0,
        }
    }

    /// Adds a file with its findings.
    pub fn add_file(&mut self, findings: &[Finding], deny_warnings: bool)
        ensures { self.new.status ≡ max self.old.status (file_status deny_warnings findings.now) }
    {
        self.files = self.files.saturating_add(1);
        for finding in findings {
            self.count(finding.severity());
            self.raise(status_for(finding, deny_warnings));
        }
    }

    /// Adds a finding of a severity to the counts.
    fn count(&mut self, severity: Severity)
        ensures { self.new.status ≡ self.old.status }
    {
        match severity {
            Severity::Error => self.errors = self.errors.saturating_add(1),
            Severity::Warning => self.warnings = self.warnings.saturating_add(1),
            Severity::Note => self.notes = self.notes.saturating_add(1),
        }
    }

    /// Adds that reading, writing or an allocation failed.
    pub fn add_failure(&mut self)
        ensures { self.new.status ≡ max self.old.status 3 }
    {
        self.raise(FAILED);
    }

    /// Returns the exit status.
    pub fn status(&self) -> u8
        ensures { result ≡ self.now.status }
    {
        self.status
    }

    fn raise(&mut self, status: u8)
        ensures { self.new.status ≡ max self.old.status status }
    {
        self.status = self.status.max(status);
    }
}

/// Returns the exit status for a finding.
fn status_for(finding: &Finding, deny_warnings: bool) -> u8
    ensures { result ≡ finding_status deny_warnings finding.now }
{
    match finding.severity() {
        Severity::Error if finding.code == Code::NotJson => NOT_JSON,
        Severity::Error => FOUND,
        Severity::Warning if deny_warnings => FOUND,
        Severity::Warning | Severity::Note => 0,
    }
}

impl fmt::Display for Tally {
    fn fmt<W: fmt::Write>(&self, f: &mut fmt::Formatter<W>) -> fmt::Result {
        write_count(f, self.errors, "error")?;
        f.write_str(", ")?;
        write_count(f, self.warnings, "warning")?;
        if self.notes > 0 {
            f.write_str(", ")?;
            write_count(f, self.notes, "note")?;
        }
        f.write_str(" in ")?;
        write_count(f, self.files, "file")
    }
}

/// Writes a number of things.
fn write_count<W: fmt::Write>(f: &mut fmt::Formatter<W>, count: usize, thing: &str) -> fmt::Result {
    let ending = if count == 1 { "" } else { "s" };
    write!(f, "{count} {thing}{ending}")
}
