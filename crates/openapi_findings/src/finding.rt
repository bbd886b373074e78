//! A finding at one location of a document.
ghost use Rattle.std.specs.Prelude.{◌≡◌};
ghost use Rattle.openapi_findings.specs.Findings.{point_of};
ghost use Rattle.openapi_findings.specs.Stated.{severity_of};

use crate::code::{Code, Severity};
use openapi_json::{Point, Position};
use openapi_node::PlaceStep;

/// A finding at one location of a document.
#[derive(Debug, Drop)]
pub struct Finding {
    /// The kind of the finding.
    pub code: Code,
    /// What is wrong, in one line.
    pub message: String,
    /// What to do, in one line.
    pub help: Option<String>,
    /// The location of the value, or `None` if the text is no JSON.
    pub place: Option<Vec<PlaceStep>>,
    /// Where the value is in the text, and where its name is if it is the value of a member.
    pub position: Option<Position>,
}

impl Finding {
    /// Returns how severe the finding is.
    pub fn severity(&self) -> Severity
        ensures { result ≡ severity_of self.now.code }
    {
        self.code.severity()
    }

    /// Returns the point of the text at which the finding is shown, or `None` if it has no position.
    ///
    /// It is the point of the name if the finding is about a member as a whole, and that of the value otherwise.
    pub fn point(&self) -> Option<Point>
        ensures { result ≡ point_of self.now }
    {
        let position = self.position?;
        match position.name {
            Some(name) if self.code.is_about_member() => Some(name),
            _ => Some(position.value),
        }
    }
}
