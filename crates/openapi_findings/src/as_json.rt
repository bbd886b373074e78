//! Findings as JSON for programs.
ghost use Rattle.std.specs.Prelude.{option_map, string_bytes};
ghost use Rattle.std.specs.Fmt.{WritesOnOk};
ghost use Rattle.openapi_findings.specs.Printed.{json_help, json_place, json_point, json_words};

use crate::finding::Finding;
use crate::shown::{Quoted, QuotedPointer};
use openapi_json::Point;
use openapi_node::PlaceStep;
use std::fmt;

/// A finding as one JSON object, without a line feed.
///
/// The pointer of the root is `""`. If the text is no JSON, the pointer is `null`.
#[derive(Clone, Copy)]
pub struct AsJson<'a> {
    /// The finding.
    pub finding: &'a Finding,
    /// The name of the file.
    pub file: &'a str,
}

impl fmt::Display for AsJson<'_> {
    ghost use Rattle.std.specs.Prelude.{Some};
    ghost use Rattle.openapi_findings.specs.Printed.{json_text};

    ghost output = { λ it. Some (json_text it.file.now it.finding.now) };

    #[tactic(auto, unfolding(crate::specs::Printed::json_text))]
    fn fmt<W: fmt::Write>(&self, f: &mut fmt::Formatter<W>) -> fmt::Result {
        let finding = self.finding;
        let file = Quoted(self.file);
        write!(f, "{{\"file\":{file}")?;
        write_point(f, finding.point())?;
        write_place(f, &finding.place)?;
        write_words(f, finding)?;
        write_help(f, &finding.help)?;
        f.write_str("}")
    }
}

/// Writes the line and the column of a point.
#[tactic(auto, unfolding(crate::specs::Printed::json_point))]
fn write_point<W: fmt::Write>(f: &mut fmt::Formatter<W>, point: Option<Point>) -> fmt::Result
    ensures { WritesOnOk W.write_str_gives f.old result (json_point point) f.new }
{
    match point {
        Some(point) => {
            let (line, column) = (point.line, point.column);
            write!(f, ",\"line\":{line},\"column\":{column}")
        }
        None => f.write_str(",\"line\":null,\"column\":null"),
    }
}

/// Writes a location as a JSON Pointer.
#[tactic(auto, unfolding(crate::specs::Printed::json_place))]
fn write_place<W: fmt::Write>(
    f: &mut fmt::Formatter<W>,
    place: &Option<Vec<PlaceStep>>,
) -> fmt::Result
    ensures { WritesOnOk W.write_str_gives f.old result (json_place (option_map (λ p. p.items) place.now)) f.new }
{
    match place {
        Some(place) => {
            let pointer = QuotedPointer(place.as_slice());
            write!(f, ",\"pointer\":{pointer}")
        }
        None => f.write_str(",\"pointer\":null"),
    }
}

/// Writes the severity, the code and the message.
#[tactic(auto, unfolding(crate::specs::Printed::json_words))]
fn write_words<W: fmt::Write>(f: &mut fmt::Formatter<W>, finding: &Finding) -> fmt::Result
    ensures { WritesOnOk W.write_str_gives f.old result (json_words finding.now) f.new }
{
    let (severity, code) = (finding.severity(), finding.code);
    let message = Quoted(finding.message.as_str());
    write!(
        f,
        ",\"severity\":\"{severity}\",\"code\":\"{code}\",\"message\":{message}"
    )
}

/// Writes the help text.
#[tactic(auto, unfolding(crate::specs::Printed::json_help))]
fn write_help<W: fmt::Write>(f: &mut fmt::Formatter<W>, help: &Option<String>) -> fmt::Result
    ensures { WritesOnOk W.write_str_gives f.old result (json_help (option_map string_bytes help.now)) f.new }
{
    match help {
        Some(help) => {
            let help = Quoted(help.as_str());
            write!(f, ",\"help\":{help}")
        }
        None => f.write_str(",\"help\":null"),
    }
}
